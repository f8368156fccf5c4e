// Documents for the examples, what a view answers, and checks of its text and places.
use buffer::buffer::Buffer;
use buffer::fault::Refusal;
use buffer::fixed_buffer::FixedBuffer;
use codes::code::{PLACEHOLDER, SOFT_BREAK};
use places::change::Change;
use std::process::Abort;
use view::fault::ViewFault;
use view::view::View;

// The letters a, b, c, .. in a buffer.
pub fn letters(n: u32) -> FixedBuffer {
    let mut store = FixedBuffer::new();
    for i in 0..n.min(26) {
        let _ = store.edit(i, 0, &[97 + i]);
    }
    store
}

// The codes of `text` in a buffer.
pub fn written(text: &str) -> FixedBuffer {
    let mut store = FixedBuffer::new();
    for byte in text.as_bytes() {
        let end = store.len();
        let _ = store.edit(end, 0, &[u32::from(*byte)]);
    }
    store
}

pub fn change(start: u32, old: u32, new: u32) -> Option<Change> {
    Some(Change { start, old, new })
}

pub fn told(number: u8, layer: u8, spot: u64) -> Option<Refusal> {
    Some(Refusal {
        number,
        layer,
        spot,
    })
}

pub fn refusal(answer: Result<Change, ViewFault>) -> Option<Refusal> {
    answer.err().map(|fault| Refusal::from(fault))
}

// A code that is expected of a text: a number, or a letter, where | stands for a soft break and ~ for a placeholder.
trait Expected {
    fn code(&self) -> u32;
}

impl Expected for u32 {
    fn code(&self) -> u32 {
        *self
    }
}

impl Expected for u8 {
    fn code(&self) -> u32 {
        match *self {
            b'|' => SOFT_BREAK,
            b'~' => PLACEHOLDER,
            other => u32::from(other),
        }
    }
}

fn check_codes<V: View, E: Expected>(rt: &impl Abort, view: &V, codes: &[E])
    requires { V.Meaning.sound view.now }
{
    assert_eq!(rt; view.len() as usize, codes.len());
    for (u, expected) in (0..view.len()).zip(codes) {
        assert_eq!(rt; view.code(u).ok(), Some(expected.code()));
    }
}

pub fn check_text<V: View>(rt: &impl Abort, view: &V, codes: &[u32])
    requires { V.Meaning.sound view.now }
{
    check_codes(rt, view, codes);
}

pub fn check_shown<V: View>(rt: &impl Abort, view: &V, text: &str)
    requires { V.Meaning.sound view.now }
{
    check_codes(rt, view, text.as_bytes());
}

// The places under 0, 1, 2, .. of the text, up to its end.
pub fn check_under<V: View>(rt: &impl Abort, view: &V, places: &[u32])
    requires { V.Meaning.sound view.now }
{
    let len = view.len();
    assert_eq!(rt; len as usize + 1, places.len());
    for (u, place) in (0..len + 1).zip(places) {
        assert_eq!(rt; view.under(u).ok(), Some(*place));
    }
    assert_eq!(rt;
        view.under(len + 1).err().map(|fault| Refusal::from(fault)),
        told(1, 0, u64::from(len) + 1)
    );
}
