// The worked examples of tab stops and soft wrap, stacks with them, and refusals of their orders.
use crate::checks::{change, check_shown, check_under, refusal, told, written};
use buffer::buffer::Buffer;
use buffer::fault::Refusal;
use buffer::fixed_buffer::FixedBuffer;
use buffer::gap_buffer::{GapBuffer, try_open};
use layer::layer::Layer;
use layers::folds::Folds;
use layers::hints::Hints;
use linewise::tabs::Tabs;
use linewise::wrap::Wrap;
use places::change::Change;
use std::process::Abort;
use std::test::Fail;
use view::bare::Bare;
use view::kind::Kind;
use view::order::Order;
use view::view::View;

type Tabbed = Layer<Bare<FixedBuffer>, Tabs>;

type Wrapped = Layer<Bare<FixedBuffer>, Wrap>;

type Both = Layer<Tabbed, Wrap>;

// All four kinds, with soft wrap on top and with hints on top.
type WrapOnTop = Layer<Layer<Layer<Layer<Bare<FixedBuffer>, Hints>, Folds>, Tabs>, Wrap>;

type HintsOnTop = Layer<Layer<Layer<Tabbed, Folds>, Wrap>, Hints>;

// Three layers of tab stops over a gap buffer, of which the third is asleep, and three of soft wrap over them, likewise.
type ThreeTabbed<'a> = Layer<Layer<Layer<Bare<GapBuffer<'a>>, Tabs>, Tabs>, Tabs>;

type ThreeWrapped<'a> = Layer<Layer<Layer<ThreeTabbed<'a>, Wrap>, Wrap>, Wrap>;

fn stops(width: u32) -> Order {
    Order {
        verb: 't',
        x: width,
        y: 0,
    }
}

fn rows(width: u32) -> Order {
    Order {
        verb: 'w',
        x: width,
        y: 0,
    }
}

const HINT: Order = Order {
    verb: 'i',
    x: 2,
    y: 0,
};

const FOLD: Order = Order {
    verb: 'f',
    x: 4,
    y: 6,
};

#[test]
fn a_tab(rt: HostRuntime) {
    let mut view = Tabbed::open(written("ab\tc"));
    check_shown(&rt, &view, "ab      c");
    assert_eq!(rt; view.order(0, stops(4), &[]).ok(), change(0, 9, 5));
    check_shown(&rt, &view, "ab  c");
    check_under(&rt, &view, &[0, 1, 2, 2, 3, 4]);
    assert_eq!(rt; view.first(3).ok(), Some(4));
    assert_eq!(rt; view.last(2).ok(), Some(3));
}

// An edit of two lines under tab stops by 4: the change, from the first place over the edit to the end of its line, and
// the text.
fn edited_tabs(rt: &impl Abort, a: u32, r: u32, w: &[u32], to: Option<Change>, text: &str) {
    let mut view = Tabbed::open(written("ab\tc\nd\te"));
    assert_eq!(rt; view.order(0, stops(4), &[]).ok(), change(0, 19, 11));
    check_shown(rt, &view, "ab  c\nd   e");
    assert_eq!(rt; view.edit(a, r, w).ok(), to);
    check_shown(rt, &view, text);
}

#[test]
fn typing_before_a_tab(rt: HostRuntime) {
    edited_tabs(&rt, 1, 0, &[120], change(1, 4, 4), "axb c\nd   e");
    edited_tabs(&rt, 6, 0, &[120], change(7, 4, 4), "ab  c\ndx  e");
    edited_tabs(&rt, 3, 0, &[10], change(4, 1, 2), "ab  \nc\nd   e");
    edited_tabs(&rt, 4, 1, &[], change(5, 6, 4), "ab  cd  e");
}

// A document, and how it is shown in rows of 10.
fn wrapped(rt: &impl Abort, document: &str, text: &str) {
    let mut view = Wrapped::open(written(document));
    check_shown(rt, &view, document);
    assert!(rt; view.order(0, rows(10), &[]).is_ok());
    check_shown(rt, &view, text);
}

#[test]
fn rows_of_ten(rt: HostRuntime) {
    wrapped(&rt, "abcdefghij", "abcdefghij");
    wrapped(&rt, "abcdefghijk", "abcdefghij|k");
    wrapped(&rt, "abcdefghij k\nl", "abcdefghij| k\nl");
    wrapped(
        &rt,
        "the quick brown fox jumps",
        "the quick |brown fox |jumps",
    );
}

// Both sides of a soft break lie at one place, and an edit behind it is a change from the start of the line.
#[test]
fn a_soft_break(rt: HostRuntime) {
    let mut view = Wrapped::open(written("o\nabcdefghijk"));
    assert_eq!(rt; view.order(0, rows(10), &[]).ok(), change(0, 13, 14));
    check_under(
        &rt,
        &view,
        &[0, 1, 2, 3, 4, 5, 6, 7, 8, 9, 10, 11, 12, 12, 13],
    );
    assert_eq!(rt; view.first(12).ok(), Some(12));
    assert_eq!(rt; view.last(12).ok(), Some(13));
    assert_eq!(rt; view.edit(13, 0, &[32, 108]).ok(), change(2, 12, 14));
    check_shown(&rt, &view, "o\nabcdefghij|k l");
}

// A wrapped line with a tab, an order, and how it is refused, with nothing changed.
fn refused(rt: &impl Abort, k: u32, order: Order, to: Option<Refusal>) {
    let mut view = Both::open(written("a\tb"));
    assert_eq!(rt; refusal(view.order(k, order, &[])), to);
    check_shown(rt, &view, "a       b");
}

#[test]
fn width_refusals(rt: HostRuntime) {
    refused(&rt, 1, stops(0), told(8, 1, 0));
    refused(&rt, 1, stops(17), told(8, 1, 17));
    refused(&rt, 0, rows(1), told(8, 0, 1));
    refused(&rt, 0, rows(1025), told(8, 0, 1025));
    refused(&rt, 0, stops(4), told(7, 0, 116));
    refused(&rt, 1, rows(4), told(7, 1, 119));
    refused(&rt, 2, rows(4), told(6, 2, 2));
}

// The least and the greatest widths.
#[test]
fn widths(rt: HostRuntime) {
    let mut view = Both::open(written("a\tb"));
    assert_eq!(rt; view.order(0, rows(2), &[]).ok(), change(0, 9, 13));
    check_shown(&rt, &view, "a |  |  |  |b");
    assert_eq!(rt; view.order(1, stops(1), &[]).ok(), change(0, 13, 4));
    check_shown(&rt, &view, "a |b");
    assert_eq!(rt; view.order(0, rows(1024), &[]).ok(), change(0, 4, 3));
    assert_eq!(rt; view.order(1, stops(16), &[]).ok(), change(0, 3, 17));
}

// The tab of a hint reaches to a stop, and what a fold shows is wrapped.
#[test]
fn soft_wrap_on_top(rt: HostRuntime) {
    let mut view = WrapOnTop::open(written("ab\tcdef ghijk\nlm"));
    assert_eq!(rt; view.order(3, HINT, &[122, 9]).ok(), change(0, 18, 26));
    assert_eq!(rt; view.order(2, FOLD, &[]).ok(), change(0, 26, 25));
    assert_eq!(rt; view.order(1, stops(4), &[]).ok(), change(0, 28, 20));
    assert_eq!(rt; view.order(0, rows(6), &[]).ok(), change(0, 20, 22));
    check_shown(&rt, &view, "abz   |  c~f |ghijk\nlm");
    check_under(
        &rt,
        &view,
        &[
            0, 1, 2, 2, 2, 2, 2, 2, 2, 3, 4, 6, 7, 8, 8, 9, 10, 11, 12, 13, 14, 15, 16,
        ],
    );
    assert_eq!(rt; view.edit(0, 0, &[113]).ok(), change(0, 19, 24));
    check_shown(&rt, &view, "qabz  |      |c~f |ghijk\nlm");
}

// The tab of a hint stays as it is. An edit in front of it in its line shows the line anew from there on, so that the fold
// and the hint are dropped.
#[test]
fn hints_on_top(rt: HostRuntime) {
    let mut view = HintsOnTop::open(written("ab\tcdef ghijk\nlm"));
    assert_eq!(rt; view.order(3, stops(4), &[]).ok(), change(0, 21, 17));
    assert_eq!(rt; view.order(2, FOLD, &[]).ok(), change(0, 14, 13));
    assert_eq!(rt; view.order(1, rows(6), &[]).ok(), change(0, 16, 18));
    assert_eq!(rt; view.order(0, HINT, &[122, 9]).ok(), change(2, 0, 2));
    check_shown(&rt, &view, "abz\t  |c~f |ghijk\nlm");
    check_under(
        &rt,
        &view,
        &[
            0, 1, 2, 2, 2, 2, 3, 3, 4, 6, 7, 8, 8, 9, 10, 11, 12, 13, 14, 15, 16,
        ],
    );
    assert_eq!(rt; view.edit(0, 0, &[113]).ok(), change(0, 17, 16));
    check_shown(&rt, &view, "qab |cdef |ghijk\nlm");
}

// The upper layer wraps the rows of the lower one.
#[test]
fn soft_wrap_over_soft_wrap(rt: HostRuntime) {
    let mut view = Layer::<Wrapped, Wrap>::open(written("abcdefghijk lm"));
    assert_eq!(rt; view.order(1, rows(10), &[]).ok(), change(0, 14, 15));
    assert_eq!(rt; view.order(0, rows(4), &[]).ok(), change(0, 15, 17));
    check_shown(&rt, &view, "abcd|efgh|ij|k lm");
    check_under(
        &rt,
        &view,
        &[0, 1, 2, 3, 4, 4, 5, 6, 7, 8, 8, 9, 10, 10, 11, 12, 13, 14],
    );
    assert_eq!(rt; view.edit(13, 0, &[113]).ok(), change(0, 17, 19));
    check_shown(&rt, &view, "abcd|efgh|ij|k |lqm");
}

// A ceiling of 268,435,456 is too high for more tab stops, one of 1,073,741,824 for more soft wrap.
#[test]
fn asleep(rt: HostRuntime) -> Result<(), Fail> {
    let mut cells = [97, 9, 98, 0];
    let mut view = ThreeWrapped::open(try_open(&mut cells, 3)?);
    assert_eq!(rt; view.ceiling(), 1_073_741_824);
    assert_eq!(rt; refusal(view.order(0, rows(1), &[])), told(12, 0, 0));
    assert_eq!(rt; view.order(1, rows(4), &[]).ok(), change(0, 9, 11));
    assert_eq!(rt; refusal(view.order(3, stops(0), &[])), told(12, 3, 0));
    assert_eq!(rt; refusal(view.order(3, rows(4), &[])), told(7, 3, 119));
    assert_eq!(rt; view.order(5, stops(4), &[]).ok(), change(0, 11, 6));
    check_shown(&rt, &view, "a   |b");
    assert_eq!(rt; view.edit(0, 0, &[120]).ok(), change(0, 6, 6));
    check_shown(&rt, &view, "xa  |b");
    Ok(())
}
