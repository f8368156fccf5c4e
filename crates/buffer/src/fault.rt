// What a buffer refuses, and what a host is told of it.
ghost use Rattle.std.specs.Prelude.{◌≡◌};
ghost use Rattle.buffer.specs.Refusals.{refusal_of, edit_refusal, Checks};

use codes::code::document_front;
use thiserror::Error;

// Why a buffer refuses a call.
#[derive(Clone, Copy, PartialEq, Eq, Debug, Error)]
pub enum BufferFault {
    // a place past the end of the document, or fewer codes behind it than an edit takes out
    #[error("place {place} is past the end, or too few codes lie behind it")]
    PastEnd { place: u64 },
    // an edit that takes nothing out and puts nothing in
    #[error("the edit at place {place} takes nothing out and puts nothing in")]
    EmptyEdit { place: u64 },
    // a code that no document holds, by its index among those that were handed
    #[error("no document holds the code at index {index}")]
    BadCode { index: u64 },
    // more codes to put in than the buffer has room for
    #[error("more codes than the spare of {spare}")]
    NoSpare { spare: u64 },
    // more cells handed than a buffer of this kind works in
    #[error("{cells} cells are more than a buffer works in")]
    TooManyCells { cells: u64 },
}

// What a host is told of a refused call: the number of the cause, how many layers below the one that was called it
// arose, and a spot whose meaning goes with the number.
// stays: numbers, since these are what the rules have a host told; inside the library a cause is a case of an enum
#[derive(Clone, Copy, PartialEq, Eq, Debug, Error)]
#[error("number {number}, layer {layer}, spot {spot}")]
pub struct Refusal {
    pub number: u8,
    pub layer: u8,
    pub spot: u64,
}

impl From<BufferFault> for Refusal {
    ghost from_gives = { λ fault refusal. refusal ≡ refusal_of fault };

    // What a host that called the buffer itself is told. Constant time.
    fn from(fault: BufferFault) -> Refusal {
        let (number, spot) = match fault {
            BufferFault::PastEnd { place } => (1, place),
            BufferFault::EmptyEdit { place } => (2, place),
            BufferFault::BadCode { index } => (3, index),
            BufferFault::NoSpare { spare } => (4, spare),
            BufferFault::TooManyCells { cells } => (13, cells),
        };
        Refusal {
            number,
            layer: 0,
            spot,
        }
    }
}

// Whether a document of `len` codes with room for `spare` more takes `w` in the place of the `r` codes at `a`, or why
// not. One pass over `w`.
pub fn check_edit(len: u32, spare: u32, a: u32, r: u32, w: &[u32]) -> Result<(), BufferFault>
    ensures { Checks (edit_refusal len spare a r w.now) result }
{
    let place = u64::from(a);
    if a > len || r > len - a {
        return Err(BufferFault::PastEnd { place });
    }
    if r == 0 && w.is_empty() {
        return Err(BufferFault::EmptyEdit { place });
    }
    let good = document_front(w);
    if good < w.len() {
        return Err(BufferFault::BadCode { index: good as u64 });
    }
    if w.len() > spare as usize {
        return Err(BufferFault::NoSpare {
            spare: u64::from(spare),
        });
    }
    Ok(())
}
