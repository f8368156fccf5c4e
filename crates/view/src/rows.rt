// Handing out a row of a view's text.
ghost use Rattle.std.specs.Prelude.{◌≡◌};
ghost use Rattle.view.specs.Seen.{text_at};
ghost use Rattle.view.specs.Rows.{HandsRow};
ghost use Rattle.view.specs.declared.rows.RowFault.TheVariants.{View, NoMemory};

use crate::fault::{Cause, ViewFault};
use crate::view::View;
use codes::code::is_row_end;
use std::alloc::{AllocFailed, Global};
use thiserror::Error;

// Why a row is not handed out.
// stays: beside the like enum of `document::stretch`; one generic enum would still need a `From` for each fault
#[derive(Clone, Copy, PartialEq, Eq, Debug, Error)]
pub enum RowFault {
    #[error("{0}")]
    View(ViewFault),
    #[error("no memory for a row")]
    NoMemory,
}

impl From<ViewFault> for RowFault {
    ghost from_gives = { λ found fault. fault ≡ View found };

    fn from(fault: ViewFault) -> RowFault {
        RowFault::View(fault)
    }
}

impl<T: Drop> From<AllocFailed<T>> for RowFault {
    ghost from_gives = { λ _ fault. fault ≡ NoMemory };

    fn from(_unkept: AllocFailed<T>) -> RowFault {
        RowFault::NoMemory
    }
}

// The codes of the text from the place `u` up to the next row end, or to the end of the text; a place past the end is
// refused with 1, spot `u`. Costs one question for each code handed out.
pub fn row_from<V: View>(heap: Global, view: &V, u: u32) -> Result<Vec<u32>, RowFault>
    requires { V.Meaning.sound view.now }
    ensures { HandsRow (text_at V.Meaning view.now) u result }
{
    let len = view.len();
    if u > len {
        return Err(Cause::PastEnd { place: u }.here().into());
    }
    let mut row = Vec::new(heap);
    // stays: a chain with two `?` and an early end is no plainer
    for i in u..len {
        let code = view.code(i)?;
        if is_row_end(code) {
            return Ok(row);
        }
        row.push(code)?;
    }
    Ok(row)
}
