// Handing out the codes of a stretch.
ghost use Rattle.document.specs.Stretches.{Hands};

use buffer::buffer::Buffer;
use buffer::fault::BufferFault;
use std::alloc::{AllocFailed, Global};
use thiserror::Error;

// Why a stretch is not handed out.
// stays: beside the like enum of `view::rows`; one generic enum would still need a `From` for each fault
#[derive(Clone, Copy, PartialEq, Eq, Debug, Error)]
pub enum StretchFault {
    #[error(transparent)]
    Buffer(BufferFault),
    #[error("memory is short")]
    NoMemory,
}

impl From<BufferFault> for StretchFault {
    ghost use Rattle.std.specs.Prelude.{◌≡◌};
    ghost use Rattle.document.specs.declared.stretch.StretchFault.TheVariants.{Buffer as FromBuffer};

    ghost from_gives = { λ fault found. found ≡ FromBuffer fault };

    fn from(fault: BufferFault) -> StretchFault {
        StretchFault::Buffer(fault)
    }
}

impl<T: Drop> From<AllocFailed<T>> for StretchFault {
    ghost use Rattle.std.specs.Prelude.{◌≡◌};
    ghost use Rattle.document.specs.declared.stretch.StretchFault.TheVariants.{NoMemory};

    ghost from_gives = { λ _ fault. fault ≡ NoMemory };

    fn from(_refused: AllocFailed<T>) -> StretchFault {
        StretchFault::NoMemory
    }
}

// The codes of the document from the place `from` up to the place `to`, none where `from` is not in front of `to`;
// a `to` past the end is refused with 1, spot `to`. Costs the codes handed out.
pub fn stretch<B: Buffer>(
    heap: Global,
    buffer: &B,
    from: u32,
    to: u32,
) -> Result<Vec<u32>, StretchFault>
    ensures { Hands (B.Buffer.doc buffer.now) from to result }
{
    if to > buffer.len() {
        return Err(BufferFault::PastEnd {
            place: u64::from(to),
        }
        .into());
    }
    let mut codes = Vec::new(heap);
    // stays: a chain with two `?` is no plainer
    for i in from..to {
        codes.push(buffer.code(i)?)?;
    }
    Ok(codes)
}
