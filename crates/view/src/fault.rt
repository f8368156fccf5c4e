// What a view refuses, and what a host is told of it.
ghost use Rattle.std.specs.Prelude.{◌≡◌};
ghost use Rattle.view.specs.Refusals.{view_refusal, meant_for, deeper};
ghost use Rattle.view.specs.declared.fault.ViewFault.{ViewFault as Found};
ghost use Rattle.view.specs.declared.fault.Cause.TheVariants.{Buffer as FromBuffer};

use buffer::fault::{BufferFault, Refusal};
use thiserror::Error;

// Why a view refuses a call, at the layer where it arose.
#[derive(Clone, Copy, PartialEq, Eq, Debug, Error)]
pub enum Cause {
    // what the buffer refuses
    #[error("{0}")]
    Buffer(BufferFault),
    // a place past the end
    #[error("no place {place}")]
    PastEnd { place: u32 },
    // an order to a layer below the last one, so many steps down
    #[error("no layer {steps} steps down")]
    NoLayer { steps: u32 },
    // a verb that the layer does not have
    #[error("no verb {verb}")]
    OtherVerb { verb: char },
    // a length, a width or a pair of places that the layer does not take
    #[error("{value} is out of range")]
    OutOfRange { value: u64 },
    // a code that may not be shown, by its index among those that were handed
    #[error("the code at {index} may not be shown")]
    BadCode { index: u64 },
    // a fold on no code or over another fold
    #[error("no fold at {place}: no codes, or folded already")]
    BadFold { place: u32 },
    // no hint or fold there
    #[error("no hint or fold at {place}")]
    NoRecord { place: u32 },
    // as many records kept already as a layer keeps
    #[error("{kept} hints or folds are kept already")]
    TableFull { kept: u32 },
    // a layer that rewrites nothing, since its text could grow too long
    #[error("the layer is asleep")]
    Asleep,
}

// A cause, and how many layers below the view that was called it arose.
#[derive(Clone, Copy, PartialEq, Eq, Debug, Error)]
#[error("{cause}, {layer} layers below")]
pub struct ViewFault {
    pub cause: Cause,
    pub layer: u8,
}

impl From<BufferFault> for ViewFault {
    ghost from_gives = { λ fault found. found ≡ record { cause = FromBuffer fault; layer = 1 } };

    // What a bare view makes of what its buffer refuses: it lies one layer below.
    fn from(fault: BufferFault) -> ViewFault {
        ViewFault {
            cause: Cause::Buffer(fault),
            layer: 1,
        }
    }
}

impl Cause {
    // A cause that arose at the view that was called. Constant time.
    // stays: no From, since `here` says at which layer, and `into` would not
    pub fn here(self) -> ViewFault
        ensures { result ≡ record { cause = self; layer = 0 } }
    {
        ViewFault {
            cause: self,
            layer: 0,
        }
    }
}

impl From<ViewFault> for Refusal {
    ghost from_gives = { λ fault refusal. refusal ≡ view_refusal fault };

    // What a host that called the view is told. Constant time.
    fn from(fault: ViewFault) -> Refusal {
        let (number, spot) = match fault.cause {
            Cause::Buffer(fault) => {
                let told = Refusal::from(fault);
                (told.number, told.spot)
            }
            Cause::PastEnd { place } => (1, u64::from(place)),
            Cause::NoLayer { steps } => (6, u64::from(steps)),
            Cause::OtherVerb { verb } => (7, u64::from(verb)),
            Cause::OutOfRange { value } => (8, value),
            Cause::BadCode { index } => (3, index),
            Cause::BadFold { place } => (10, u64::from(place)),
            Cause::NoRecord { place } => (11, u64::from(place)),
            Cause::TableFull { kept } => (9, u64::from(kept)),
            Cause::Asleep => (12, 0),
        };
        Refusal {
            number,
            layer: fault.layer,
            spot,
        }
    }
}

impl ViewFault {
    // The same as a fault of the view above: one layer deeper, and past 254 no deeper. Constant time.
    pub fn risen(self) -> ViewFault
        ensures { result ≡ deeper self }
    {
        ViewFault {
            cause: self.cause,
            layer: self.layer.saturating_add(1).min(254),
        }
    }

    // The same, where an order for a layer that is not there was meant for the one `k` steps below the view that was
    // called. Constant time.
    pub fn from_above(self, k: u32) -> ViewFault
        ensures { result ≡ meant_for k self }
    {
        match self.cause {
            Cause::NoLayer { steps: _ } => ViewFault {
                cause: Cause::NoLayer { steps: k },
                layer: self.layer,
            },
            _ => self,
        }
    }
}
