//! Why a push is refused as a whole.
ghost use Rattle.std.specs.Prelude.{◌≡◌};
ghost use Rattle.ing_refusals.specs.PushFaults.{push_refusal_of};

use crate::refusal::Refusal;
use std::alloc::AllocError;
use thiserror::Error;

/// Why a push is refused as a whole.
#[derive(Clone, Copy, Debug, PartialEq, Eq, Error)]
pub enum PushFault {
    /// Memory ran out.
    #[error("out of memory")]
    NoMemory,
    /// A count would pass its last value.
    #[error("a counter is full")]
    CounterFull,
    /// More entries than one push of a stream may have.
    #[error("too many entries")]
    TooManyEntries,
}

impl PushFault {
    /// Which refusal it is. Takes no memory.
    pub fn refusal(&self) -> Refusal
        ensures { result ≡ push_refusal_of self.now }
    {
        match self {
            PushFault::NoMemory => Refusal::NoMemory,
            PushFault::CounterFull => Refusal::CounterFull,
            PushFault::TooManyEntries => Refusal::TooManyEntries,
        }
    }
}

impl From<AllocError> for PushFault {
    ghost use Rattle.std.specs.Prelude.{◌≡◌};
    ghost use Rattle.ing_refusals.specs.declared.push_fault.PushFault.TheVariants.{NoMemory};

    ghost from_gives = { λ _ fault. fault ≡ NoMemory };

    fn from(_error: AllocError) -> PushFault {
        PushFault::NoMemory
    }
}
