//! Why a stored chunk is not listed again.
ghost use Rattle.std.specs.Prelude.{◌≡◌};
ghost use Rattle.ing_refusals.specs.RelistFaults.{relist_refusal_of};

use crate::refusal::Refusal;
use std::alloc::{AllocError, AllocFailed};
use thiserror::Error;

/// Why a stored chunk is not listed again.
#[derive(Clone, Copy, Debug, PartialEq, Eq, Error)]
pub enum RelistFault {
    /// Memory ran out.
    #[error("out of memory")]
    NoMemory,
    /// The store failed where it was asked for the object of this key.
    #[error("the store failed")]
    Failed { key: [u8; 32] },
    /// The store has not the bytes that it was given under this key.
    #[error("a stored object is damaged")]
    Damaged { key: [u8; 32] },
    /// The store has no object of this key.
    #[error("a stored object is missing")]
    Missing { key: [u8; 32] },
    /// What the store has under this key is not the chunk that is listed.
    #[error("a stored object is not the chunk that is listed")]
    BadObject { key: [u8; 32] },
}

impl RelistFault {
    /// Which refusal it is: `BadObject` where the object is missing, else the one of its name. Takes no memory.
    pub fn refusal(&self) -> Refusal
        ensures { result ≡ relist_refusal_of self.now }
    {
        match self {
            RelistFault::NoMemory => Refusal::NoMemory,
            RelistFault::Failed { .. } => Refusal::Failed,
            RelistFault::Damaged { .. } => Refusal::Damaged,
            RelistFault::Missing { .. } | RelistFault::BadObject { .. } => Refusal::BadObject,
        }
    }
}

impl From<AllocError> for RelistFault {
    ghost use Rattle.std.specs.Prelude.{◌≡◌};
    ghost use Rattle.ing_refusals.specs.declared.relist_fault.RelistFault.TheVariants.{NoMemory};

    ghost from_gives = { λ _ fault. fault ≡ NoMemory };

    fn from(_: AllocError) -> Self {
        Self::NoMemory
    }
}

impl<T: Drop> From<AllocFailed<T>> for RelistFault {
    ghost use Rattle.std.specs.Prelude.{◌≡◌};
    ghost use Rattle.ing_refusals.specs.declared.relist_fault.RelistFault.TheVariants.{NoMemory};

    ghost from_gives = { λ _ fault. fault ≡ NoMemory };

    fn from(_: AllocFailed<T>) -> Self {
        Self::NoMemory
    }
}
