//! Why a store end does not do what it is asked.
ghost use Rattle.std.specs.Prelude.{◌≡◌};
ghost use Rattle.ing_store.specs.StoreFaults.{store_refusal_of};

use ing_refusals::Refusal;
use std::alloc::{AllocError, AllocFailed};
use thiserror::Error;

/// Why a store end does not do what it is asked.
#[derive(Clone, Copy, Debug, PartialEq, Eq, Error)]
pub enum StoreFault {
    /// Memory ran out.
    #[error("out of memory")]
    NoMemory,
    /// The store failed. Whether it has the object is left open.
    #[error("the store failed")]
    Failed,
    /// The store has not the bytes that it was given.
    #[error("a stored object is damaged")]
    Damaged,
}

impl StoreFault {
    /// Which refusal it is. Takes no memory.
    pub fn refusal(&self) -> Refusal
        ensures { result ≡ store_refusal_of self.now }
    {
        match self {
            StoreFault::NoMemory => Refusal::NoMemory,
            StoreFault::Failed => Refusal::Failed,
            StoreFault::Damaged => Refusal::Damaged,
        }
    }
}

impl From<AllocError> for StoreFault {
    ghost use Rattle.std.specs.Prelude.{◌≡◌};
    ghost use Rattle.ing_store.specs.declared.fault.StoreFault.TheVariants.{NoMemory};

    ghost from_gives = { λ _ fault. fault ≡ NoMemory };

    fn from(_: AllocError) -> Self {
        Self::NoMemory
    }
}

impl<T: Drop> From<AllocFailed<T>> for StoreFault {
    ghost use Rattle.std.specs.Prelude.{◌≡◌};
    ghost use Rattle.ing_store.specs.declared.fault.StoreFault.TheVariants.{NoMemory};

    ghost from_gives = { λ _ fault. fault ≡ NoMemory };

    fn from(_: AllocFailed<T>) -> Self {
        Self::NoMemory
    }
}
