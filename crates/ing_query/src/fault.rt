//! Why a query is not answered.
ghost use Rattle.std.specs.Prelude.{◌≡◌};
ghost use Rattle.ing_query.specs.QueryFaults.{query_refusal_of};

use ing_refusals::Refusal;
use std::alloc::{AllocError, AllocFailed};
use thiserror::Error;

/// Why a query is not answered.
#[derive(Clone, Copy, Debug, PartialEq, Eq, Error)]
pub enum QueryFault {
    /// Memory ran out.
    #[error("out of memory")]
    NoMemory,
    /// The store did not give the object of this key.
    #[error("the store failed")]
    StoreFault { key: [u8; 32] },
    /// What the store gave under this key is not the chunk that is listed.
    #[error("a stored object is damaged")]
    BadObject { key: [u8; 32] },
}

impl QueryFault {
    /// Which refusal it is. Takes no memory.
    pub fn refusal(&self) -> Refusal
        ensures { result ≡ query_refusal_of self.now }
    {
        match self {
            QueryFault::NoMemory => Refusal::NoMemory,
            QueryFault::StoreFault { .. } => Refusal::StoreFault,
            QueryFault::BadObject { .. } => Refusal::BadObject,
        }
    }
}

impl From<AllocError> for QueryFault {
    ghost use Rattle.std.specs.Prelude.{◌≡◌};
    ghost use Rattle.ing_query.specs.declared.fault.QueryFault.TheVariants.{NoMemory};

    ghost from_gives = { λ _ fault. fault ≡ NoMemory };

    fn from(_: AllocError) -> Self {
        Self::NoMemory
    }
}

impl<T: Drop> From<AllocFailed<T>> for QueryFault {
    ghost use Rattle.std.specs.Prelude.{◌≡◌};
    ghost use Rattle.ing_query.specs.declared.fault.QueryFault.TheVariants.{NoMemory};

    ghost from_gives = { λ _ fault. fault ≡ NoMemory };

    fn from(_: AllocFailed<T>) -> Self {
        Self::NoMemory
    }
}
