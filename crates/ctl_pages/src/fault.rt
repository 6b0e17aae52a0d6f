//! Why a line is no answer to a query.
use std::alloc::{AllocError, AllocFailed};

/// Why a line is no answer to a query (own).
#[derive(Clone, Copy, Debug, PartialEq, Eq)]
pub enum ReplyFault {
    /// Memory ran out.
    NoMemory,
    /// It is none.
    NoAnswer,
}

impl From<AllocError> for ReplyFault {
    ghost use Rattle.std.specs.Prelude.{◌≡◌};
    ghost use Rattle.ctl_pages.specs.declared.fault.ReplyFault.TheVariants.{NoMemory};

    ghost from_gives = { λ _ fault. fault ≡ NoMemory };

    fn from(_error: AllocError) -> ReplyFault {
        ReplyFault::NoMemory
    }
}

impl<T: Drop> From<AllocFailed<T>> for ReplyFault {
    ghost use Rattle.std.specs.Prelude.{◌≡◌};
    ghost use Rattle.ctl_pages.specs.declared.fault.ReplyFault.TheVariants.{NoMemory};

    ghost from_gives = { λ _ fault. fault ≡ NoMemory };

    fn from(_error: AllocFailed<T>) -> ReplyFault {
        ReplyFault::NoMemory
    }
}
