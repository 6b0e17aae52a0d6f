//! Why a line is not loaded.
use std::alloc::{AllocError, AllocFailed};

/// Why a line is not loaded, or no line.
#[derive(Clone, Copy, Debug, PartialEq, Eq)]
pub enum LoadFault {
    /// Memory ran out.
    NoMemory,
    /// The labels, with the tenant, take more than 8,388,608 bytes of a command.
    LabelsTooLong,
    /// The line takes more than 8,388,608 bytes of a command by itself.
    TooLong,
    /// The stamps are used up: the line before has the greatest one, 2^63-1.
    NoStamp,
}

impl From<AllocError> for LoadFault {
    ghost use Rattle.std.specs.Prelude.{◌≡◌};
    ghost use Rattle.ctl_feed.specs.declared.load_fault.LoadFault.TheVariants.{NoMemory};

    ghost from_gives = { λ _ fault. fault ≡ NoMemory };

    fn from(_error: AllocError) -> LoadFault {
        LoadFault::NoMemory
    }
}

impl<T: Drop> From<AllocFailed<T>> for LoadFault {
    ghost use Rattle.std.specs.Prelude.{◌≡◌};
    ghost use Rattle.ctl_feed.specs.declared.load_fault.LoadFault.TheVariants.{NoMemory};

    ghost from_gives = { λ _ fault. fault ≡ NoMemory };

    fn from(_error: AllocFailed<T>) -> LoadFault {
        LoadFault::NoMemory
    }
}
