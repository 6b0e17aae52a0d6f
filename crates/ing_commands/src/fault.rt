//! Why a line is refused.
ghost use Rattle.std.specs.Prelude.{◌≡◌};
ghost use Rattle.ing_commands.specs.Faults.{refusal_of};

use ing_refusals::Refusal;
use ing_rows::RowFault;
use std::alloc::{AllocError, AllocFailed};

/// Why a whole line is refused.
#[derive(Clone, Copy, Debug, PartialEq, Eq)]
pub enum LineFault {
    /// Memory ran out.
    NoMemory,
    /// The line is no JSON object in UTF-8 of a known command with its members.
    BadCommand,
    /// A value has a third element.
    Metadata,
    /// The tenant is no tenant id.
    BadTenant,
    /// The time of the command, that of a value, or a bound of a query is no stamp.
    BadStamp,
}

impl LineFault {
    /// Which refusal it is. Takes no memory.
    pub fn refusal(&self) -> Refusal
        ensures { result ≡ refusal_of self.now }
    {
        match self {
            LineFault::NoMemory => Refusal::NoMemory,
            LineFault::BadCommand => Refusal::BadCommand,
            LineFault::Metadata => Refusal::Metadata,
            LineFault::BadTenant => Refusal::BadTenant,
            LineFault::BadStamp => Refusal::BadStamp,
        }
    }
}

impl From<AllocError> for LineFault {
    ghost use Rattle.std.specs.Prelude.{◌≡◌};
    ghost use Rattle.ing_commands.specs.declared.fault.LineFault.TheVariants.{NoMemory};

    ghost from_gives = { λ _ fault. fault ≡ NoMemory };

    fn from(_error: AllocError) -> LineFault {
        LineFault::NoMemory
    }
}

impl<T: Drop> From<AllocFailed<T>> for LineFault {
    ghost use Rattle.std.specs.Prelude.{◌≡◌};
    ghost use Rattle.ing_commands.specs.declared.fault.LineFault.TheVariants.{NoMemory};

    ghost from_gives = { λ _ fault. fault ≡ NoMemory };

    fn from(_error: AllocFailed<T>) -> LineFault {
        LineFault::NoMemory
    }
}

impl From<RowFault> for LineFault {
    ghost use Rattle.std.specs.Prelude.{◌≡◌};
    ghost use Rattle.ing_commands.specs.Faults.{fault_of};

    ghost from_gives = { λ part fault. fault ≡ fault_of part };

    fn from(part: RowFault) -> LineFault {
        match part {
            RowFault::NoMemory => LineFault::NoMemory,
            RowFault::BadTenant => LineFault::BadTenant,
            RowFault::BadStamp => LineFault::BadStamp,
        }
    }
}
