//! Why a text is no tenant id, or no stamp.
ghost use Rattle.std.specs.Prelude.{◌≡◌};
ghost use Rattle.ing_rows.specs.Faults.{refusal_of};

use ing_refusals::Refusal;
use std::alloc::AllocError;
use thiserror::Error;

/// Why a text or a row is refused.
#[derive(Clone, Copy, Debug, PartialEq, Eq, Error)]
pub enum RowFault {
    /// Memory ran out.
    #[error("out of memory")]
    NoMemory,
    /// The text is no tenant id.
    #[error("no tenant id")]
    BadTenant,
    /// The text is no stamp.
    #[error("no stamp")]
    BadStamp,
}

impl RowFault {
    /// Which refusal it is. Takes no memory.
    pub fn refusal(&self) -> Refusal
        ensures { result ≡ refusal_of self.now }
    {
        match self {
            RowFault::NoMemory => Refusal::NoMemory,
            RowFault::BadTenant => Refusal::BadTenant,
            RowFault::BadStamp => Refusal::BadStamp,
        }
    }
}

impl From<AllocError> for RowFault {
    ghost use Rattle.std.specs.Prelude.{◌≡◌};
    ghost use Rattle.ing_rows.specs.declared.fault.RowFault.TheVariants.{NoMemory};

    ghost from_gives = { λ _ fault. fault ≡ NoMemory };

    fn from(_error: AllocError) -> RowFault {
        RowFault::NoMemory
    }
}
