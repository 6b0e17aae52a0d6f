//! The limits on labels, and why a list of label pairs is refused.
ghost use Rattle.std.specs.Prelude.{◌≡◌};
ghost use Rattle.ing_labels.specs.Faults.{refusal_of, fault_place};

use ing_refusals::Refusal;
use std::alloc::AllocError;
use thiserror::Error;

/// The limits on the labels of one stream. Labels with an empty value do not count.
#[derive(Clone, Copy, Debug, PartialEq, Eq)]
pub struct LabelLimits {
    /// The greatest count of labels.
    pub names: usize,
    /// The greatest length of a name, in bytes.
    pub name_bytes: usize,
    /// The greatest length of a value, in bytes.
    pub value_bytes: usize,
}

/// Why a list of label pairs is refused. `at` is the index of the first pair at fault, in the list
/// as it was given.
#[derive(Clone, Copy, Debug, PartialEq, Eq, Error)]
pub enum LabelFault {
    #[error("out of memory")]
    NoMemory,
    #[error("the name of pair {at} is no label name")]
    BadName { at: usize },
    #[error("pair {at} has the name of an earlier pair")]
    TwiceNamed { at: usize },
    #[error("no label has a value")]
    NoLabels,
    #[error("too many labels")]
    TooMany,
    #[error("the name of pair {at} is too long")]
    NameTooLong { at: usize },
    #[error("the value of pair {at} is too long")]
    ValueTooLong { at: usize },
}

impl LabelFault {
    /// Which refusal the fault is. Takes no memory.
    pub fn refusal(&self) -> Refusal
        ensures { result ≡ refusal_of self.now }
    {
        match self {
            LabelFault::NoMemory => Refusal::NoMemory,
            LabelFault::BadName { .. } => Refusal::BadName,
            LabelFault::TwiceNamed { .. } => Refusal::TwiceNamed,
            LabelFault::NoLabels => Refusal::NoLabels,
            LabelFault::TooMany => Refusal::TooMany,
            LabelFault::NameTooLong { .. } => Refusal::NameTooLong,
            LabelFault::ValueTooLong { .. } => Refusal::ValueTooLong,
        }
    }

    /// The index of the pair at fault, of the four faults that speak of one pair, and else `None`.
    pub fn at(&self) -> Option<usize>
        ensures { result ≡ fault_place self.now }
    {
        match self {
            LabelFault::BadName { at }
            | LabelFault::TwiceNamed { at }
            | LabelFault::NameTooLong { at }
            | LabelFault::ValueTooLong { at } => Some(*at),
            LabelFault::NoMemory | LabelFault::NoLabels | LabelFault::TooMany => None,
        }
    }
}

impl From<AllocError> for LabelFault {
    ghost use Rattle.ing_labels.specs.declared.fault.LabelFault.TheVariants.{NoMemory};

    ghost from_gives = { λ _ e. e ≡ NoMemory };

    fn from(_: AllocError) -> Self {
        Self::NoMemory
    }
}
