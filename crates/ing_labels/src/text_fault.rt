//! Why a text is refused.
ghost use Rattle.std.specs.Prelude.{◌≡◌};
ghost use Rattle.ing_labels.specs.TextFaults.{text_refusal_of, text_fault_place};

use ing_refusals::Refusal;
use std::alloc::AllocError;
use thiserror::Error;

/// Why a text is no canonical name, or no selector that may be used. `at` is the length, in bytes, of
/// the longest front of the text with which some text of the kind begins.
#[derive(Clone, Copy, Debug, PartialEq, Eq, Error)]
pub enum TextFault {
    /// Memory ran out.
    #[error("out of memory")]
    NoMemory,
    /// The text is no canonical name.
    #[error("no canonical name, from byte {at} on")]
    NotCanonical { at: usize },
    /// The text is no selector.
    #[error("no selector, from byte {at} on")]
    BadSelector { at: usize },
    /// The text is a selector that picks all streams, or all but a few.
    #[error("no matcher asks for one value that is not empty")]
    TooWide,
}

impl TextFault {
    /// Which refusal the fault is. Takes no memory.
    pub fn refusal(&self) -> Refusal
        ensures { result ≡ text_refusal_of self.now }
    {
        match self {
            TextFault::NoMemory => Refusal::NoMemory,
            TextFault::NotCanonical { .. } => Refusal::NotCanonical,
            TextFault::BadSelector { .. } => Refusal::BadSelector,
            TextFault::TooWide => Refusal::TooWide,
        }
    }

    /// The place in the text, in bytes, of the two faults that speak of one, and else `None`.
    pub fn at(&self) -> Option<usize>
        ensures { result ≡ text_fault_place self.now }
    {
        match self {
            TextFault::NotCanonical { at } | TextFault::BadSelector { at } => Some(*at),
            TextFault::NoMemory | TextFault::TooWide => None,
        }
    }
}

impl From<AllocError> for TextFault {
    ghost use Rattle.ing_labels.specs.declared.text_fault.TextFault.TheVariants.{NoMemory};

    ghost from_gives = { λ _ e. e ≡ NoMemory };

    fn from(_: AllocError) -> Self {
        Self::NoMemory
    }
}
