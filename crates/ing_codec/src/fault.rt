//! Why bytes are refused.
ghost use Rattle.std.specs.Prelude.{◌≡◌};
ghost use Rattle.ing_codec.specs.CodecFaults.{codec_refusal_of, codec_fault_place};

use ing_refusals::Refusal;
use std::alloc::{AllocError, AllocFailed};
use thiserror::Error;

/// Why bytes are no object of the kind that is read: the first fault from front to back. `at` is an offset
/// in bytes from the first byte of the object.
#[derive(Clone, Copy, Debug, PartialEq, Eq, Error)]
pub enum CodecFault {
    /// Memory ran out.
    #[error("out of memory")]
    NoMemory,
    /// A field passes the end.
    #[error("the bytes end within a field")]
    Truncated,
    /// The bytes do not begin with the four letters of the kind of object.
    #[error("the bytes begin as no object of this kind does")]
    BadMagic,
    /// The version is not the one that is expected.
    #[error("the version is not known")]
    BadVersion,
    /// A field has a value that it may not have. For a number `at` is its first byte, for a text the first
    /// byte after its length.
    #[error("a bad value, at byte {at}")]
    BadField { at: usize },
    /// An entry is not above the one before it.
    #[error("entries are out of order")]
    OutOfOrder,
    /// Bytes stand after the last field.
    #[error("bytes stand after the last field")]
    Trailing,
}

impl CodecFault {
    /// Which refusal it is. Takes no memory.
    pub fn refusal(&self) -> Refusal
        ensures { result ≡ codec_refusal_of self.now }
    {
        match self {
            CodecFault::NoMemory => Refusal::NoMemory,
            CodecFault::Truncated => Refusal::Truncated,
            CodecFault::BadMagic => Refusal::BadMagic,
            CodecFault::BadVersion => Refusal::BadVersion,
            CodecFault::BadField { .. } => Refusal::BadField,
            CodecFault::OutOfOrder => Refusal::OutOfOrder,
            CodecFault::Trailing => Refusal::Trailing,
        }
    }

    /// The offset of a bad value, in bytes, and `None` for each other fault.
    pub fn at(&self) -> Option<usize>
        ensures { result ≡ codec_fault_place self.now }
    {
        match self {
            CodecFault::BadField { at } => Some(*at),
            _ => None,
        }
    }
}

impl From<AllocError> for CodecFault {
    ghost use Rattle.std.specs.Prelude.{◌≡◌};
    ghost use Rattle.ing_codec.specs.declared.fault.CodecFault.TheVariants.{NoMemory};

    ghost from_gives = { λ _ fault. fault ≡ NoMemory };

    fn from(_: AllocError) -> Self {
        Self::NoMemory
    }
}

impl<T: Drop> From<AllocFailed<T>> for CodecFault {
    ghost use Rattle.std.specs.Prelude.{◌≡◌};
    ghost use Rattle.ing_codec.specs.declared.fault.CodecFault.TheVariants.{NoMemory};

    ghost from_gives = { λ _ fault. fault ≡ NoMemory };

    fn from(_: AllocFailed<T>) -> Self {
        Self::NoMemory
    }
}
