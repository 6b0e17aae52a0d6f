//! The bytes of a file, read as what they are.
ghost use Rattle.std.specs.Prelude.{◌≡◌};
ghost use Rattle.ctl_show.specs.Shows as shows;
ghost use Rattle.ctl_show.specs.Shows.{Shows};

use ing_codec::{CodecFault, IndexRow, StoredChunk, decode_chunk, decode_row};
use ing_logged::{Found, LogReadFault, read_logged};
use std::alloc::Global;
use thiserror::Error;

/// What the bytes of a file are (own).
#[derive(Clone, Copy, Debug, PartialEq, Eq)]
pub enum Kind {
    /// A stored chunk: they begin with `INGC`.
    Chunk,
    /// An index row: they begin with `INGR`.
    Row,
    /// A log: they begin otherwise, or are none.
    Log,
}

/// What stands in a file (own).
#[derive(Debug, Drop)]
pub enum Shown<'a> {
    /// A chunk.
    Chunk(StoredChunk),
    /// An index row.
    Row(IndexRow),
    /// What the records of a log say, and the first bytes of one that was cut off.
    Log(Found<'a>),
}

/// Why a file is none of what it begins as (own).
#[derive(Clone, Copy, Debug, PartialEq, Eq, Error)]
pub enum ShowFault {
    /// The bytes of a chunk or a row have a fault.
    #[error("{0}")]
    Object(CodecFault),
    /// The text of a log has one.
    #[error("{0}")]
    Log(LogReadFault),
}

impl From<CodecFault> for ShowFault {
    ghost use Rattle.std.specs.Prelude.{◌≡◌};
    ghost use Rattle.ctl_show.specs.declared.shown.ShowFault.TheVariants.{Object};

    ghost from_gives = { λ fault given. given ≡ Object fault };

    fn from(fault: CodecFault) -> Self {
        Self::Object(fault)
    }
}

impl From<LogReadFault> for ShowFault {
    ghost use Rattle.std.specs.Prelude.{◌≡◌};
    ghost use Rattle.ctl_show.specs.declared.shown.ShowFault.TheVariants.{Log};

    ghost from_gives = { λ fault given. given ≡ Log fault };

    fn from(fault: LogReadFault) -> Self {
        Self::Log(fault)
    }
}

/// What bytes are, by the letters that they begin with. Takes no memory. (Own.)
pub fn kind_of(bytes: &[u8]) -> Kind
    ensures { result ≡ shows.kind_of bytes.now }
{
    if bytes.starts_with(b"INGC") {
        Kind::Chunk
    } else if bytes.starts_with(b"INGR") {
        Kind::Row
    } else {
        Kind::Log
    }
}

/// What stands in the bytes of a file: by the letters that they begin with what `decode_chunk`, `decode_row` or `read_logged` gives,
/// or its first fault. (Own.)
pub fn show<'a>(alloc: Global, bytes: &'a [u8]) -> Result<Shown<'a>, ShowFault>
    ensures { Shows bytes.now (shows.kind_of bytes.now) result }
{
    Ok(match kind_of(bytes) {
        Kind::Chunk => Shown::Chunk(decode_chunk(alloc, bytes)?),
        Kind::Row => Shown::Row(decode_row(alloc, bytes)?),
        Kind::Log => Shown::Log(read_logged(alloc, bytes)?),
    })
}
