//! What is told of a line of input.
ghost use Rattle.std.specs.Prelude.{◌≡◌, is_some};
ghost use Rattle.std.specs.List.{list_any};

use crate::member::Member;
use crate::stream::StreamFault;
use ing_commands::LineFault;
use ing_labels::TextFault;
use serde_json::Error;
use std::fmt;

/// Why a line is refused as a whole (own).
#[derive(Debug, Drop)]
pub enum Cause {
    /// It has more than 16777216 bytes, its line feed not counted.
    Length,
    /// It is no JSON in UTF-8: what the reader of JSON says, with line and column, which no clause speaks of.
    Json(Error),
    /// This member by itself has the fault; of several it is the first, which no clause says.
    Member(Member),
}

/// What is told of a line of input (own). What depends on what is held is not told: verdicts,
/// `CounterFull`, and for a query `StoreFault` and `BadObject`.
#[derive(Debug, Drop)]
pub enum Explained {
    /// It has spaces, tabs and carriage returns alone, and is skipped.
    Skipped,
    /// It is refused as a whole.
    Line(LineFault, Cause),
    /// It is a push; for each stream, in order, why it is refused, and `None` where it is not.
    Push(Vec<Option<StreamFault>>),
    /// It is a query, or a question for a catalog with a selector; why this is refused, and `None` where it is not.
    Query(Option<TextFault>),
    /// It is another command, which is taken.
    Taken,
}

impl Explained {
    ghost use Rattle.ctl_explain.specs.Explanations.{is_refused};

    /// Whether the line, a stream of it or its selector is refused. Takes no memory.
    pub fn is_refused(&self) -> bool
        ensures { result ≡ is_refused self.now }
    {
        match self {
            Explained::Skipped | Explained::Taken => false,
            Explained::Line(..) => true,
            Explained::Push(faults) => is_any_refused(faults),
            Explained::Query(fault) => fault.is_some(),
        }
    }
}

/// Whether a stream is refused.
fn is_any_refused(faults: &[Option<StreamFault>]) -> bool
    ensures { result ≡ list_any is_some faults.now }
{
    faults.iter().any(|fault| fault.is_some())
}

/// As `more than 16777216 bytes`, `EOF while parsing at line 1 column 12` or `value 7 of stream 2`.
impl fmt::Display for Cause {
    fn fmt<W: fmt::Write>(&self, f: &mut fmt::Formatter<W>) -> fmt::Result {
        match self {
            Cause::Length => f.write_str("more than 16777216 bytes"),
            Cause::Json(error) => write!(f, "{error}"),
            Cause::Member(member) => write!(f, "{member}"),
        }
    }
}

/// Each refusal by its number and its name, and where it is; nothing where none is. As `33 BadCommand:
/// tenant`, `stream 0: 1 BadName, label 2; stream 3: 32 TooManyEntries` or `8 BadSelector, byte 4 of
/// query`.
impl fmt::Display for Explained {
    fn fmt<W: fmt::Write>(&self, f: &mut fmt::Formatter<W>) -> fmt::Result {
        match self {
            Explained::Skipped | Explained::Taken => Ok(()),
            Explained::Line(fault, cause) => {
                let number = fault.refusal().number();
                let name = fault.refusal().name();
                write!(f, "{number} {name}: {cause}")
            }
            Explained::Push(faults) => write_streams(f, faults),
            Explained::Query(Some(fault)) => write_text_fault(f, fault),
            Explained::Query(None) => Ok(()),
        }
    }
}

/// The refused streams of a push, counted from 0.
fn write_streams<W: fmt::Write>(
    f: &mut fmt::Formatter<W>,
    faults: &[Option<StreamFault>],
) -> fmt::Result {
    let mut apart = "";
    for (stream, fault) in faults.iter().enumerate() {
        if let Some(fault) = fault {
            write!(f, "{apart}stream {stream}: {fault}")?;
            apart = "; ";
        }
    }
    Ok(())
}

/// Why the selector of a query is refused, and the byte of its text from which it is none.
fn write_text_fault<W: fmt::Write>(f: &mut fmt::Formatter<W>, fault: &TextFault) -> fmt::Result {
    let number = fault.refusal().number();
    let name = fault.refusal().name();
    write!(f, "{number} {name}")?;
    match fault.at() {
        Some(at) => write!(f, ", byte {at} of query"),
        None => Ok(()),
    }
}
