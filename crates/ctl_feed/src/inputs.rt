//! Inputs made into push commands, line by line.
ghost use Rattle.std.specs.Prelude.{◌≡◌, ◌≤◌, Ok, Err, Some, None, IfSome, OnOk, List, ℕ};
ghost use Rattle.std.specs.Prelude.{Option, [], ◌∷◌, length};
ghost use Rattle.std.specs.Io.KnownBytes.{Appends};
ghost use Rattle.ctl_feed.specs.Feeds.{Feeds};
ghost use Rattle.ctl_feed.specs.Inputs.{Loads, LoadsAll, LoadsUntil};
ghost use Rattle.ctl_feed.specs.Lines.{with_feed};
ghost use Rattle.ctl_feed.specs.Loads.{entry_of};
ghost use Rattle.ctl_feed.specs.declared.load_fault.LoadFault.{LoadFault};
ghost use Rattle.ctl_feed.specs.Readings.{read_by};

use crate::lines::{LineError, NextLine, next_line};
use crate::load_fault::LoadFault;
use crate::loader::Loader;
use crate::reading::Reading;
use crate::size::MAX_BYTES;
use std::alloc::{AllocError, Global};
use std::io::{BufRead, Write};

/// How far an input was loaded.
#[derive(Clone, Copy, Debug, PartialEq, Eq)]
pub enum Loaded {
    /// To its end.
    All,
    /// Up to a line that no command can have. Its number is counted from 1 in this call.
    Refused { line: u64, fault: LoadFault },
}

/// Why an input is not read on.
#[derive(Clone, Copy, Debug, PartialEq, Eq)]
pub enum FeedEnding {
    /// Memory ran out.
    NoMemory,
    /// A read failed, or 2^64-2 lines were read.
    InputFault,
    /// A write failed.
    OutputFault,
}

impl From<AllocError> for FeedEnding {
    ghost use Rattle.std.specs.Prelude.{◌≡◌};
    ghost use Rattle.ctl_feed.specs.declared.inputs.FeedEnding.TheVariants.{NoMemory};

    ghost from_gives = { λ _ e. e ≡ NoMemory };

    fn from(_error: AllocError) -> FeedEnding {
        FeedEnding::NoMemory
    }
}

impl From<LineError> for FeedEnding {
    fn from(error: LineError) -> FeedEnding {
        match error {
            LineError::ReadFailed => FeedEnding::InputFault,
            LineError::NoMemory => FeedEnding::NoMemory,
        }
    }
}

/// Takes the lines of an input, as `Loader::take` does, with the texts and times that `reading` says, and
/// writes each command that is full as a line. What does not fill a command waits in the loader, for a
/// further input or for `load_rest`. At a line that no command can have it stops: all lines before it are
/// taken, and a further call goes on behind it. No more than `MAX_BYTES` of a line and one are kept in memory.
///
/// `InputFault` where a read failed, or there are 2^64-2 lines, or one takes as many reads; `OutputFault`
/// where a write failed; `NoMemory`. Then entries may be lost, and the last line that was written may be cut.
/// (Own.)
pub fn load_input<R: BufRead, W: Write>(
    alloc: Global,
    reader: &mut R,
    writer: &mut W,
    loader: &mut Loader,
    reading: &Reading,
) -> Result<Loaded, FeedEnding>
    ensures all { result ≡ Ok Loaded.All → IfSome (R.remaining reader.old) (λ input.
        LoadsAll (read_by reading.now) loader.old loader.new input (R.remaining reader.new)
        (W.contents writer.old) (W.contents writer.new)) }
    ensures refused { (line : ℕ) (fault : LoadFault) → result ≡ Ok (Loaded.Refused line fault)
        → IfSome (R.remaining reader.old) (λ input.
        LoadsUntil (read_by reading.now) loader.old loader.new input (R.remaining reader.new)
        (W.contents writer.old) (W.contents writer.new) line fault) }
{
    let mut line = Vec::new(alloc);
    for number in 1..u64::MAX {
        match next_line(reader, &mut line, MAX_BYTES + 1)? {
            NextLine::End => return Ok(Loaded::All),
            NextLine::TooLong => {
                return Ok(Loaded::Refused {
                    line: number,
                    fault: LoadFault::TooLong,
                });
            }
            NextLine::Line => {
                if let Some(fault) = load_line(alloc, writer, loader, &line, reading)? {
                    return Ok(Loaded::Refused {
                        line: number,
                        fault,
                    });
                }
            }
        }
    }
    Err(FeedEnding::InputFault)
}

/// Writes the command of the entries that wait as a line, if there are any. None waits then. (Own.)
pub fn load_rest<W: Write>(
    alloc: Global,
    writer: &mut W,
    loader: &mut Loader,
) -> Result<(), FeedEnding>
    ensures none_waits { OnOk result (loader.new.entries ≡ []) }
    ensures written { (read : List ℕ → Option ℕ × List ℕ) → OnOk result
        (Loads read loader.old loader.new [] (W.contents writer.old) (W.contents writer.new)) }
    ensures fed { (most : ℕ) → length loader.old.entries ≤ most → OnOk result
        (Feeds most loader.old loader.new [] (W.contents writer.old) (W.contents writer.new)) }
{
    match loader.finish(alloc)? {
        Some(command) => put(writer, command),
        None => Ok(()),
    }
}

/// Writes a command as a line.
pub(crate) fn put<W: Write>(writer: &mut W, command: Vec<u8>) -> Result<(), FeedEnding>
    ensures { OnOk result (Appends (W.contents writer.old) (W.contents writer.new)
        (with_feed command.items)) }
{
    let mut line = command;
    line.push(b'\n').map_err(AllocError::from)?;
    match writer.write_all(&line) {
        Ok(()) => Ok(()),
        Err(_) => Err(FeedEnding::OutputFault),
    }
}

/// Takes one line, and writes the command that is full, if there is one. Gives why the line is refused, if it
/// is.
fn load_line<W: Write>(
    alloc: Global,
    writer: &mut W,
    loader: &mut Loader,
    line: &[u8],
    reading: &Reading,
) -> Result<Option<LoadFault>, FeedEnding>
    ensures taken { result ≡ Ok None → Loads (read_by reading.now) loader.old loader.new (line.now ∷ [])
        (W.contents writer.old) (W.contents writer.new) }
    ensures refused { (fault : LoadFault) → result ≡ Ok (Some fault)
        → (entry_of loader.old (read_by reading.now line.now).0 (read_by reading.now line.now).1 ≡ Err fault)
        × (loader.new ≡ loader.old) × (W.contents writer.new ≡ W.contents writer.old) }
{
    let text = reading.text_of(line);
    let time = reading.stamps.time_of(alloc, text)?;
    match loader.take(alloc, text, time) {
        Ok(None) => Ok(None),
        Ok(Some(command)) => {
            put(writer, command)?;
            Ok(None)
        }
        Err(LoadFault::NoMemory) => Err(FeedEnding::NoMemory),
        Err(fault) => Ok(Some(fault)),
    }
}
