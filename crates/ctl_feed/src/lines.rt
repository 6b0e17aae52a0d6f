//! Reading an input line by line, with a bound on what is kept of a line.
ghost use Rattle.std.specs.Prelude.{◌≡◌, ◌≤◌, ◌<◌, ◌+◌, ◌==◌, ◌++◌, ◌∷◌, if◌then◌else◌, List, ℕ, length};
ghost use Rattle.std.specs.Prelude.{take, drop};
ghost use Rattle.std.specs.Prelude.{vec_len, IfOk, IfSome, MatchOption};
ghost use Rattle.ctl_feed.specs.Lines.{HasNoFeed, Holds, TakesLine, TakesPart};

use memchr::memchr;
use std::alloc::AllocError;
use std::io::{BufRead, ErrorKind};

/// What is next in an input.
#[derive(Clone, Copy)]
pub(crate) enum NextLine {
    /// A line, which was put into the buffer.
    Line,
    /// A line of more bytes than are kept, which was skipped.
    TooLong,
    /// The end: no further line.
    End,
}

/// Why an input could not be read on.
#[derive(Clone, Copy)]
pub(crate) enum LineError {
    /// The reader failed.
    ReadFailed,
    /// Memory ran out.
    NoMemory,
}

impl From<AllocError> for LineError {
    ghost use Rattle.std.specs.Prelude.{◌≡◌};
    ghost use Rattle.ctl_feed.specs.declared.lines.LineError.TheVariants.{NoMemory};

    ghost from_gives = { λ _ e. e ≡ NoMemory };

    fn from(_error: AllocError) -> LineError {
        LineError::NoMemory
    }
}

/// How far a line has come, and whether it is too long.
#[derive(Clone, Copy)]
enum Part {
    /// Its line feed was found.
    Ended(bool),
    /// All that was at hand belongs to it.
    Open(bool),
    /// The input is at its end.
    AtEnd,
}

/// Takes the next line of an input, without its line feed. A line of more than `most` bytes is skipped, and
/// `line` left empty. A read that a signal interrupted is tried again. `ReadFailed` where the reader failed,
/// or after 2^64-1 reads for one line.
pub(crate) fn next_line<R: BufRead>(
    reader: &mut R,
    line: &mut Vec<u8>,
    most: usize,
) -> Result<NextLine, LineError>
    ensures line { IfOk result (λ next. IfSome (R.remaining reader.old) (λ old.
        TakesLine most old (R.remaining reader.new) line.new.items next)) }
    ensures short { vec_len line.new ≤ most }
{
    line.clear();
    let mut too_long = false;
    for _ in 0..u64::MAX {
        match take_part(reader, line, too_long, most)? {
            Part::Ended(long) => return Ok(found(long)),
            Part::AtEnd => return Ok(at_end(line, too_long)),
            Part::Open(long) => too_long = long,
        }
    }
    Err(LineError::ReadFailed)
}

/// Takes what is at hand of a line, up to and with its line feed.
fn take_part<R: BufRead>(
    reader: &mut R,
    line: &mut Vec<u8>,
    too_long: bool,
    most: usize,
) -> Result<Part, LineError>
    requires { vec_len line.old ≤ most }
    ensures part { IfOk result (TakesPart most (R.remaining reader.old) (R.remaining reader.new)
        too_long line.old.items line.new.items) }
    ensures short { vec_len line.new ≤ most }
{
    let ahead = match reader.fill_buf() {
        Ok(ahead) => ahead,
        Err(error) => {
            return if error.kind() == ErrorKind::Interrupted {
                Ok(Part::Open(too_long))
            } else {
                Err(LineError::ReadFailed)
            };
        }
    };
    if ahead.is_empty() {
        return Ok(Part::AtEnd);
    }
    match feed_at(ahead) {
        Some(index) => {
            let long = add(line, too_long, &ahead[..index], most)?;
            reader.consume(index + 1);
            Ok(Part::Ended(long))
        }
        None => {
            let long = add(line, too_long, ahead, most)?;
            let count = ahead.len();
            reader.consume(count);
            Ok(Part::Open(long))
        }
    }
}

/// Where the first line feed stands.
fn feed_at(bytes: &[u8]) -> Option<usize>
    ensures { MatchOption result (HasNoFeed bytes.now) (λ index. (index < length bytes.now)
        × HasNoFeed (take index bytes.now)
        × (bytes.now ≡ take index bytes.now ++ 10 ∷ drop (index + 1) bytes.now)) }
{
    memchr(b'\n', bytes)
}

/// Adds a part to a line, or drops the line where it has more than `most` bytes. Gives whether it has.
fn add(line: &mut Vec<u8>, too_long: bool, part: &[u8], most: usize) -> Result<bool, AllocError>
    requires { vec_len line.old ≤ most }
    ensures holds { IfOk result (λ long. (taken : List ℕ) → Holds most too_long line.old.items taken
        → Holds most long line.new.items (taken ++ part.now)) }
    ensures short { vec_len line.new ≤ most }
{
    if too_long || part.len() > most - line.len() {
        line.clear();
        return Ok(true);
    }
    line.extend_from_slice(part)?;
    Ok(false)
}

/// What a line is that a line feed ended.
fn found(too_long: bool) -> NextLine
    ensures { result ≡ (if too_long then NextLine.TooLong else NextLine.Line) }
{
    if too_long {
        NextLine::TooLong
    } else {
        NextLine::Line
    }
}

/// What the end of the input makes of a line.
fn at_end(line: &[u8], too_long: bool) -> NextLine
    ensures { result ≡ (if too_long then NextLine.TooLong
        else (if length line.now == 0 then NextLine.End else NextLine.Line)) }
{
    if too_long {
        NextLine::TooLong
    } else if line.is_empty() {
        NextLine::End
    } else {
        NextLine::Line
    }
}
