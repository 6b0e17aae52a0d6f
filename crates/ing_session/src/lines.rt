//! Reading an input line by line, with a bound on what is kept of a line.
ghost use Rattle.std.specs.Prelude.{◌≡◌, ◌≢◌, ◌*◌, ◌^◌, ◌<◌, ◌≤◌, [], true, false, Bool, List, ℕ, vec_len, IfOk, IfErr, OnOk, IsErrOf, ◌+◌, ◌++◌, ◌∷◌, length, take, drop, MatchOption, ◌==◌, if◌then◌else◌};
ghost use Rattle.ing_session.specs.Parts.{HasNoFeed, Holds};

use memchr::memchr;
use std::alloc::{AllocError, Global};
use std::io::{ErrorKind, Read};

/// How many bytes a line may have, its line feed not counted.
pub const MAX_LINE: usize = 16_777_216;

/// How many calls of `read` an input may take.
const MAX_READS: u64 = 1 << 40;

/// How many bytes one call of `read` may give.
const CHUNK: usize = 65_536;

/// What is next in an input.
#[derive(Clone, Copy, Debug, PartialEq, Eq)]
pub enum NextLine {
    /// A line, which was put into the buffer.
    Line,
    /// A line of more than `MAX_LINE` bytes, which was skipped.
    TooLong,
    /// The end: no further line.
    End,
}

/// Why an input could not be read on.
#[derive(Clone, Copy, Debug, PartialEq, Eq)]
pub enum LineError {
    /// The reader failed.
    ReadFailed,
    /// More than 2^40 reads were needed.
    TooManyReads,
    /// Memory ran out.
    NoMemory,
}

impl From<AllocError> for LineError {
    ghost use Rattle.std.specs.Prelude.{◌≡◌};
    ghost use Rattle.ing_session.specs.declared.lines.LineError.TheVariants.{NoMemory};

    ghost from_gives = { λ _ e. e ≡ NoMemory };

    fn from(_error: AllocError) -> LineError {
        LineError::NoMemory
    }
}

/// How far a line has come.
#[derive(Clone, Copy)]
pub enum Part {
    /// Its line feed was found. Whether the line is too long.
    Ended(bool),
    /// All that is read ahead belongs to it. Whether it is too long already.
    Open(bool),
}

/// The lines of an input. The reader is passed to each call that reads.
#[derive(Drop)]
pub struct Lines {
    /// What was read last. Its length, `CHUNK` bytes, stays.
    chunk: Vec<u8>,
    /// Where the bytes begin that are in no line yet.
    at: usize,
    /// Where they end.
    filled: usize,
    /// How many calls of `read` were made.
    reads: u64,
    /// Whether a read has found the end of the input.
    ended: bool,
    ghost ordered: { at ≤ filled },
    ghost in_bounds: { filled ≤ vec_len chunk },
    ghost has_room: { 0 < vec_len chunk },
    ghost is_small: { vec_len chunk ≤ 65536 },
    ghost bounded: { reads ≤ 2 ^ 40 },
}

impl Lines {
    ghost use Rattle.std.specs.Io.KnownBytes.{Keeps, IsAtEnd, Consumes, prepend_known};
    ghost use Rattle.ing_session.specs.Lines.{TakesLine};
    ghost use Rattle.ing_session.specs.Parts.{HasNoFeed, Holds, TakesPart};
    ghost use Rattle.ing_session.specs.Unread.{unread, left, reads_made, is_ended, progress};

    /// A reader of lines that has read nothing yet. It fails only where memory runs out.
    pub fn new(alloc: Global) -> Result<Lines, AllocError>
        ensures nothing_read { IfOk result (λ lines. unread lines ≡ []) }
        ensures reads { IfOk result (λ lines. reads_made lines ≡ 0) }
        ensures open { IfOk result (λ lines. is_ended lines ≡ false) }
    {
        let mut chunk = Vec::with_capacity(alloc, CHUNK)?;
        chunk.resize(CHUNK, 0)?;
        Ok(Lines {
            chunk,
            at: 0,
            filled: 0,
            reads: 0,
            ended: false,
        })
    }

    /// Whether a read has found the end of the input: then there is no further line. Takes no memory.
    pub fn is_ended(&self) -> bool
        ensures { result ≡ is_ended self.now }
    {
        self.ended
    }

    /// Begins the next line with what is read ahead of it, without a read. `line` is cleared first, and gets the line
    /// without its line feed, or its front; a line of more than `MAX_LINE` bytes is not kept. It fails only where memory
    /// runs out.
    pub fn begin(&mut self, line: &mut Vec<u8>) -> Result<Part, AllocError>
        ensures part { IfOk result (TakesPart [] (unread self.old) (unread self.new) line.new.items) }
        ensures short { vec_len line.new ≤ MAX_LINE }
        ensures reads { reads_made self.new ≡ reads_made self.old }
        ensures end { is_ended self.new ≡ is_ended self.old }
        ensures progress { IfOk result (λ part. (long : Bool) → part ≡ Part.Ended long
            → progress self.old < progress self.new) }
        ensures no_less { progress self.old ≤ progress self.new }
    {
        line.clear();
        self.take(line, false)
    }

    /// What is read ahead of the next line.
    pub fn ahead(&self) -> &[u8]
        ensures bytes { result.now ≡ unread self.now }
        ensures few { length result.now ≤ MAX_LINE }
    {
        &self.chunk[self.at..self.filled]
    }

    /// Skips so many of the bytes that are read ahead. Takes no memory.
    pub fn skip(&mut self, count: usize)
        requires { count ≤ length (unread self.old) }
        ensures bytes { unread self.new ≡ drop count (unread self.old) }
        ensures end { is_ended self.new ≡ is_ended self.old }
        ensures no_less { progress self.old ≤ progress self.new }
    {
        self.at += count;
    }

    /// Reads until the line that has begun is whole, or the input is at its end. `too_long` says whether the front has more
    /// than `MAX_LINE` bytes already; such a line is skipped and `line` left empty. A read that a signal interrupted is tried
    /// again.
    ///
    /// `ReadFailed` where the reader failed, `TooManyReads` where 2^40 reads were made; `NoMemory`. After the first two
    /// no line feed has been read that ends a line which was not given. (Own.)
    pub fn read_on<R: Read>(
        &mut self,
        reader: &mut R,
        line: &mut Vec<u8>,
        too_long: bool,
    ) -> Result<NextLine, LineError>
        requires ahead { unread self.old ≡ [] }
        requires open { is_ended self.old ≡ false }
        requires short { vec_len line.old ≤ MAX_LINE }
        ensures line { IfOk result (λ next. (front : List ℕ) → HasNoFeed front
            → Holds too_long line.old.items front
            → TakesLine (prepend_known front (R.remaining reader.old))
            (left self.new (R.remaining reader.new)) (is_ended self.new) next line.new.items) }
        ensures short { vec_len line.new ≤ MAX_LINE }
        ensures progress { OnOk result (progress self.old < progress self.new) }
        ensures bound { IsErrOf result LineError.TooManyReads → reads_made self.new ≡ 2 ^ 40 }
        ensures fault { IfErr result (λ e. e ≢ LineError.NoMemory → (read : List ℕ) × HasNoFeed read
            × Consumes (R.remaining reader.old) (R.remaining reader.new) read) }
    {
        let mut too_long = too_long;
        for read in self.reads..MAX_READS {
            self.reads = read + 1;
            if self.fill(reader)? {
                return Ok(at_end(line, too_long));
            }
            match self.take(line, too_long)? {
                Part::Ended(long) => return Ok(found(long)),
                Part::Open(long) => too_long = long,
            }
        }
        Err(LineError::TooManyReads)
    }

    /// Reads once where nothing is read ahead. Gives whether the input is at its end.
    fn fill<R: Read>(&mut self, reader: &mut R) -> Result<bool, LineError>
        requires ahead { unread self.old ≡ [] }
        requires open { is_ended self.old ≡ false }
        ensures bytes { OnOk result (Keeps (R.remaining reader.old)
            (left self.new (R.remaining reader.new))) }
        ensures reads { reads_made self.new ≡ reads_made self.old }
        ensures end { IfOk result (λ ended. is_ended self.new ≡ ended) }
        ensures at_end { IfOk result (λ ended. ended ≡ true
            → (unread self.new ≡ []) × IsAtEnd (R.remaining reader.new)) }
        ensures start { progress self.new ≡ reads_made self.new * 65537 }
        ensures fault { IfErr result (λ e. (e ≡ LineError.ReadFailed)
            × Keeps (R.remaining reader.old) (R.remaining reader.new)) }
    {
        self.at = 0;
        self.filled = 0;
        match reader.read(self.chunk.as_mut_slice()) {
            Ok(count) => {
                self.filled = count;
                self.ended = count == 0;
                Ok(self.ended)
            }
            Err(error) => {
                if error.kind() == ErrorKind::Interrupted {
                    Ok(false)
                } else {
                    Err(LineError::ReadFailed)
                }
            }
        }
    }

    /// Takes what is read ahead of a line, up to and with its line feed.
    fn take(&mut self, line: &mut Vec<u8>, too_long: bool) -> Result<Part, AllocError>
        requires { vec_len line.old ≤ MAX_LINE }
        ensures part { IfOk result (λ part. (taken : List ℕ)
            → Holds too_long line.old.items taken
            → TakesPart taken (unread self.old) (unread self.new) line.new.items part) }
        ensures open { IfOk result (λ part. (long : Bool) → part ≡ Part.Open long
            → HasNoFeed (unread self.old) × (unread self.new ≡ [])) }
        ensures short { vec_len line.new ≤ MAX_LINE }
        ensures reads { reads_made self.new ≡ reads_made self.old }
        ensures end { is_ended self.new ≡ is_ended self.old }
        ensures progress { IfOk result (λ part. (long : Bool) → part ≡ Part.Ended long
            → progress self.old < progress self.new) }
        ensures no_less { progress self.old ≤ progress self.new }
    {
        let ahead = &self.chunk[self.at..self.filled];
        match feed_at(ahead) {
            Some(index) => {
                let long = add(line, too_long, &ahead[..index])?;
                self.at += index + 1;
                Ok(Part::Ended(long))
            }
            None => {
                let long = add(line, too_long, ahead)?;
                self.at = self.filled;
                Ok(Part::Open(long))
            }
        }
    }
}

/// Where the first line feed stands.
pub(crate) fn feed_at(bytes: &[u8]) -> Option<usize>
    ensures { MatchOption result (HasNoFeed bytes.now) (λ index. (index < length bytes.now)
        × HasNoFeed (take index bytes.now)
        × (bytes.now ≡ take index bytes.now ++ 10 ∷ drop (index + 1) bytes.now)) }
{
    memchr(b'\n', bytes)
}

/// Adds a part to a line, or drops the line where it is too long. Gives whether it is.
fn add(line: &mut Vec<u8>, too_long: bool, part: &[u8]) -> Result<bool, AllocError>
    requires { vec_len line.old ≤ MAX_LINE }
    ensures holds { IfOk result (λ long. (taken : List ℕ) → Holds too_long line.old.items taken
        → Holds long line.new.items (taken ++ part.now)) }
    ensures short { vec_len line.new ≤ MAX_LINE }
{
    if too_long || part.len() > MAX_LINE - line.len() {
        line.clear();
        return Ok(true);
    }
    line.extend_from_slice(part)?;
    Ok(false)
}

/// What a line is that a line feed ended.
pub(crate) fn found(too_long: bool) -> NextLine
    ensures { result ≡ (if too_long then NextLine.TooLong else NextLine.Line) }
{
    if too_long {
        NextLine::TooLong
    } else {
        NextLine::Line
    }
}

/// What the end of the input makes of a line.
fn at_end(line: &[u8], too_long: bool) -> NextLine
    ensures { result ≡ (if too_long then NextLine.TooLong
        else (if length line.now == 0 then NextLine.End else NextLine.Line)) }
{
    if too_long {
        NextLine::TooLong
    } else if line.is_empty() {
        NextLine::End
    } else {
        NextLine::Line
    }
}
