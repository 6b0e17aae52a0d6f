//! The entries and blocks of a chunk read from its bytes.
ghost use Rattle.std.specs.Prelude.{◌≡◌, ◌++◌, ◌+◌, ◌*◌, ◌<◌, ◌≤◌, ◌^◌, [], ◌∷◌, IfOk, length, ◌||◌, ◌==◌, ℕ, not, false};
ghost use Rattle.ing_refusals.specs.Results.{Gives, Returns};
ghost use Rattle.ing_chunk.specs.Chunks as chunks;
ghost use Rattle.ing_codec.specs.ChunkReading as spec;
ghost use Rattle.ing_codec.specs.ChunkReading.{read_entry, read_entries, read_block, read_blocks, is_in_part};
ghost use Rattle.ing_codec.specs.Seen.{HasSeen, is_seen};

use crate::fault::CodecFault;
use crate::fields::Fields;
use crate::lent_chunk::{LentBlock, LentEntry};
use crate::version::Version;
use std::alloc::{AllocError, Global};
use std::collections::BTreeSet;

/// The fewest bytes of an entry, in the first version.
const ENTRY_BYTES: usize = 16;

/// The fewest bytes of a block, in the first version.
const BLOCK_BYTES: usize = 20;

/// The most entries of a stream (own).
const MAX_NUMBERS: u64 = 0x4000_0000_0000_0000;

/// The first count that no chunk has (own).
const COUNT_END: u64 = 0x1_0000_0000;

/// Whether one entry stands before another: by stamp, then by number.
fn comes_before(a: &LentEntry<'_>, b: &LentEntry<'_>) -> bool
    ensures { result ≡ chunks.comes_before a.now b.now }
{
    let (first, second) = (a.stamp().nanoseconds(), b.stamp().nanoseconds());
    first < second || first == second && a.number() < b.number()
}

/// Whether an entry is above the last of those before it.
fn goes_on(before: &[LentEntry<'_>], entry: &LentEntry<'_>) -> bool
    ensures { result ≡ spec.goes_on before.now entry.now }
{
    match before.last() {
        None => true,
        Some(last) => comes_before(last, entry),
    }
}

/// One entry of a block, after those before it; their numbers are those seen.
#[tactic(auto, unfolding(crate::specs::ChunkReading::read_entry))]
fn entry<'a>(
    fields: Fields<'a>,
    part: Part,
    seen: &mut Seen,
    before: &[LentEntry<'a>],
) -> Result<(LentEntry<'a>, Fields<'a>), CodecFault>
    requires fits { part.first + part.start + part.count ≤ 2 ^ 63 }
    requires seen { HasSeen part seen.old before.now }
    ensures value { Gives CodecFault.NoMemory (λ x. x) result (read_entry part before.now fields.entry) }
    ensures seen { IfOk result (λ x. HasSeen part seen.new (before.now ++ x.0 ∷ [])) }
{
    let at = fields.at();
    let (offset, rest) = fields.u32()?;
    let number = part.first + u64::from(offset);
    if !part.has(number) || !seen.add(number)? {
        return Err(CodecFault::BadField { at });
    }
    let (stamp, rest) = rest.stamp()?;
    let (line, rest) = rest.line()?;
    let rest = rest.meta(part.version)?;
    let lent = LentEntry::of(number, stamp, line);
    if goes_on(before, &lent) {
        Ok((lent, rest))
    } else {
        Err(CodecFault::OutOfOrder)
    }
}

/// The entries of a block. Room is made for as many as the bytes that are left can hold, at most.
fn entries<'a>(
    alloc: Global,
    fields: Fields<'a>,
    part: Part,
) -> Result<(Vec<LentEntry<'a>>, Fields<'a>), CodecFault>
    requires { part.first + part.start + part.count ≤ 2 ^ 63 }
    ensures { Gives CodecFault.NoMemory (λ x. (x.0.items, x.1)) result
        (read_entries part part.count [] fields.entry) }
{
    let room = room_for_entries(fields.left(), part.count);
    let mut found = Vec::with_capacity(alloc, room)?;
    let mut seen = Seen::new(alloc, part.first + part.start, room)?;
    let mut rest = fields;
    for _ in 0..part.count {
        let (lent, after) = entry(rest, part, &mut seen, found.as_slice())?;
        found.push(lent)?;
        rest = after;
    }
    Ok((found, rest))
}

/// Whether a block may have so many entries, after `start` ones of earlier blocks.
fn is_count(first: u64, start: u64, count: u32) -> bool
    requires first { first ≤ 2 ^ 62 }
    requires start { start < 2 ^ 32 }
    ensures { result ≡ spec.is_count first start count }
{
    let end = start + u64::from(count);
    count != 0 && first + end <= MAX_NUMBERS && end < COUNT_END
}

/// One block of a version, after `start` entries of earlier ones.
#[tactic(auto, unfolding(crate::specs::ChunkReading::read_block))]
fn block<'a>(
    alloc: Global,
    fields: Fields<'a>,
    version: Version,
    first: u64,
    start: u64,
) -> Result<(LentBlock<'a>, Fields<'a>), CodecFault>
    requires first { first ≤ 2 ^ 62 }
    requires start { start < 2 ^ 32 }
    ensures value { Gives CodecFault.NoMemory (λ x. x) result (read_block version first start fields.entry) }
    ensures few { IfOk result (λ x. start + length x.0 < 2 ^ 32) }
{
    let at = fields.at();
    let (count, rest) = fields.u32()?;
    if !is_count(first, start, count) {
        return Err(CodecFault::BadField { at });
    }
    let part = Part {
        version,
        first,
        start,
        count,
    };
    let (found, after) = entries(alloc, rest, part)?;
    Ok((LentBlock::in_order(found), after))
}

impl<'a> Fields<'a> {
    /// So many blocks of a version, which go on from a first number of at most 2^62, one after the other: each has a count of
    /// one entry or more, and its entries, whose lines stay in the bytes. `Truncated` where a field passes the
    /// end; `BadField` of a count that is 0 or with which a number reaches 2^62 or the entries 2^32, of an
    /// entry's number outside of its block or there before, of a stamp, of a line's length or text, and of
    /// what stands behind it, as the field of its kind; `OutOfOrder` of an entry that is not above the one before it. `NoMemory` may stand in
    /// place of any answer: memory is taken for as many blocks and entries as the bytes that are left can hold,
    /// at most, whatever the counts are, and for what was read. (Own.)
    pub fn blocks(
        self,
        alloc: Global,
        version: Version,
        first: u64,
        count: u32,
    ) -> Result<(Vec<LentBlock<'a>>, Fields<'a>), CodecFault>
        requires { first ≤ 2 ^ 62 }
        ensures { Gives CodecFault.NoMemory (λ x. (x.0.items, x.1)) result
            (read_blocks version first count 0 [] self.entry) }
    {
        blocks(alloc, self, version, first, count)
    }
}

/// How many entries room is made for before they are read: at most so many, and at most what the bytes that
/// are left can hold.
fn room_for_entries(left: usize, count: u32) -> usize
    ensures covered { result * 16 ≤ left }
    ensures few { result ≤ count }
{
    (left / ENTRY_BYTES).min(count as usize)
}

/// The same of blocks.
fn room_for_blocks(left: usize, count: u32) -> usize
    ensures covered { result * 20 ≤ left }
    ensures few { result ≤ count }
{
    (left / BLOCK_BYTES).min(count as usize)
}

/// The blocks of a chunk, or of one of a log.
fn blocks<'a>(
    alloc: Global,
    fields: Fields<'a>,
    version: Version,
    first: u64,
    count: u32,
) -> Result<(Vec<LentBlock<'a>>, Fields<'a>), CodecFault>
    requires { first ≤ 2 ^ 62 }
    ensures { Gives CodecFault.NoMemory (λ x. (x.0.items, x.1)) result
        (read_blocks version first count 0 [] fields.entry) }
{
    let room = room_for_blocks(fields.left(), count);
    let mut found = Vec::with_capacity(alloc, room)?;
    let mut start: u64 = 0;
    let mut rest = fields;
    for _ in 0..count {
        let (next, after) = block(alloc, rest, version, first, start)?;
        start += next.entries().len() as u64;
        found.push(next)?;
        rest = after;
    }
    Ok((found, rest))
}

/// The entries of a block: how they are spelled, and their numbers, which are `count` from `first` and `start`
/// on: `first` is that of the chunk, and `start` entries are in the blocks before.
#[derive(Clone, Copy, Debug)]
pub(crate) struct Part {
    pub(crate) version: Version,
    pub(crate) first: u64,
    pub(crate) start: u64,
    pub(crate) count: u32,
}

impl Part {
    /// Whether it has this number.
    pub(crate) fn has(self, number: u64) -> bool
        requires { self.first + self.start + self.count < 2 ^ 64 }
        ensures { result ≡ is_in_part self number }
    {
        let from = self.first + self.start;
        number >= from && number < from + u64::from(self.count)
    }
}

/// Numbers from one on. The first of them have a flag each, and the others, which a block with a damaged
/// count may have, stand in a set: so memory is in proportion to the flags and to what was added.
#[derive(Debug, Drop)]
pub(crate) struct Seen {
    pub(crate) from: u64,
    pub(crate) near: Vec<bool>,
    pub(crate) far: BTreeSet<u64>,
}

impl Seen {
    /// No number yet of those from `from` on, with flags for so many.
    pub(crate) fn new(alloc: Global, from: u64, flags: usize) -> Result<Seen, AllocError>
        ensures from { IfOk result (λ seen. seen.from ≡ from) }
        ensures none { IfOk result (λ seen. (n : ℕ) → is_seen seen n ≡ false) }
    {
        Ok(Seen {
            from,
            near: vec![in alloc; false; flags]?,
            far: BTreeSet::new(alloc),
        })
    }

    /// Adds a number, and says whether it is new.
    fn add(&mut self, number: u64) -> Result<bool, AllocError>
        requires { self.old.from ≤ number }
        ensures new { IfOk result (λ new. new ≡ not (is_seen self.old number)) }
        ensures from { IfOk result (λ _. self.new.from ≡ self.old.from) }
        ensures seen { IfOk result (λ _. (n : ℕ) → self.old.from ≤ n →
            is_seen self.new n ≡ (n == number || is_seen self.old n)) }
    {
        let place = number - self.from;
        if place < self.near.len() as u64 {
            let new = !self.near[place as usize];
            self.near[place as usize] = true;
            return Ok(new);
        }
        Ok(self.far.insert(number)?)
    }
}
