//! What is counted of the entries of a chunk that was read.
ghost use Rattle.std.specs.Prelude.{◌≡◌, ◌+◌, ◌<◌, ◌^◌, [], ◌∷◌, length, true, false};
ghost use Rattle.ing_chunk.specs.Chunks.{in_blocks};
ghost use Rattle.ing_parts.specs.Listings.{extent_of};
ghost use Rattle.ing_relist.specs.Counts.{AddsTo, IsCountOf, IsSmall};

use ing_codec::{Extent, LentBlock, LentChunk, LentEntry};

/// The last stamp, in nanoseconds.
const LAST_STAMP: u64 = 0x7fff_ffff_ffff_ffff;

/// How many entries there are, their size in bytes, and their least and greatest stamp in nanoseconds.
#[derive(Clone, Copy)]
struct Counted {
    count: u64,
    size: u128,
    least: u64,
    greatest: u64,
}

/// One more entry is counted.
fn with_entry(counted: Counted, entry: &LentEntry<'_>) -> Counted
    requires few { counted.count < 2 ^ 32 }
    requires small { IsSmall counted }
    ensures adds { AddsTo (entry.now ∷ []) counted result }
    ensures small { IsSmall result }
{
    let stamp = entry.stamp().nanoseconds();
    Counted {
        count: counted.count + 1,
        size: counted.size + 16 + entry.line().len() as u128,
        least: counted.least.min(stamp),
        greatest: counted.greatest.max(stamp),
    }
}

/// The entries of one more block are counted.
fn with_entries(counted: Counted, entries: &[LentEntry<'_>]) -> Counted
    requires few { counted.count + length entries.now < 2 ^ 32 }
    requires small { IsSmall counted }
    ensures adds { AddsTo entries.now counted result }
    ensures small { IsSmall result }
{
    let mut sum = counted;
    for entry in entries {
        sum = with_entry(sum, entry);
    }
    sum
}

/// The entries of blocks, counted.
fn counted_in(blocks: &[LentBlock<'_>]) -> Counted
    requires few { length (in_blocks blocks.now) < 2 ^ 32 }
    ensures { IsCountOf (in_blocks blocks.now) result }
{
    let mut sum = Counted {
        count: 0,
        size: 0,
        least: LAST_STAMP,
        greatest: 0,
    };
    for block in blocks {
        sum = with_entries(sum, block.entries());
    }
    sum
}

/// Whether these are the numbers, the size and the stamps of the entries of a chunk.
pub(crate) fn has_extent(chunk: &LentChunk<'_>, extent: &Extent) -> bool
    ensures yes { result ≡ true → extent.now ≡ extent_of chunk.now.first chunk.now.blocks }
    ensures no { result ≡ false → extent.now ≡ extent_of chunk.now.first chunk.now.blocks → ⊥ }
{
    let counted = counted_in(chunk.blocks());
    chunk.first() == extent.first
        && counted.count == u64::from(extent.count)
        && counted.size == u128::from(extent.size)
        && counted.least == extent.least.nanoseconds()
        && counted.greatest == extent.greatest.nanoseconds()
}
