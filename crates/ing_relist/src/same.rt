//! Whether a chunk that was read is one in memory.
ghost use Rattle.std.specs.Prelude.{◌≡◌, true, false};
ghost use Rattle.ing_labels.specs.Canonical.{canonical_of};
ghost use Rattle.ing_codec.specs.ChunkReading.{chunk_object};
ghost use Rattle.ing_relist.specs.Same as spec;

use ing_chunk::{Block, Chunk, Numbered};
use ing_codec::{LentBlock, LentChunk, LentEntry};
use ing_labels::Labels;
use ing_rows::Tenant;

/// Whether it is this entry, under the same number.
fn is_entry(lent: &LentEntry<'_>, numbered: &Numbered) -> bool
    ensures { result ≡ spec.is_entry numbered.now lent.now }
{
    lent.number() == numbered.number
        && lent.stamp() == numbered.entry.stamp
        && lent.line() == numbered.entry.line.as_str()
}

/// Whether they are these entries, in the same order.
fn are_entries(lent: &[LentEntry<'_>], entries: &[Numbered]) -> bool
    ensures yes { result ≡ true → lent.now ≡ entries.now }
    ensures no { result ≡ false → lent.now ≡ entries.now → ⊥ }
{
    if lent.len() != entries.len() {
        return false;
    }
    for place in 0..lent.len() {
        if !is_entry(&lent[place], &entries[place]) {
            return false;
        }
    }
    true
}

/// Whether they are these blocks, in the same order.
fn are_blocks(lent: &[LentBlock<'_>], blocks: &[Block]) -> bool
    ensures yes { result ≡ true → lent.now ≡ blocks.now }
    ensures no { result ≡ false → lent.now ≡ blocks.now → ⊥ }
{
    if lent.len() != blocks.len() {
        return false;
    }
    for place in 0..lent.len() {
        if !are_entries(lent[place].entries(), blocks[place].entries()) {
            return false;
        }
    }
    true
}

/// Whether it is this chunk of this stream.
pub(crate) fn is_chunk(
    lent: &LentChunk<'_>,
    tenant: &Tenant,
    labels: &Labels,
    chunk: &Chunk,
) -> bool
    ensures yes { result ≡ true →
        lent.now ≡ chunk_object tenant.now (canonical_of labels.now) chunk.now.first chunk.now.blocks }
    ensures no { result ≡ false →
        lent.now ≡ chunk_object tenant.now (canonical_of labels.now) chunk.now.first chunk.now.blocks → ⊥ }
{
    lent.tenant().as_str() == tenant.as_str()
        && lent.labels().name() == labels.name()
        && lent.first() == chunk.first()
        && are_blocks(lent.blocks(), chunk.blocks())
}
