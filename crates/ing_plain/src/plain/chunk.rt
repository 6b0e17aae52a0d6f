//! What the slow program reads of a chunk and changes in it: by looking through all rows, and through all marks.
ghost use Rattle.std.specs.Prelude.{◌≡◌, ◌<◌, All, Some, filter, find, length, map, nat_le, reverse, if◌then◌else◌};
ghost use Rattle.std.specs.List.{list_any};
ghost use Rattle.std.specs.Option.{option_map};
ghost use Rattle.ing_rows.specs.Rows.{rows_of_chunk, size_of_rows, stream};
ghost use Rattle.ing_rows.specs.Steps.{blocks_of, in_head, is_growing, is_mark_of, moved};
ghost use Rattle.ing_rows.specs.declared.place.Place.TheVariants.{Block};

use super::mark::PlainMark;
use super::row::PlainRow;
use ing_rows::{SealReason, Tenant};

/// The growing chunk of the stream.
pub fn growing_chunk(marks: &[PlainMark], tenant: &Tenant, name: &str) -> Option<u64>
    ensures { let s = stream tenant.now name.now in
        result ≡ option_map (λ m. m.chunk) (find (is_growing s) (reverse marks.now)) }
{
    let mut chunk: Option<u64> = None;
    for mark in marks {
        if mark.is_growing(tenant, name) {
            chunk = Some(mark.chunk);
        }
    }
    chunk
}

/// How many closed blocks the chunk has.
pub fn blocks_of(rows: &[PlainRow], tenant: &Tenant, name: &str, chunk: u64) -> u64
    requires { All (λ r. r.block < length rows.now) rows.now }
    ensures { let s = stream tenant.now name.now in
        result ≡ blocks_of (rows_of_chunk s chunk (reverse rows.now)) }
{
    let mut blocks: u64 = 0;
    for row in rows {
        if row.is_of_chunk(tenant, name, chunk) && row.is_in_block() {
            blocks = blocks.max(row.block + 1);
        }
    }
    blocks
}

/// Whether the head of the chunk has reached the size.
pub fn head_has(rows: &[PlainRow], tenant: &Tenant, name: &str, chunk: u64, size: u64) -> bool
    ensures { let s = stream tenant.now name.now in
        result ≡ nat_le size (size_of_rows (filter (in_head s chunk) (reverse rows.now))) }
{
    let mut left = size;
    for row in rows {
        if row.is_in_head(tenant, name, chunk) {
            left = row.taken_from(left);
        }
    }
    left == 0
}

/// Whether the chunk has reached the size.
pub fn chunk_has(rows: &[PlainRow], tenant: &Tenant, name: &str, chunk: u64, size: u64) -> bool
    ensures { let s = stream tenant.now name.now in
        result ≡ nat_le size (size_of_rows (rows_of_chunk s chunk (reverse rows.now))) }
{
    let mut left = size;
    for row in rows {
        if row.is_of_chunk(tenant, name, chunk) {
            left = row.taken_from(left);
        }
    }
    left == 0
}

/// Closes the head of the chunk into a block.
pub fn close_head(rows: &mut [PlainRow], tenant: &Tenant, name: &str, chunk: u64)
    ensures { rows.new ≡ moved (in_head (stream tenant.now name.now) chunk) Block rows.old }
{
    for row in rows.iter_mut() {
        row.close(tenant, name, chunk);
    }
}

/// The growing chunk of the stream was updated at this time.
pub fn update(marks: &mut [PlainMark], tenant: &Tenant, name: &str, now: u64)
    ensures { let s = stream tenant.now name.now in
        marks.new
        ≡ map (λ m. if is_growing s m then record m { last_update = now } else m) marks.old }
{
    for mark in marks.iter_mut() {
        mark.update(tenant, name, now);
    }
}

/// The chunk takes no more entries, for this reason.
pub fn seal(marks: &mut [PlainMark], tenant: &Tenant, name: &str, chunk: u64, reason: SealReason)
    ensures { let s = stream tenant.now name.now in
        marks.new ≡ map
        (λ m. if is_mark_of s chunk m then record m { reason = Some reason } else m) marks.old }
{
    for mark in marks.iter_mut() {
        mark.seal(tenant, name, chunk, reason);
    }
}
