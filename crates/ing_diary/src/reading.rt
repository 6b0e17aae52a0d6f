//! The entries of a shard that came since a moment, read back.
ghost use Rattle.std.specs.Prelude.{◌≡◌, ◌++◌, ◌<◌, ℕ, [], IfOk, OnOk, true, filter, length, map, slice_get};
ghost use Rattle.std.specs.List.{flat_map};
ghost use Rattle.ing_chunk.specs.Chunks.{in_blocks};
ghost use Rattle.ing_parts.specs.Parts.{found_among, found_in};
ghost use Rattle.ing_query.specs.Fetched.{IsCounted, IsNotBad};
ghost use Rattle.ing_diary.specs.Fronts.{front_in, is_from, note_is_from, rows_since};
ghost use Rattle.ing_diary.specs.Notes.{AreRead, AreReadAs, IsReadOf, has_number, note_of, note_of_found, numbered_of};
ghost use Rattle.ing_rows.specs.Rows.{StreamKey};

use crate::fronts::Fronts;
use crate::noted::Noted;
use ing_chunk::Numbered;
use ing_parts::{Part, Source};
use ing_query::{QueryFault, read_part};
use ing_shard::{Listed, Listing, Shard, StreamNo};
use ing_store::{Receipt, StoreEnd};
use std::alloc::Global;

/// The entries of a shard that came since its streams had these fronts, stream by stream, wherever they stand. What is stored and came
/// before is not read. `StoreFault` only where the end has failed, and `BadObject` never over an honest end.
pub(crate) fn read_since<S: StoreEnd>(
    alloc: Global,
    shard: &Shard<S::Receipt>,
    end: &mut S,
    fronts: &Fronts,
) -> Result<Vec<Noted>, QueryFault>
    ensures all { let rows = rows_since (front_in fronts.now) shard.now.state.rows in
        IfOk result (λ all. AreReadAs S.is_honest (map note_of rows) (flat_map (λ noted. noted) all.items)) }
    ensures honest { S.is_honest → IsNotBad result }
    ensures count { IsCounted (S.failure_count end.old) (S.failure_count end.new) result }
    ensures sure { S.never_fails end.old → (S.never_fails end.new)
        × (S.failure_count end.new ≡ S.failure_count end.old) }
{
    shard.rows_are_listed();
    let mut all = Vec::new(alloc);
    for number in 0..shard.stream_count() {
        all.push(read_stream(alloc, shard, number, end, fronts)?)?;
    }
    Ok(all)
}

/// Those of the stream of this number, which is listed.
fn read_stream<S: StoreEnd>(
    alloc: Global,
    shard: &Shard<S::Receipt>,
    number: u64,
    end: &mut S,
    fronts: &Fronts,
) -> Result<Noted, QueryFault>
    requires { number < length shard.now.listed }
    ensures all { IfOk result (IsReadOf S.is_honest (slice_get shard.now.listed number)
        (rows_since (front_in fronts.now) shard.now.state.rows)) }
    ensures honest { S.is_honest → IsNotBad result }
    ensures count { IsCounted (S.failure_count end.old) (S.failure_count end.new) result }
    ensures sure { S.never_fails end.old → (S.never_fails end.new)
        × (S.failure_count end.new ≡ S.failure_count end.old) }
{
    match shard.listed(alloc, StreamNo::new(number))? {
        Some(listed) => {
            let front = fronts.of(&listed.tenant, &listed.name);
            read_listed(alloc, listed, end, front)
        }
        None => unreachable!(),
    }
}

/// The entries of a stream from a number on.
fn read_listed<S: StoreEnd>(
    alloc: Global,
    listed: Listed<S::Receipt>,
    end: &mut S,
    front: u64,
) -> Result<Noted, QueryFault>
    ensures all { let s : StreamKey = record { tenant = listed.tenant; name = listed.name } in
        IfOk result (λ noted. AreReadAs S.is_honest
        (filter (note_is_from front) (map (note_of_found s) (found_among listed.parts.items))) noted) }
    ensures honest { S.is_honest → IsNotBad result }
    ensures count { IsCounted (S.failure_count end.old) (S.failure_count end.new) result }
    ensures sure { S.never_fails end.old → (S.never_fails end.new)
        × (S.failure_count end.new ≡ S.failure_count end.old) }
{
    let Listed {
        tenant,
        name,
        parts,
    } = listed;
    let entries = read_parts(alloc, &parts, end, front)?;
    Ok(Noted {
        tenant,
        name,
        entries,
    })
}

/// The entries of parts from a number on.
fn read_parts<S: StoreEnd>(
    alloc: Global,
    parts: &[Part<S::Receipt>],
    end: &mut S,
    front: u64,
) -> Result<Vec<Numbered>, QueryFault>
    ensures all { IfOk result (λ entries. AreRead has_number S.is_honest
        (filter (is_from front) (map numbered_of (found_among parts.now))) entries.items) }
    ensures honest { S.is_honest → IsNotBad result }
    ensures count { IsCounted (S.failure_count end.old) (S.failure_count end.new) result }
    ensures sure { S.never_fails end.old → (S.never_fails end.new)
        × (S.failure_count end.new ≡ S.failure_count end.old) }
{
    let mut entries = Vec::new(alloc);
    for part in parts {
        add_part(&mut entries, alloc, part, end, front)?;
    }
    Ok(entries)
}

/// Whether a part is a stored chunk whose entries all stand before a number: then it need not be read.
fn is_before<R: Receipt>(part: &Part<R>, front: u64) -> bool
    ensures { result ≡ true → filter (is_from front) (map numbered_of (found_in part.now)) ≡ [] }
{
    match &part.source {
        Source::Block(_) => false,
        Source::Stored(listing) => ends_before(listing, front),
    }
}

/// The same of a stored chunk.
fn ends_before<R: Receipt>(listing: &Listing<R>, front: u64) -> bool
    ensures { result ≡ true → filter (is_from front) (in_blocks listing.now.blocks) ≡ [] }
{
    listing.is_spelt();
    let extent = listing.extent();
    extent.first + u64::from(extent.count) <= front
}

/// Adds the entries of a part from a number on.
fn add_part<S: StoreEnd>(
    entries: &mut Vec<Numbered>,
    alloc: Global,
    part: &Part<S::Receipt>,
    end: &mut S,
    front: u64,
) -> Result<(), QueryFault>
    ensures all { OnOk result (AreRead has_number S.is_honest
        (entries.old.items ++ filter (is_from front) (map numbered_of (found_in part.now))) entries.new.items) }
    ensures honest { S.is_honest → IsNotBad result }
    ensures count { IsCounted (S.failure_count end.old) (S.failure_count end.new) result }
    ensures sure { S.never_fails end.old → (S.never_fails end.new)
        × (S.failure_count end.new ≡ S.failure_count end.old) }
{
    if is_before(part, front) {
        return Ok(());
    }
    add_read(entries, alloc, part, end, front)
}

/// The same of a part that is read.
fn add_read<S: StoreEnd>(
    entries: &mut Vec<Numbered>,
    alloc: Global,
    part: &Part<S::Receipt>,
    end: &mut S,
    front: u64,
) -> Result<(), QueryFault>
    ensures all { OnOk result (AreRead has_number S.is_honest
        (entries.old.items ++ filter (is_from front) (map numbered_of (found_in part.now))) entries.new.items) }
    ensures honest { S.is_honest → IsNotBad result }
    ensures count { IsCounted (S.failure_count end.old) (S.failure_count end.new) result }
    ensures sure { S.never_fails end.old → (S.never_fails end.new)
        × (S.failure_count end.new ≡ S.failure_count end.old) }
{
    for found in read_part(alloc, part, end)? {
        if found.number >= front {
            entries.push(Numbered {
                number: found.number,
                entry: found.entry,
            })?;
        }
    }
    Ok(())
}
