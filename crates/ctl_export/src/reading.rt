//! All entries of a stream, read back in the order of their numbers.
ghost use Rattle.std.specs.Prelude.{◌≡◌, ◌++◌, ◌<◌, IfOk, OnOk, IsPermutation, Some};
ghost use Rattle.std.specs.Prelude.{length, map, slice_get};
ghost use Rattle.ing_parts.specs.Parts.{found_among, found_in};
ghost use Rattle.ing_query.specs.Fetched.{IsCounted, IsNotBad};
ghost use Rattle.ing_rows.specs.Rows.{StreamKey};
ghost use Rattle.ctl_export.specs.Reads.{AreInOrder, AreOf, numbered_of, number_of};

use crate::stream_entries::StreamEntries;
use ing_chunk::Numbered;
use ing_durable::{Shard, StreamNo};
use ing_parts::Part;
use ing_query::{QueryFault, read_part};
use ing_store::StoreEnd;
use std::alloc::Global;

/// All entries of the stream of this number, wherever they stand, in the order of their numbers,
/// which is that in which they were accepted. `StoreFault` only where the end has failed,
/// `BadObject` never over an honest end, and `NoMemory`. (Own.)
pub fn read_stream<S: StoreEnd>(
    alloc: Global,
    shard: &Shard<S::Receipt>,
    number: u64,
    end: &mut S,
) -> Result<StreamEntries, QueryFault>
    requires { number < length shard.now.listed }
    ensures key { IfOk result (λ read. slice_get shard.now.listed number
        ≡ Some (record { tenant = read.tenant; name = read.name })) }
    ensures all { S.is_honest → IfOk result (λ read.
        let s : StreamKey = record { tenant = read.tenant; name = read.name } in
        AreOf s shard.now.state.rows read.entries.items) }
    ensures in_order { IfOk result (λ read. AreInOrder read.entries.items) }
    ensures honest { S.is_honest → IsNotBad result }
    ensures count { IsCounted (S.failure_count end.old) (S.failure_count end.new) result }
    ensures sure { S.never_fails end.old → (S.never_fails end.new)
        × (S.failure_count end.new ≡ S.failure_count end.old) }
{
    match shard.listed(alloc, StreamNo::new(number))? {
        Some(listed) => {
            let entries = read_parts(alloc, &listed.parts, end)?;
            Ok(StreamEntries {
                tenant: listed.tenant,
                name: listed.name,
                entries,
            })
        }
        None => unreachable!(),
    }
}

/// The entries of parts, in the order of their numbers.
fn read_parts<S: StoreEnd>(
    alloc: Global,
    parts: &[Part<S::Receipt>],
    end: &mut S,
) -> Result<Vec<Numbered>, QueryFault>
    ensures all { S.is_honest → IfOk result (λ entries.
        IsPermutation (map numbered_of (found_among parts.now)) entries.items) }
    ensures in_order { IfOk result (λ entries. AreInOrder entries.items) }
    ensures honest { S.is_honest → IsNotBad result }
    ensures count { IsCounted (S.failure_count end.old) (S.failure_count end.new) result }
    ensures sure { S.never_fails end.old → (S.never_fails end.new)
        × (S.failure_count end.new ≡ S.failure_count end.old) }
{
    let mut entries = Vec::new(alloc);
    for part in parts {
        add_part(&mut entries, alloc, part, end)?;
    }
    entries.sort_unstable_by_key(|one| one.number);
    Ok(entries)
}

/// Adds the entries of a part.
fn add_part<S: StoreEnd>(
    entries: &mut Vec<Numbered>,
    alloc: Global,
    part: &Part<S::Receipt>,
    end: &mut S,
) -> Result<(), QueryFault>
    ensures all { S.is_honest → OnOk result (IsPermutation
        (entries.old.items ++ map numbered_of (found_in part.now)) entries.new.items) }
    ensures honest { S.is_honest → IsNotBad result }
    ensures count { IsCounted (S.failure_count end.old) (S.failure_count end.new) result }
    ensures sure { S.never_fails end.old → (S.never_fails end.new)
        × (S.failure_count end.new ≡ S.failure_count end.old) }
{
    for found in read_part(alloc, part, end)? {
        entries.push(Numbered {
            number: found.number,
            entry: found.entry,
        })?;
    }
    Ok(())
}
