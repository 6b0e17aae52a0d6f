//! How many entries each stream had when its ingester began.
ghost use Rattle.std.specs.Prelude.{◌≡◌, IfOk, IfSome, is_some, map, reverse};
ghost use Rattle.ing_diary.specs.Fronts.{front_in};
ghost use Rattle.ing_node.specs.Earlier.{fronts_in};

use ing_begun::Shards;
use ing_diary::Fronts;
use ing_store::Receipt;
use ing_wal::LogDisk;
use std::alloc::{AllocError, Global};

/// Those of each shard, by number, where the settings want diaries. `AllocError` where memory runs out.
pub(crate) fn fronts_of<D: LogDisk, R: Receipt>(
    alloc: Global,
    shards: &Shards<D, R>,
) -> Result<Option<Vec<Fronts>>, AllocError>
    ensures kept { IfOk result (λ fronts. is_some fronts ≡ shards.now.settings.diaries) }
    ensures all { IfOk result (λ fronts. IfSome fronts (λ all.
        map front_in all.items ≡ map fronts_in (reverse shards.now.last_first.items))) }
{
    if !shards.settings.diaries() {
        return Ok(None);
    }
    let mut all = Vec::with_capacity(alloc, shards.last_first.len())?;
    for begun in &shards.last_first {
        all.push(Fronts::of_shard(alloc, begun.shard.memory())?)?;
    }
    all.reverse();
    Ok(Some(all))
}
