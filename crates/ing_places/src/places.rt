//! The places of streams that were asked for lately.
ghost use Rattle.std.specs.Prelude.{◌≡◌, ◌<◌, IfOk, IsOk};
ghost use Rattle.ing_rows.specs.Placement as placement;

use crate::slot::Slot;
use ing_rows::Tenant;
use std::alloc::{AllocError, Global};
use std::hash::{FoldHasher, Hasher};
use std::marker::Model;

/// How many streams are kept at most, each in the one slot that its bytes give. Of streams that are asked for in turn one is kept
/// for each slot that is theirs: 99 in a hundred of 100 streams, 94 of 1,000, 58 of 10,000. Empty slots take 384 KiB.
const SLOTS: usize = 8192;

/// The places of streams that were asked for lately, at most 8192, with the bytes of their tenants and names: one that is kept is
/// found by a hash and a comparison of these, without a digest. Contracts see how many shards there are.
#[derive(Debug, Drop)]
pub struct Places {
    shards: u32,
    slots: Vec<Slot>,
}

impl Model for Places {
    ghost use Rattle.std.specs.Prelude.{◌≡◌, ◌≢◌, ◌<◌, ℕ, All, vec_len};
    ghost use Rattle.ing_places.specs.Slots.{IsOwn};
    ghost use Rattle.ing_places.specs.declared.places.TheConstants.{SLOTS};

    ghost Value = { ℕ };

    ghost view = { λ places. places.shards };

    ghost invariant = { λ places. (0 < places.shards)
        × (places.shards ≢ 1 → vec_len places.slots ≡ SLOTS)
        × All (IsOwn places.shards) places.slots.items };
}

impl Places {
    /// The places of streams in so many shards, of which none is kept yet. `AllocError` where memory runs out; for an only shard
    /// it takes none. (Own.)
    pub fn new(alloc: Global, shards: u32) -> Result<Places, AllocError>
        requires { 0 < shards }
        ensures shards { IfOk result (λ places. places ≡ shards) }
        ensures only { shards ≡ 1 → IsOk result }
    {
        let count = if shards == 1 { 0 } else { SLOTS };
        let mut slots = Vec::with_capacity(alloc, count)?;
        for _ in 0..count {
            slots.push_reserved(Slot::new(alloc));
        }
        Ok(Places { shards, slots })
    }

    /// The shard of a stream of this canonical name, from 0 and below the count of shards, which is what `ing_rows::shard_of`
    /// answers. It is the one that is kept, or is found by the digest, and then it may be kept: where memory for that runs out, the
    /// answer is the same, and the stream is not kept. (Own.)
    pub fn of(&mut self, tenant: &Tenant, name: &str) -> u32
        ensures shard { result ≡ placement.shard_of tenant.now name.now self.old }
        ensures below { result < self.old }
        ensures shards { self.new ≡ self.old }
    {
        if self.shards == 1 {
            return 0;
        }
        let (slot, mark) = slot_and_mark(tenant, name);
        let slot = &mut self.slots[slot];
        slot.of(tenant, name, mark, self.shards)
    }
}

/// The slot of a stream, and a mark that tells it from most others of that slot. Whoever picks the names can have many share a slot:
/// then each costs a digest, as it does without a slot. Takes no memory.
pub(crate) fn slot_and_mark(tenant: &Tenant, name: &str) -> (usize, u32)
    ensures { result.0 < SLOTS }
{
    let mut hasher = FoldHasher::default();
    hasher.write(tenant.as_str().as_bytes());
    hasher.write(name.as_bytes());
    let hash = hasher.finish();
    ((hash % SLOTS as u64) as usize, (hash >> 32) as u32)
}
