//! How many entries the streams of a shard had at a moment.
ghost use Rattle.std.specs.Prelude.{◌≡◌, ◌<◌, IfOk, IfSome, IsPermutation, length, slice_get};
ghost use Rattle.std.specs.List.Sorted.{IsSortedBy};
ghost use Rattle.ing_diary.specs.Fronts.{front_before, front_in, stream_cmp, stream_of};
ghost use Rattle.ing_rows.specs.Rows.{StreamKey, count_of};

use ing_parts::StreamName;
use ing_rows::Tenant;
use ing_shard::{Shard, StreamFront, StreamNo};
use ing_store::Receipt;
use std::alloc::{AllocError, Global};
use std::cmp::Ordering;
use std::marker::Model;

/// How many entries each stream of a shard had at a moment: what came later has greater numbers. Contracts see the streams
/// with their fronts. (Own.)
#[derive(Drop)]
pub struct Fronts {
    streams: Vec<StreamFront>,
}

impl Model for Fronts {
    ghost use Rattle.std.specs.Prelude.{List};
    ghost use Rattle.ing_diary.specs.Fronts.{AreFronts};
    ghost use Rattle.ing_shard.specs.declared.listed.StreamFront as front;

    ghost Value = { List front.StreamFront };

    ghost view = { λ fronts. fronts.streams.items };

    ghost invariant = { λ fronts. AreFronts fronts.streams.items };
}

impl Fronts {
    /// Those of a shard as it stands. It takes memory for each stream, and none for entries. `AllocError` where memory runs out.
    pub fn of_shard<R: Receipt>(alloc: Global, shard: &Shard<R>) -> Result<Fronts, AllocError>
        ensures { IfOk result (λ fronts. (s : StreamKey) → front_in fronts s ≡ count_of shard.now.state.rows s) }
    {
        shard.rows_are_listed();
        let mut streams = Vec::with_capacity(alloc, shard.stream_count() as usize)?;
        for number in 0..shard.stream_count() {
            streams.push(front_of(alloc, shard, number)?)?;
        }
        sort(&mut streams);
        Ok(Fronts { streams })
    }

    /// How many entries a stream had, and 0 where it had none. Takes no memory.
    pub fn of(&self, tenant: &Tenant, name: &StreamName) -> u64
        ensures { result ≡ front_in self.now (record { tenant = tenant.now; name = name.now }) }
    {
        let found = self
            .streams
            .binary_search_by(|front| compare(front, tenant, name));
        match found {
            Ok(place) => self.streams[place].front,
            Err(_) => 0,
        }
    }
}

/// The front of the stream of this number, which is listed.
fn front_of<R: Receipt>(
    alloc: Global,
    shard: &Shard<R>,
    number: u64,
) -> Result<StreamFront, AllocError>
    requires { number < length shard.now.listed }
    ensures key { IfOk result (λ front. IfSome (slice_get shard.now.listed number) (λ s. stream_of front ≡ s)) }
    ensures front { IfOk result (λ front. front.front ≡ count_of shard.now.state.rows (stream_of front)) }
{
    match shard.front_of(alloc, StreamNo::new(number))? {
        Some(front) => Ok(front),
        None => unreachable!(),
    }
}

/// How the stream of a front stands to another: by tenant, then by name.
fn compare(front: &StreamFront, tenant: &Tenant, name: &StreamName) -> Ordering
    ensures { result ≡ stream_cmp (stream_of front.now) (record { tenant = tenant.now; name = name.now }) }
{
    (front.tenant.as_str(), front.name.as_str()).cmp(&(tenant.as_str(), name.as_str()))
}

/// Brings fronts into the order in which they are looked up.
fn sort(streams: &mut Vec<StreamFront>)
    ensures same { IsPermutation streams.old.items streams.new.items }
    ensures sorted { IsSortedBy front_before streams.new.items }
{
    streams.sort_unstable_by(|one, other| compare(one, &other.tenant, &other.name));
}
