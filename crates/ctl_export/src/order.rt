//! In which order the streams of a shard are exported.
ghost use Rattle.std.specs.Prelude.{◌≡◌, IfOk, IsPermutation, length, map};
ghost use Rattle.ctl_export.specs.Orders.{number_in, numbers_below};

use ing_durable::{Shard, StreamNo};
use ing_parts::StreamName;
use ing_rows::Tenant;
use ing_store::Receipt;
use std::alloc::{AllocError, Global};
use std::cmp::Ordering;

/// A stream, and its number in the shard.
#[derive(Drop)]
struct Place {
    tenant: Tenant,
    name: StreamName,
    number: u64,
}

/// The numbers of the streams of a shard, each once, by tenant and name in byte order: so they come
/// in the same order whether the shard was made again or not. It fails only where memory runs out.
/// (Own.)
pub fn streams_in_order<R: Receipt>(alloc: Global, shard: &Shard<R>) -> Result<Vec<u64>, AllocError>
    ensures { IfOk result (λ order.
        IsPermutation (numbers_below (length shard.now.listed)) order.items) }
{
    let mut places = Vec::new(alloc);
    for number in 0..shard.stream_count() {
        match shard.listed(alloc, StreamNo::new(number))? {
            Some(listed) => places.push(Place {
                tenant: listed.tenant,
                name: listed.name,
                number,
            })?,
            None => unreachable!(),
        }
    }
    numbers_in_order(alloc, places)
}

/// The numbers of streams by tenant and name.
fn numbers_in_order(alloc: Global, places: Vec<Place>) -> Result<Vec<u64>, AllocError>
    ensures { IfOk result (λ order. IsPermutation (map number_in places.items) order.items) }
{
    let mut places = places;
    places.sort_unstable_by(|one, other| compare(one, other));
    let mut order = Vec::with_capacity(alloc, places.len())?;
    for place in places {
        order.push(place.number)?;
    }
    Ok(order)
}

/// How one stands to another: by tenant, then by name.
fn compare(one: &Place, other: &Place) -> Ordering {
    let key = (one.tenant.as_str(), one.name.as_str());
    key.cmp(&(other.tenant.as_str(), other.name.as_str()))
}
