//! Streams by lot against the digest, and what a slot keeps.
ghost use Rattle.std.specs.Prelude.{◌<◌};

use crate::places::{Places, slot_and_mark};
use crate::slot::Slot;
use ing_rows::{Tenant, shard_of};
use std::alloc::Global;
use std::process::Abort;
use std::test::Fail;

const TENANTS: [&str; 3] = ["t", "tenant-2", "another.tenant"];

#[derive(Drop)]
struct Stream {
    tenant: Tenant,
    name: String,
}

/// A stream for each number.
fn numbered(alloc: Global, number: u64) -> Result<Stream, Fail> {
    let tenant = Tenant::of_text(alloc, TENANTS[(number % 3) as usize])?;
    let name = format!(in alloc; "{{app=\"web\", host=\"host-{number}\", region=\"north\"}}")?;
    Ok(Stream { tenant, name })
}

/// Streams by lot (xorshift of 64 bits).
fn drawn(alloc: Global, count: usize) -> Result<Vec<Stream>, Fail> {
    let mut streams = Vec::new(alloc);
    let mut state: u64 = 88172645463325252;
    for _ in 0..count {
        state ^= state << 13;
        state ^= state >> 7;
        state ^= state << 17;
        streams.push(numbered(alloc, state)?)?;
    }
    Ok(streams)
}

/// Another stream with the slot of this one.
fn beside(alloc: Global, one: &Stream) -> Result<Stream, Fail> {
    let (slot, _) = slot_and_mark(&one.tenant, one.name.as_str());
    for number in 0..200_000 {
        let other = numbered(alloc, number)?;
        let (other_slot, _) = slot_and_mark(&other.tenant, other.name.as_str());
        if other_slot == slot && other.name != one.name {
            return Ok(other);
        }
    }
    Err(Fail::from("no other stream has this slot"))
}

/// Asks for the place of a stream, which the digest gives too.
fn ask<R: Abort>(rt: &R, places: &mut Places, stream: &Stream, shards: u32)
    requires { 0 < shards }
{
    let (tenant, name) = (&stream.tenant, stream.name.as_str());
    assert_eq!(rt; places.of(tenant, name), shard_of(tenant, name, shards));
}

#[test]
fn places_are_as_by_the_digest(rt: HostRuntime) -> Result<(), Fail> {
    let streams = drawn(rt.alloc(), 48)?;
    let one = numbered(rt.alloc(), 1)?;
    let two = beside(rt.alloc(), &one)?;
    for shards in [1, 2, 4, 7] {
        let mut places = Places::new(rt.alloc(), shards)?;
        for _ in 0..2 {
            for stream in &streams {
                ask(&rt, &mut places, &one, shards);
                ask(&rt, &mut places, stream, shards);
                ask(&rt, &mut places, &two, shards);
            }
        }
    }
    Ok(())
}

#[test]
fn a_slot_keeps_a_stream(rt: HostRuntime) -> Result<(), Fail> {
    let alloc = rt.alloc();
    let (one, two) = (Tenant::of_text(alloc, "t")?, Tenant::of_text(alloc, "u")?);
    let mut slot = Slot::new(alloc);
    assert_eq!(rt; slot.kept(&one, "{a=\"1\"}"), None);
    let place = slot.of(&one, "{a=\"1\"}", 1, 4);
    assert_eq!(rt; slot.kept(&one, "{a=\"1\"}"), Some(place));
    assert_eq!(rt; slot.kept(&two, "{a=\"1\"}"), None);
    assert_eq!(rt; slot.kept(&one, "{a=\"2\"}"), None);
    // Another takes its place once it is asked for twice in turn.
    let _ = slot.of(&two, "{a=\"1\"}", 2, 4);
    assert_eq!(rt; slot.of(&one, "{a=\"1\"}", 1, 4), place);
    let _ = slot.of(&two, "{a=\"1\"}", 2, 4);
    assert_eq!(rt; slot.kept(&one, "{a=\"1\"}"), Some(place));
    let place = slot.of(&two, "{a=\"1\"}", 2, 4);
    assert_eq!(rt; slot.kept(&two, "{a=\"1\"}"), Some(place));
    assert_eq!(rt; slot.kept(&one, "{a=\"1\"}"), None);
    Ok(())
}
