//! A world, run through a list of events.
ghost use Rattle.std.specs.Prelude.{◌≡◌, [], IfOk, OnOk, List, All};
ghost use Rattle.ing_limits.specs.Ranges.{rules_for};
ghost use Rattle.ing_rows.specs.Kept.{Numbered};
ghost use Rattle.ing_world.specs.Held.{AreHeld, HasRun, HasTurned, IsKept, seen};
ghost use Rattle.ing_world.specs.Turns.{IsShort, Tells};
ghost use Rattle.ing_world.specs.Worlds.{empty_world};

use crate::event::{Outcome, WorldEvent};
use crate::reply::Reply;
use crate::world::World;
use ing_limits::Settings;
use ing_store::{Fuse, MemoryReceipt, MemoryStore};
use std::alloc::{AllocError, Global};
use std::sync::Wait;

/// How the one put of an end goes.
fn fuse_of(outcome: Outcome) -> Fuse {
    match outcome {
        Outcome::Stored => Fuse::None,
        Outcome::Failed => Fuse::Failed(0),
        Outcome::StoredYetFailed => Fuse::StoredYetFailed(0),
    }
}

/// Runs one shard with these settings, over this store, through the events, and gives a reply for each; what is left of it has to
/// be put away. There is one shard, and the canonical name of each stream that is pushed to has fewer than 2^32 bytes. (Own.)
///
/// `AllocError` where memory runs out.
pub fn run_world<'a, W: Wait>(
    rt: &'a W,
    alloc: Global,
    store: &'a MemoryStore,
    settings: Settings,
    events: &[WorldEvent<'_>],
) -> Result<(World<MemoryReceipt<'a>>, Vec<Reply>), AllocError>
    requires one { settings.shards ≡ 1 }
    requires names { All IsShort events.now }
    ensures run { IfOk result (λ ran.
        HasRun (rules_for settings) events.now ran.1.items ran.0) }
    ensures held { IfOk result (λ ran. AreHeld ran.0) }
{
    let mut world = World::new(alloc, settings)?;
    match run_on(&mut world, rt, alloc, store, events) {
        Ok(replies) => Ok((world, replies)),
        Err(error) => {
            world.put_away();
            Err(error)
        }
    }
}

/// Runs a world without entries and tickets through the events.
fn run_on<'a, W: Wait>(
    world: &mut World<MemoryReceipt<'a>>,
    rt: &'a W,
    alloc: Global,
    store: &'a MemoryStore,
    events: &[WorldEvent<'_>],
) -> Result<Vec<Reply>, AllocError>
    requires names { All IsShort events.now }
    requires held { AreHeld world.old }
    requires kept { IsKept world.old [] }
    requires empty { seen world.old [] ≡ empty_world }
    ensures run { IfOk result (λ replies.
        HasRun (rules_for world.old.shard.settings) events.now replies.items world.new) }
    ensures held { AreHeld world.new }
{
    let mut replies = Vec::with_capacity(alloc, events.len())?;
    for event in events {
        let reply = turn(world, rt, alloc, store, event)?;
        replies.push(reply)?;
    }
    Ok(replies)
}

/// Answers one event.
fn turn<'a, W: Wait>(
    world: &mut World<MemoryReceipt<'a>>,
    rt: &'a W,
    alloc: Global,
    store: &'a MemoryStore,
    event: &WorldEvent<'_>,
) -> Result<Reply, AllocError>
    requires name { IsShort event.now }
    requires held { AreHeld world.old }
    ensures turn { IfOk result (λ reply. (accepted : List Numbered) → IsKept world.old accepted →
        HasTurned (rules_for world.old.shard.settings) (Tells event.now)
        reply world.old world.new accepted) }
    ensures held { AreHeld world.new }
    ensures settings { world.new.shard.settings ≡ world.old.shard.settings }
{
    match event {
        WorldEvent::Push {
            tenant,
            labels,
            entries,
            now,
        } => world.push(alloc, tenant, labels, entries, *now),
        WorldEvent::Sweep { now } => world.sweep(alloc, *now),
        WorldEvent::SealAll => world.seal_all(alloc),
        WorldEvent::Claim { stream } => world.claim(alloc, *stream),
        WorldEvent::Put {
            ticket,
            object,
            outcome,
        } => {
            let mut end = store.end(rt, fuse_of(*outcome));
            world.put(alloc, &mut end, *ticket, *object, *outcome)
        }
        WorldEvent::Finish { ticket } => world.finish(*ticket),
        WorldEvent::GiveBack { ticket } => Ok(world.give_back(*ticket)),
        WorldEvent::Query {
            tenant,
            selector,
            question,
        } => {
            let mut end = store.end(rt, Fuse::None);
            world.query(alloc, &mut end, tenant, selector, *question)
        }
        WorldEvent::Checkpoint => Ok(world.checkpoint()),
    }
}
