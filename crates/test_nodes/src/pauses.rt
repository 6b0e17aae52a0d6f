//! How long a push takes while another thread flushes, and how long the counts of a shard take to read while others push.
ghost use Rattle.std.specs.Prelude.{◌≡◌, reverse, true};
ghost use Rattle.ing_node.specs.Earlier.{earlier_of};
ghost use Rattle.ing_node.specs.Names.{AreNamed};

use crate::hand::Hand;
use crate::kept_end::Object;
use crate::life::{all_done, closed, fresh, hands_of, opened, settings_of, work};
use crate::plan::{Plan, Task};
use anyhow::{Result, bail};
use ing_node::{NodeName, Shards};
use ing_wal::NoLog;
use std::alloc::Global;
use std::io::Print;
use std::marker::Brand;
use std::rt::Clock;
use std::sync::Wait;
use std::thread::Threads;

/// The settings of the shard that is pushed to, whose chunks are soon full.
const SETTINGS: &str = "chunk_block_size = 4096\nchunk_target_size = 16384\n";

/// How often the counts are read in a turn.
const READINGS: u64 = 1000;

/// Prints how long so many pushes of one entry take, alone and while another thread seals and flushes, and how long a reading of the
/// counts takes beside them, without the lock and with it.
pub fn pauses<R: AllocGlobal + Threads + Wait + Sync + Clock + Print>(
    rt: &R,
    pushes: u64,
) -> Result<()> {
    let push = plan(Task::Load { first: 0, step: 1 }, pushes, true);
    let flush = plan(Task::FlushUntil { accepted: pushes }, u64::MAX, false);
    let quiet = plan(Task::Load { first: 0, step: 1 }, pushes, false);
    let turns = pushes.checked_div(READINGS).unwrap_or(0);
    let read = plan(Task::ReadOften { times: READINGS }, turns, true);
    let ask = plan(Task::AskOften { times: READINGS }, turns, true);
    let by = READINGS;
    show(rt, "a push, alone", 1, &times_of(rt, &[push])?)?;
    show(
        rt,
        "a push beside a flusher",
        1,
        &times_of(rt, &[push, flush])?,
    )?;
    show(
        rt,
        "a reading without the lock beside a pusher",
        by,
        &times_of(rt, &[read, quiet])?,
    )?;
    show(
        rt,
        "gauges under the lock beside a pusher",
        by,
        &times_of(rt, &[ask, quiet])?,
    )?;
    Ok(())
}

/// What a hand is to do so many times.
fn plan(task: Task, turns: u64, timed: bool) -> Plan {
    Plan {
        task,
        turns,
        lots: 0,
        odds: 0,
        diary: false,
        timed,
    }
}

/// Prints the middle one of some times, the one of a hundred that is longest, and the longest, each by so many.
fn show<R: AllocGlobal + Print>(rt: &R, what: &str, by: u64, times: &[u64]) -> Result<()> {
    let mut sorted = times.to_vec(rt.alloc())?;
    sorted.sort()?;
    let at = |part: usize| -> u64 {
        let place = sorted.len().saturating_sub(1).saturating_mul(part) / 100;
        sorted.get(place).copied().unwrap_or(0)
    };
    let longest = sorted.last().copied().unwrap_or(0);
    let (middle, late) = (at(50), at(99));
    println!(rt;
        "{what}: p50 {} ns, p99 {} ns, longest {} ns",
        middle / by.max(1),
        late / by.max(1),
        longest / by.max(1)
    )?;
    Ok(())
}

/// How long each turn of the first of these hands took.
fn times_of<R: AllocGlobal + Threads + Wait + Sync + Clock>(
    rt: &R,
    plans: &[Plan],
) -> Result<Vec<u64>> {
    let shards = fresh(rt.alloc(), SETTINGS)?;
    lived::<Brand, R>(rt, rt.alloc(), shards, plans)
}

/// The whole life of an ingester with these hands, each in a thread.
fn lived<N: NodeName + Send + Sync, R: Threads + Wait + Sync + Clock>(
    rt: &R,
    alloc: Global,
    shards: Shards<NoLog, Object>,
    plans: &[Plan],
) -> Result<Vec<u64>>
    requires settings { shards.settings ≡ N.settings }
    requires named { AreNamed N.books (reverse shards.last_first.items) }
    requires earlier { N.earlier ≡ earlier_of (reverse shards.last_first.items) }
    requires logs { N.has_logs ≡ true }
{
    let settings = match settings_of(&shards) {
        Ok(settings) => settings,
        Err(fault) => {
            shards.abandon();
            return Err(fault.into());
        }
    };
    let (node, earlier) = opened::<N>(alloc, shards)?;
    let mut hands = match hands_of(rt, alloc, &settings, &node, plans) {
        Ok(hands) => hands,
        Err(fault) => {
            earlier.strand();
            return Err(fault.into());
        }
    };
    work(rt, alloc, &node, hands.as_mut_slice(), plans.len().max(1));
    let done = all_done(&hands);
    let times = first_times(alloc, &hands);
    let _report = closed(alloc, node, earlier, hands)?;
    match done.fault {
        Some(fault) => Err(fault.into()),
        None => times,
    }
}

/// How long each turn of the first hand took.
fn first_times<N: NodeName + Send + Sync>(alloc: Global, hands: &[Hand<N>]) -> Result<Vec<u64>> {
    match hands.first() {
        Some(hand) => Ok(hand.times().to_vec(alloc)?),
        None => bail!("no hand"),
    }
}
