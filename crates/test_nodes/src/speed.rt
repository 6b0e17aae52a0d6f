//! How fast pushes are through the locks.
ghost use Rattle.std.specs.Prelude.{◌≡◌, ◌<◌, reverse, true};
ghost use Rattle.ing_node.specs.Earlier.{earlier_of};
ghost use Rattle.ing_node.specs.Names.{AreNamed};

use crate::kept_end::Object;
use crate::life::{all_done, closed, fresh, hands_of, opened, settings_of, work};
use crate::plan::{Plan, Task};
use anyhow::{Result, bail};
use ing_node::{NodeName, Shards};
use ing_wal::NoLog;
use std::alloc::{AllocError, Global};
use std::io::Print;
use std::marker::Brand;
use std::rt::Clock;
use std::sync::Wait;
use std::thread::Threads;
use std::time::Instant;

/// How often each number of threads is tried.
const TRIES: u32 = 5;

/// Prints how many entries a second 1, 2 and 4 threads push to four shards, of so many entries in all, at the fastest of five tries.
/// Each push has one entry, and each thread streams of its own.
pub fn speed<R: AllocGlobal + Threads + Wait + Sync + Clock + Print>(
    rt: &R,
    entries: u64,
) -> Result<()> {
    for threads in [1usize, 2, 4] {
        let mut least = u128::MAX;
        for _ in 0..TRIES {
            least = least.min(time_of(rt, threads, entries)?);
        }
        let rate = (u128::from(entries) * 1_000_000_000)
            .checked_div(least)
            .unwrap_or(0);
        println!(rt; "threads {threads}: {rate} entries/s")?;
    }
    Ok(())
}

/// How long so many threads push so many entries, in nanoseconds.
fn time_of<R: AllocGlobal + Threads + Wait + Sync + Clock>(
    rt: &R,
    threads: usize,
    entries: u64,
) -> Result<u128> {
    let plans = loads(rt.alloc(), threads, entries)?;
    let shards = fresh(rt.alloc(), "shards = 4\n")?;
    let (nanoseconds, accepted) = load::<Brand, R>(rt, rt.alloc(), shards, &plans)?;
    if accepted != entries {
        bail!("{accepted} of {entries} entries are accepted");
    }
    Ok(nanoseconds)
}

/// The plans of so many hands that push so many entries, each as many.
fn loads(alloc: Global, threads: usize, entries: u64) -> Result<Vec<Plan>, AllocError> {
    let turns = entries.checked_div(threads as u64).unwrap_or(0);
    let mut plans = Vec::new(alloc);
    for first in 0..threads {
        plans.push(Plan {
            task: Task::Load {
                first,
                step: threads,
            },
            turns,
            lots: 0,
            odds: 0,
            diary: false,
            timed: false,
        })?;
    }
    Ok(plans)
}

/// How long the hands of an ingester of these shards work, in nanoseconds, and how many entries it then reports as accepted.
fn load<N: NodeName + Send + Sync, R: Threads + Wait + Sync + Clock>(
    rt: &R,
    alloc: Global,
    shards: Shards<NoLog, Object>,
    plans: &[Plan],
) -> Result<(u128, u64)>
    requires settings { shards.settings ≡ N.settings }
    requires named { AreNamed N.books (reverse shards.last_first.items) }
    requires earlier { N.earlier ≡ earlier_of (reverse shards.last_first.items) }
    requires logs { N.has_logs ≡ true }
{
    let settings = match settings_of(&shards) {
        Ok(settings) => settings,
        Err(fault) => {
            shards.abandon();
            return Err(fault.into());
        }
    };
    let (node, earlier) = opened::<N>(alloc, shards)?;
    let mut hands = match hands_of(rt, alloc, &settings, &node, plans) {
        Ok(hands) => hands,
        Err(fault) => {
            earlier.strand();
            return Err(fault.into());
        }
    };
    let start = Instant::now(rt);
    work(rt, alloc, &node, hands.as_mut_slice(), plans.len().max(1));
    let end = Instant::now(rt);
    let done = all_done(&hands);
    let (report, _) = closed(alloc, node, earlier, hands)?;
    if let Some(fault) = done.fault {
        return Err(fault.into());
    }
    let mut accepted = 0u64;
    for shard in &report.shards {
        accepted = accepted.saturating_add(shard.accepted);
    }
    Ok((end?.duration_since(start?).as_nanos(), accepted))
}
