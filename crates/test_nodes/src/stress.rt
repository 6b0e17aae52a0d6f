//! Lives by lot, behind two that are fixed.
use crate::done::Done;
use crate::fault::LifeFault;
use crate::fixed::{a_refused_call_loses_nothing, two_push_beside_one_who_flushes};
use crate::life::live;
use crate::lots::Lots;
use crate::plan::{Plan, Task};
use anyhow::{Context, Result};
use std::alloc::{AllocError, Global};
use std::io::Print;
use std::rt::Clock;
use std::sync::Wait;
use std::thread::Threads;
use std::time::Instant;

/// Three shards, a short queue, small blocks and chunks, and short times.
const SETTINGS: &str =
    "shards = 3\ndiaries = true\nflush_queue_length = 4\nchunk_block_size = 40\nchunk_target_size = 100\nchunk_idle_period = \"12ns\"\nmax_chunk_age = \"40ns\"\nmax_line_size = 5\n";

/// What is printed.
#[derive(Clone, Copy, Debug, PartialEq, Eq)]
pub enum Show {
    /// What does not vary from run to run.
    Counts,
    /// All.
    All,
}

/// Lives the fixed lives, then so many by lot, and prints what was done in these.
pub fn stress<R: AllocGlobal + Threads + Wait + Sync + Clock + Print>(
    rt: &R,
    show: Show,
    rounds: u64,
) -> Result<()> {
    two_push_beside_one_who_flushes(rt, rt.alloc()).context("two who push")?;
    a_refused_call_loses_nothing(rt, rt.alloc()).context("a short life")?;
    let start = Instant::now(rt)?;
    let mut all = Done::default();
    let mut hands = 0u64;
    for round in 0..rounds {
        let plans = drawn(rt.alloc(), round)?;
        let done = lived(rt, rt.alloc(), &plans).context("a life")?;
        hands = hands.saturating_add(plans.len() as u64);
        all.add(&done);
    }
    let Done {
        pushed,
        accepted,
        chunks,
        queued,
        stored,
        failed,
        nothing,
        queries,
        readings,
        fault: _,
    } = all;
    println!(rt; "{rounds} lives of {hands} hands, {pushed} entries pushed, every life closed")?;
    if show == Show::All {
        let seconds = start.elapsed(rt)?.as_secs();
        println!(rt;
            "accepted {accepted}, {chunks} chunks stored, {queued} of them by the queue, {stored} entries in the others, flushes failed {failed}, came late {nothing}, queries {queries}, readings {readings}, seconds {seconds}"
        )?;
    }
    Ok(())
}

/// What was done in a life, which closed with what was counted.
fn lived<R: Threads + Wait + Sync + Clock>(
    rt: &R,
    alloc: Global,
    plans: &[Plan],
) -> Result<Done, LifeFault> {
    let life = live(rt, alloc, SETTINGS, plans, 8)?;
    life.check()?;
    Ok(life.done)
}

/// The plans of the hands of a life: one to three that push, one or two that flush, one that queries, one that sweeps into a queue
/// which two flushers work off, and one that reads the counts without a lock.
fn drawn(alloc: Global, round: u64) -> Result<Vec<Plan>, AllocError> {
    let mut lots = Lots::of(round);
    let mut plans = Vec::new(alloc);
    let odds = lots.below(6);
    let diary = lots.below(2) == 0;
    let tasks = [
        (Task::Push, 3),
        (Task::FlushOne, 2),
        (Task::Query, 1),
        (Task::Sweep, 1),
        (Task::Read, 1),
    ];
    for (task, most) in tasks {
        for _ in 0..=lots.below(most) {
            plans.push(Plan {
                task,
                turns: lots.below(100),
                lots: lots.below(1 << 40),
                odds,
                diary,
                timed: false,
            })?;
        }
    }
    Ok(plans)
}
