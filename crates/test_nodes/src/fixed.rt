//! Lives whose plans are fixed: two who push beside one who flushes and one who reads the counts, and a short one.
use crate::fault::LifeFault;
use crate::life::{Life, live};
use crate::plan::{Plan, STREAMS, Task};
use std::alloc::Global;
use std::rt::Clock;
use std::sync::Wait;
use std::thread::Threads;

/// Several shards, and small blocks and chunks.
const SETTINGS: &str =
    "shards = 3\ndiaries = true\nchunk_block_size = 200\nchunk_target_size = 800\n";

/// How many entries each of the two pushes.
const PUSHES: u64 = 200;

/// How often the counts are read.
const READINGS: u64 = 1000;

fn plan(task: Task, turns: u64) -> Plan {
    Plan {
        task,
        turns,
        lots: 0,
        odds: 0,
        diary: true,
        timed: false,
    }
}

/// Whichever thread comes first: what both pushed is found in the order of its stamps, all of it is accepted, each entry is stored
/// or kept, and what is read without a lock is never less than who reads was told.
pub fn two_push_beside_one_who_flushes<R: Threads + Wait + Sync + Clock>(
    rt: &R,
    alloc: Global,
) -> Result<(), LifeFault> {
    let plans = [
        plan(Task::Count { stream: 0 }, PUSHES),
        plan(Task::Count { stream: 1 }, PUSHES),
        plan(Task::Flush, PUSHES),
        plan(Task::Read, READINGS),
    ];
    let life = live(rt, alloc, SETTINGS, &plans, plans.len())?;
    life.check()?;
    if !is_in_turn(&life, alloc)? {
        return Err(LifeFault::NotFound);
    }
    if life.done.accepted != 2 * PUSHES || life.done.readings != 3 * (READINGS + 2 * PUSHES) {
        return Err(LifeFault::Report);
    }
    Ok(())
}

/// Whether the entries that were found are those of both, in turn, each in the order in which it was pushed.
fn is_in_turn(life: &Life, alloc: Global) -> Result<bool, LifeFault> {
    if life.answer.entries.len() as u64 != 2 * PUSHES {
        return Ok(false);
    }
    for (at, found) in life.answer.entries.iter().enumerate() {
        let line = format!(in alloc; "{}{}", STREAMS[at % 2], at / 2)?;
        if found.entry.line.as_str() != line.as_str() {
            return Ok(false);
        }
    }
    Ok(true)
}

/// One allocation at most is refused in a run (`rt try --fail-alloc N`): the life goes on as if none had been, since each call that
/// was refused succeeds when it is made again, and no share is lost on the way.
pub fn a_refused_call_loses_nothing<R: Threads + Wait + Sync + Clock>(
    rt: &R,
    alloc: Global,
) -> Result<(), LifeFault> {
    let plans = [
        plan(Task::Count { stream: 0 }, 3),
        plan(Task::Flush, 1),
        plan(Task::Query, 1),
    ];
    let life = live(rt, alloc, SETTINGS, &plans, 1)?;
    life.check()?;
    if life.done.accepted != 3 || life.done.stored != 3 {
        return Err(LifeFault::Report);
    }
    Ok(())
}
