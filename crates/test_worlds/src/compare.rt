//! Worlds beside the slow program.
use crate::act::{Act, LINES, SETTINGS, labels, tenant};
use crate::slow::{Kept, Slow, Wanted};
use anyhow::{Context, Result, bail};
use ing_limits::Settings;
use ing_parts::Found;
use ing_rows::Verdict;
use ing_store::MemoryStore;
use ing_world::{Reply, names_are_short, run_world};
use std::alloc::Global;
use std::sync::Wait;

/// How often each event and each reply was met.
#[derive(Clone, Copy, Default)]
pub struct Met {
    pushes: u64,
    sweeps: u64,
    seals: u64,
    claims: u64,
    puts: u64,
    finishes: u64,
    give_backs: u64,
    queries: u64,
    checkpoints: u64,
    accepted: u64,
    duplicate: u64,
    line_too_long: u64,
    too_far_behind: u64,
    too_many_streams: u64,
    refused: u64,
    sealed: u64,
    claimed: u64,
    stored: u64,
    failed: u64,
    finished: u64,
    given_back: u64,
    found: u64,
    nothing: u64,
}

fn count(number: &mut u64, more: u64) {
    *number = number.saturating_add(more);
}

impl Met {
    fn act(&mut self, act: Act) {
        match act {
            Act::Push { .. } => count(&mut self.pushes, 1),
            Act::Sweep(_) => count(&mut self.sweeps, 1),
            Act::SealAll => count(&mut self.seals, 1),
            Act::Claim(_) => count(&mut self.claims, 1),
            Act::Put(..) => count(&mut self.puts, 1),
            Act::Finish(_) => count(&mut self.finishes, 1),
            Act::GiveBack(_) => count(&mut self.give_backs, 1),
            Act::Query { .. } => count(&mut self.queries, 1),
            Act::Checkpoint => count(&mut self.checkpoints, 1),
        }
    }

    fn reply(&mut self, reply: &Reply) {
        match reply {
            Reply::Pushed(verdicts) => self.verdicts(verdicts),
            Reply::TooManyEntries | Reply::CounterFull => count(&mut self.refused, 1),
            Reply::Sealed(chunks) => count(&mut self.sealed, *chunks),
            Reply::Claimed(_) => count(&mut self.claimed, 1),
            Reply::Stored => count(&mut self.stored, 1),
            Reply::Failed => count(&mut self.failed, 1),
            Reply::Finished => count(&mut self.finished, 1),
            Reply::GivenBack => count(&mut self.given_back, 1),
            Reply::Found(found) => count(&mut self.found, found.len() as u64),
            Reply::Checkpointed(_) => {}
            Reply::Nothing => count(&mut self.nothing, 1),
        }
    }

    fn verdicts(&mut self, verdicts: &[Verdict]) {
        for verdict in verdicts {
            let met = match verdict {
                Verdict::Accepted { .. } => &mut self.accepted,
                Verdict::Duplicate => &mut self.duplicate,
                Verdict::LineTooLong => &mut self.line_too_long,
                Verdict::TooFarBehind { .. } => &mut self.too_far_behind,
                Verdict::TooManyStreams { .. } => &mut self.too_many_streams,
            };
            count(met, 1);
        }
    }

    /// Prints it.
    pub fn print<R: Print>(&self, rt: &R) -> Result<()> {
        println!(rt;
            "pushes {}, sweeps {}, seals {}, claims {}, puts {}, finishes {}, give backs {}, queries {}, checkpoints {}",
            self.pushes,
            self.sweeps,
            self.seals,
            self.claims,
            self.puts,
            self.finishes,
            self.give_backs,
            self.queries,
            self.checkpoints
        )?;
        println!(rt;
            "accepted {}, duplicate {}, line too long {}, too far behind {}, too many streams {}, refused {}",
            self.accepted,
            self.duplicate,
            self.line_too_long,
            self.too_far_behind,
            self.too_many_streams,
            self.refused
        )?;
        println!(rt;
            "sealed {}, claimed {}, stored {}, failed {}, finished {}, given back {}, found {}, nothing {}",
            self.sealed,
            self.claimed,
            self.stored,
            self.failed,
            self.finished,
            self.given_back,
            self.found,
            self.nothing
        )?;
        Ok(())
    }
}

/// What was found, told as the slow program tells it.
fn told(alloc: Global, found: &[Found]) -> Result<Vec<Kept>> {
    let mut names = Vec::new(alloc);
    for stream in 0..3 {
        names.push(labels(alloc, stream)?)?;
    }
    let mut told = Vec::new(alloc);
    for one in found {
        let name = one.name.as_str();
        let stream = names.iter().position(|labels| labels.name() == name);
        let text = one.entry.line.as_str();
        let line = LINES.iter().position(|line| *line == text);
        told.push((
            one.entry.stamp.nanoseconds(),
            stream.context("a stream")?,
            one.number,
            line.context("a line")?,
        ))?;
    }
    Ok(told)
}

/// Whether a reply is what has to be answered.
fn is_as(alloc: Global, reply: &Reply, wanted: &Wanted) -> Result<bool> {
    Ok(match (reply, wanted) {
        (Reply::Pushed(verdicts), Wanted::Pushed(judged)) => verdicts.as_slice()
            == judged.as_slice(),
        (Reply::TooManyEntries, Wanted::TooManyEntries) => true,
        (Reply::Sealed(chunks), Wanted::Sealed(sealed)) => chunks == sealed,
        (Reply::Claimed(first), Wanted::Claimed(claimed)) => first == claimed,
        (Reply::Stored, Wanted::Stored) => true,
        (Reply::Failed, Wanted::Failed) => true,
        (Reply::Finished, Wanted::Finished) => true,
        (Reply::GivenBack, Wanted::GivenBack) => true,
        (Reply::Found(found), Wanted::Found(kept)) => told(alloc, found)?.as_slice()
            == kept.as_slice(),
        (Reply::Checkpointed(published), Wanted::NoCheckpoint) => !*published,
        (Reply::Nothing, Wanted::Nothing) => true,
        _ => false,
    })
}

/// Whether a world answers otherwise than the slow program, or has other gauges in the end.
pub fn differs<R: AllocGlobal + Wait>(rt: &R, acts: &[Act], met: &mut Met) -> Result<bool> {
    let alloc = rt.alloc();
    let store = MemoryStore::new(alloc)?;
    let mut events = Vec::new(alloc);
    for act in acts {
        events.push(act.event(alloc)?)?;
    }
    if !names_are_short(&events) {
        bail!("a name is too long");
    }
    let settings = Settings::from_toml(alloc, SETTINGS)?;
    if settings.shards() != 1 {
        bail!("the settings are not of one shard");
    }
    let one = tenant(alloc, 0)?;
    let other = tenant(alloc, 1)?;
    let (world, replies) = run_world(rt, alloc, &store, settings, &events)?;
    let gauges = (world.gauges(&one), world.gauges(&other));
    world.put_away();
    let mut slow = Slow::new(alloc)?;
    for (act, reply) in acts.iter().zip(&replies) {
        met.act(*act);
        met.reply(reply);
        if !is_as(alloc, reply, &slow.answer(*act)?)? {
            return Ok(true);
        }
    }
    Ok(replies.len() != acts.len() || gauges != (slow.gauges(0)?, slow.gauges(1)?))
}

/// Whether a world answers otherwise, or has other gauges, after any of these events.
pub fn differs_on_the_way<R: AllocGlobal + Wait>(rt: &R, acts: &[Act]) -> Result<bool> {
    for count in 0..acts.len() {
        if differs(rt, &acts[..count], &mut Met::default())? {
            return Ok(true);
        }
    }
    Ok(false)
}

/// A list that differs yet, of which no event more can be left out alone.
pub fn shortened<R: AllocGlobal + Wait>(rt: &R, acts: Vec<Act>) -> Result<Vec<Act>> {
    let mut left = acts;
    let mut met = Met::default();
    for at in (0..left.len()).rev() {
        let mut fewer = Vec::new(rt.alloc());
        for (index, act) in left.iter().enumerate() {
            if index != at {
                fewer.push(*act)?;
            }
        }
        if differs(rt, &fewer, &mut met)? {
            left = fewer;
        }
    }
    Ok(left)
}
