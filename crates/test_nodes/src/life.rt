//! The whole life of an ingester.
ghost use Rattle.std.specs.Prelude.{◌≡◌, ◌<◌, ◌≤◌, ◌+◌, All, IfErr, IfOk, reverse, true, vec_len, vec_capacity};
ghost use Rattle.ing_node.specs.Earlier.{earlier_of};
ghost use Rattle.ing_node.specs.Names.{AreNamed, IsTallyOf};

use crate::done::Done;
use crate::fault::LifeFault;
use crate::hand::Hand;
use crate::kept_end::{KeptEnd, Object};
use crate::lots::Lots;
use crate::plan::Plan;
use ing_flush::FlusherTally;
use ing_limits::Settings;
use ing_node::{Answer, CloseFault, Closed, Earlier, Ingester, NodeName, Pusher, Report, Shards};
use ing_refusals::Refusal;
use ing_tally::Counts;
use ing_wal::NoLog;
use std::alloc::{AllocError, Global};
use std::marker::Brand;
use std::rt::Clock;
use std::sync::Wait;
use std::thread::{Threads, for_each_mut};

/// What a life of an ingester left.
#[derive(Drop)]
pub struct Life {
    /// The answer to a query for all entries, once the hands were done.
    pub answer: Answer,
    /// What the hands were told of each shard, by number.
    pub told: Vec<u64>,
    /// What each shard counts, read without a lock once the hands were done, by number.
    pub board: Vec<Counts>,
    /// What the hands have done.
    pub done: Done,
    /// What the close reports.
    pub report: Report,
    /// Why the close before it was refused, over an end of the store that gives no bytes.
    pub refused: Option<Refusal>,
    /// Whether each hand kept a diary.
    pub diaries: bool,
}

impl Life {
    /// Whether each hand came to its end, the report is what was counted, of each shard and in all, each entry that was accepted was
    /// found, and the first close was refused where it had to be.
    pub fn check(&self) -> Result<(), LifeFault> {
        if let Some(fault) = self.done.fault {
            return Err(fault);
        }
        if self.report.shards.len() != self.told.len() {
            return Err(LifeFault::Report);
        }
        self.check_board()?;
        let (mut accepted, mut stored) = (0u64, 0u64);
        for (shard, told) in self.report.shards.iter().zip(&self.told) {
            if shard.accepted != *told
                || shard.accepted != shard.stored.saturating_add(shard.kept)
            {
                return Err(LifeFault::Report);
            }
            accepted = accepted.saturating_add(shard.accepted);
            stored = stored.saturating_add(shard.stored);
        }
        if accepted != self.done.accepted || !self.has_stored(stored) {
            return Err(LifeFault::Report);
        }
        if self.answer.entries.len() as u64 != accepted {
            return Err(LifeFault::NotFound);
        }
        self.check_refused()
    }

    /// Whether so many entries may be stored: as many as the hands counted, and an entry at least more for each chunk whose entries
    /// were not.
    fn has_stored(&self, stored: u64) -> bool {
        match self.done.queued {
            0 => stored == self.done.stored,
            queued => stored >= self.done.stored.saturating_add(queued),
        }
    }

    /// Whether what is read of each shard without a lock is what is reported of it.
    fn check_board(&self) -> Result<(), LifeFault> {
        if self.board.len() != self.report.shards.len() {
            return Err(LifeFault::Board);
        }
        for (counts, shard) in self.board.iter().zip(&self.report.shards) {
            if counts.accepted != shard.accepted || counts.stored != shard.stored {
                return Err(LifeFault::Board);
            }
        }
        Ok(())
    }

    /// Whether the close over an end that gives no bytes was refused exactly where a stored entry had to be read for the diaries.
    fn check_refused(&self) -> Result<(), LifeFault> {
        let reads = self.diaries && self.done.chunks > 0;
        match self.refused {
            Some(Refusal::StoreFault) if reads => Ok(()),
            None if !reads => Ok(()),
            _ => Err(LifeFault::Report),
        }
    }
}

/// The parts of an ingester's hands.
struct Parts<N: NodeName> {
    pushers: Vec<Pusher<N>>,
    tallies: Vec<FlusherTally>,
    ghost own: { All (IsTallyOf N.settings.shards N.books) tallies.items },
}

/// A life of an ingester with these settings: each hand works in a thread of its own, of at most so many, then one asks for all
/// entries, and the ingester is closed. Of each call that memory is refused to it tries a second.
pub fn live<W: Threads + Wait + Sync + Clock>(
    rt: &W,
    alloc: Global,
    settings: &str,
    plans: &[Plan],
    threads: usize,
) -> Result<Life, LifeFault>
    requires { 0 < threads }
{
    let shards = match fresh(alloc, settings) {
        Err(LifeFault::NoMemory) => fresh(alloc, settings)?,
        shards => shards?,
    };
    whole_life::<Brand, W>(rt, alloc, shards, plans, threads)
}

/// Shards with these settings, without logs.
pub fn fresh(alloc: Global, settings: &str) -> Result<Shards<NoLog, Object>, LifeFault> {
    let settings = Settings::from_toml(alloc, settings)?;
    let logs = no_logs(alloc, settings.shards())?;
    match Shards::fresh(alloc, settings, logs) {
        Ok(shards) => Ok(shards),
        Err(_) => Err(LifeFault::NoMemory),
    }
}

/// So many logs that are none.
fn no_logs(alloc: Global, count: u32) -> Result<Vec<NoLog>, AllocError>
    ensures { IfOk result (λ logs. vec_len logs ≡ count) }
{
    let mut logs = Vec::with_capacity(alloc, count as usize)?;
    for _ in 0..count {
        logs.push(NoLog::new())?;
    }
    Ok(logs)
}

fn whole_life<N: NodeName + Send + Sync, W: Threads + Wait + Sync + Clock>(
    rt: &W,
    alloc: Global,
    shards: Shards<NoLog, Object>,
    plans: &[Plan],
    threads: usize,
) -> Result<Life, LifeFault>
    requires settings { shards.settings ≡ N.settings }
    requires named { AreNamed N.books (reverse shards.last_first.items) }
    requires earlier { N.earlier ≡ earlier_of (reverse shards.last_first.items) }
    requires logs { N.has_logs ≡ true }
    requires threads { 0 < threads }
{
    let settings = match settings_of(&shards) {
        Ok(settings) => settings,
        Err(fault) => {
            shards.abandon();
            return Err(fault);
        }
    };
    let count = settings.shards();
    let (node, earlier) = opened::<N>(alloc, shards)?;
    let mut hands = match hands_of(rt, alloc, &settings, &node, plans) {
        Ok(hands) => hands,
        Err(fault) => {
            earlier.strand();
            return Err(fault);
        }
    };
    work(rt, alloc, &node, hands.as_mut_slice(), threads);
    let board = board(alloc, &mut hands);
    let found = found(rt, alloc, &node, &mut hands);
    let told = told(alloc, count, &hands);
    let done = all_done(&hands);
    let (report, refused) = closed(alloc, node, earlier, hands)?;
    Ok(Life {
        answer: found?,
        told: told?,
        board: board?,
        done,
        report,
        refused,
        diaries: plans.iter().all(|plan| plan.diary),
    })
}

/// A copy of the settings of shards.
pub fn settings_of(shards: &Shards<NoLog, Object>) -> Result<Settings, LifeFault>
    ensures { IfOk result (λ settings. settings ≡ shards.now.settings) }
{
    match shards.settings().try_clone() {
        Ok(settings) => Ok(settings),
        Err(AllocError) => Ok(shards.settings().try_clone()?),
    }
}

/// The ingester of these shards, and what they began with.
pub fn opened<N: NodeName + Send + Sync>(
    alloc: Global,
    shards: Shards<NoLog, Object>,
) -> Result<(Ingester<N, NoLog, Object>, Earlier<N>), LifeFault>
    requires settings { shards.settings ≡ N.settings }
    requires named { AreNamed N.books (reverse shards.last_first.items) }
    requires earlier { N.earlier ≡ earlier_of (reverse shards.last_first.items) }
    requires logs { N.has_logs ≡ true }
{
    let shards = match Ingester::open(alloc, shards) {
        Ok(opened) => return Ok(opened),
        Err(shards) => shards,
    };
    match Ingester::open(alloc, shards) {
        Ok(opened) => Ok(opened),
        Err(shards) => {
            shards.abandon();
            Err(LifeFault::NoMemory)
        }
    }
}

/// Room for so many.
fn room<T>(alloc: Global, count: usize) -> Result<Vec<T>, AllocError>
    ensures empty { IfOk result (λ list. vec_len list ≡ 0) }
    ensures room { IfOk result (λ list. count ≤ vec_capacity list) }
{
    match Vec::with_capacity(alloc, count) {
        Ok(list) => Ok(list),
        Err(AllocError) => Vec::with_capacity(alloc, count),
    }
}

/// The hands of an ingester, one for each plan.
pub fn hands_of<N: NodeName + Send + Sync, W: Wait>(
    rt: &W,
    alloc: Global,
    settings: &Settings,
    node: &Ingester<N, NoLog, Object>,
    plans: &[Plan],
) -> Result<Vec<Hand<N>>, LifeFault>
    requires { settings.now ≡ N.settings }
{
    let mut hands = room(alloc, plans.len())?;
    while hands.len() < plans.len() {
        let plan = plans[hands.len()];
        let hand = match Hand::new(rt, alloc, settings, node, plan) {
            Err(LifeFault::NoMemory) => Hand::new(rt, alloc, settings, node, plan),
            hand => hand,
        };
        match hand {
            Ok(hand) => hands.push_reserved(hand),
            Err(fault) => {
                strand_all(hands);
                return Err(fault);
            }
        }
    }
    Ok(hands)
}

/// Gives the shares of all hands up.
fn strand_all<N: NodeName + Send + Sync>(mut hands: Vec<Hand<N>>) {
    while let Some(hand) = hands.pop() {
        hand.strand();
    }
    hands.destroy_empty();
}

/// Each hand works, in at most so many threads.
pub fn work<N: NodeName + Send + Sync, W: Threads + Wait + Sync + Clock>(
    rt: &W,
    alloc: Global,
    node: &Ingester<N, NoLog, Object>,
    hands: &mut [Hand<N>],
    threads: usize,
)
    requires { 0 < threads }
{
    let work = |_: usize, hand: &mut Hand<N>| hand.work(rt, alloc, node);
    for_each_mut(rt, hands, threads, &work);
}

/// What one of the hands finds.
fn found<N: NodeName + Send + Sync, W: Wait>(
    rt: &W,
    alloc: Global,
    node: &Ingester<N, NoLog, Object>,
    hands: &mut Vec<Hand<N>>,
) -> Result<Answer, LifeFault> {
    let hand = hands.first_mut().ok_or(LifeFault::Text)?;
    match hand.found(rt, alloc, node) {
        Err(LifeFault::NoMemory) => hand.found(rt, alloc, node),
        answer => answer,
    }
}

/// What one of the hands reads of each shard without a lock.
fn board<N: NodeName + Send + Sync>(
    alloc: Global,
    hands: &mut Vec<Hand<N>>,
) -> Result<Vec<Counts>, LifeFault> {
    let hand = hands.first_mut().ok_or(LifeFault::Text)?;
    match hand.board(alloc) {
        Err(LifeFault::NoMemory) => hand.board(alloc),
        board => board,
    }
}

/// What the hands were told of each shard.
fn told<N: NodeName + Send + Sync>(
    alloc: Global,
    shards: u32,
    hands: &[Hand<N>],
) -> Result<Vec<u64>, LifeFault> {
    let mut told = match Vec::from_elem(alloc, 0, shards as usize) {
        Ok(told) => told,
        Err(AllocError) => Vec::from_elem(alloc, 0, shards as usize)?,
    };
    for hand in hands {
        hand.add_told(&mut told);
    }
    Ok(told)
}

/// What the hands have done.
pub fn all_done<N: NodeName + Send + Sync>(hands: &[Hand<N>]) -> Done {
    let mut done = Done::default();
    for hand in hands {
        done.add(hand.done());
    }
    done
}

/// Closes the ingester with all of its hands: first over an end of the store that gives no bytes, and where that is refused, over a
/// good one. Why the first was refused stands beside the report.
pub fn closed<N: NodeName + Send + Sync>(
    alloc: Global,
    node: Ingester<N, NoLog, Object>,
    earlier: Earlier<N>,
    hands: Vec<Hand<N>>,
) -> Result<(Report, Option<Refusal>), LifeFault> {
    let Parts { pushers, tallies } = match parted(alloc, hands) {
        Ok(parts) => parts,
        Err(fault) => {
            earlier.strand();
            return Err(fault);
        }
    };
    match closed_over(alloc, &mut KeptEnd::dead(), node, earlier, pushers, tallies) {
        Ok(closed) => Ok((closed.into_report(), None)),
        Err(fault) => closed_again(alloc, fault),
    }
}

/// Closes over a good end what a close gave back.
fn closed_again<N: NodeName + Send + Sync>(
    alloc: Global,
    fault: CloseFault<N, NoLog, Object>,
) -> Result<(Report, Option<Refusal>), LifeFault>
    requires { All (IsTallyOf N.settings.shards N.books) fault.tallies.items }
{
    let CloseFault {
        why,
        ingester,
        earlier,
        pushers,
        tallies,
    } = fault;
    let mut end = KeptEnd::new(Lots::of(0), 0);
    match closed_over(alloc, &mut end, ingester, earlier, pushers, tallies) {
        Ok(closed) => Ok((closed.into_report(), Some(why.refusal()))),
        Err(fault) => Err(given_up(fault)),
    }
}

/// Closes over an end; once more where memory was refused.
fn closed_over<N: NodeName + Send + Sync>(
    alloc: Global,
    end: &mut KeptEnd,
    node: Ingester<N, NoLog, Object>,
    earlier: Earlier<N>,
    pushers: Vec<Pusher<N>>,
    tallies: Vec<FlusherTally>,
) -> Result<Closed<Object>, CloseFault<N, NoLog, Object>>
    requires { All (IsTallyOf N.settings.shards N.books) tallies.items }
    ensures { IfErr result (λ fault. fault.tallies ≡ tallies) }
{
    let fault = match node.close(alloc, end, earlier, pushers, tallies) {
        Ok(closed) => return Ok(closed),
        Err(fault) => fault,
    };
    if fault.why.refusal() != Refusal::NoMemory {
        return Err(fault);
    }
    let CloseFault {
        why: _,
        ingester,
        earlier,
        pushers,
        tallies,
    } = fault;
    ingester.close(alloc, end, earlier, pushers, tallies)
}

/// Gives up what a close gave back, and says why it was refused.
fn given_up<N: NodeName + Send + Sync>(fault: CloseFault<N, NoLog, Object>) -> LifeFault {
    let CloseFault {
        why,
        ingester,
        earlier,
        pushers,
        tallies,
    } = fault;
    ingester.abandon(earlier, pushers, tallies);
    why.into()
}

/// The parts of all hands.
fn parted<N: NodeName + Send + Sync>(
    alloc: Global,
    mut hands: Vec<Hand<N>>,
) -> Result<Parts<N>, LifeFault> {
    let Ok(mut pushers) = room(alloc, hands.len()) else {
        strand_all(hands);
        return Err(LifeFault::NoMemory);
    };
    let Ok(mut tallies) = room(alloc, hands.len().saturating_mul(3)) else {
        strand_all(hands);
        pushers.destroy_empty();
        return Err(LifeFault::NoMemory);
    };
    while let Some(hand) = hands.pop() {
        let (pusher, tally, sweeping) = hand.into_parts();
        pushers.push_reserved(pusher);
        tallies.push_reserved(tally);
        if let Some(sweeping) = sweeping {
            sweeping.into_tallies(&mut tallies);
        }
    }
    hands.destroy_empty();
    Ok(Parts { pushers, tallies })
}
