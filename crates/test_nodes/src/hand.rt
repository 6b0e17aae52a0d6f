//! A hand: who pushes, flushes and queries in one thread.
ghost use Rattle.std.specs.Prelude.{◌≡◌, ◌<◌, IfOk, length};
ghost use Rattle.ing_flush.specs.Tallies.{AreStoredIn};
ghost use Rattle.ing_node.specs.Names.{IsTallyOf};

use crate::done::Done;
use crate::fault::LifeFault;
use crate::kept_end::{KeptEnd, Object};
use crate::lots::Lots;
use crate::plan::{LOADED, Plan, STREAMS, Task};
use crate::sweeping::Sweeping;
use ing_flush::{Flushed, Flusher, FlusherTally, FreeGate, flush_one};
use ing_labels::{LabelLimits, Labels, Selector};
use ing_limits::Settings;
use ing_node::{Answer, BoardReader, Ingester, NodeName, Pusher};
use ing_parts::Question;
use ing_rows::{Entry, Line, Order, Stamp, Tenant};
use ing_shard::{NodeFault, Op};
use ing_store::StoreFault;
use ing_tally::Counts;
use ing_wal::NoLog;
use std::alloc::Global;
use std::rt::Clock;
use std::sync::Wait;
use std::thread::Threads;
use std::time::Instant;

const LIMITS: LabelLimits = LabelLimits {
    names: 15,
    name_bytes: 1024,
    value_bytes: 2048,
};

/// All entries, the oldest first.
const ALL: Question<'static> = Question {
    start: 0,
    end: 0x8000_0000_0000_0000,
    order: Order::Forward,
    limit: 1_000_000,
    after: None,
};

/// The lines that are pushed by lot.
const LINES: [&str; 4] = ["", "a", "abc", "abcdefghijkl"];

/// The line of a load, of 120 bytes.
const LINE: &str =
    "a line of one hundred and twenty bytes, as many as a line of a log has more often than not, and these words make it long";

/// Who pushes, flushes and queries in one thread. It cannot be dropped.
pub struct Hand<N: NodeName> {
    plan: Plan,
    shards: u32,
    tenant: Tenant,
    streams: Vec<Labels>,
    all: Selector,
    pusher: Pusher<N>,
    flusher: Flusher<KeptEnd, FreeGate>,
    // What it sweeps with, where that is its task.
    sweeping: Option<Sweeping<N>>,
    board: BoardReader<N>,
    // What it queries by.
    end: KeptEnd,
    lots: Lots,
    done: Done,
    // How long each of its turns took, in nanoseconds, where that is noted.
    times: Vec<u64>,
    ghost count: { shards ≡ N.settings.shards },
    ghost full: { length flusher.tally ≡ N.settings.shards },
    ghost own: { AreStoredIn N.books flusher.tally },
}

impl<N: NodeName + Send + Sync> Hand<N> {
    /// A hand of an ingester with these settings.
    pub fn new<W: Wait>(
        rt: &W,
        alloc: Global,
        settings: &Settings,
        node: &Ingester<N, NoLog, Object>,
        plan: Plan,
    ) -> Result<Hand<N>, LifeFault>
        requires { settings.now ≡ N.settings }
    {
        let tenant = Tenant::of_text(alloc, "t")?;
        let streams = streams_of(alloc, plan.task)?;
        let all = Selector::parse(alloc, "{all=\"1\"}")?;
        let board = node.reader(rt, alloc)?;
        let pusher = node.pusher(rt, alloc, plan.diary)?;
        let tally = match tally_of(rt, alloc, node) {
            Ok(tally) => tally,
            Err(fault) => {
                pusher.strand();
                return Err(fault.into());
            }
        };
        let sweeping = match sweeping_of(rt, alloc, settings, node, &plan) {
            Ok(sweeping) => sweeping,
            Err(fault) => {
                pusher.strand();
                tally.strand();
                return Err(fault);
            }
        };
        let lots = Lots::of(plan.lots);
        Ok(Hand {
            plan,
            shards: settings.shards(),
            tenant,
            streams,
            all,
            pusher,
            sweeping,
            board,
            flusher: Flusher::new(KeptEnd::new(lots, plan.odds), FreeGate, tally),
            end: KeptEnd::new(lots, 0),
            lots,
            done: Done::default(),
            times: Vec::new(alloc),
        })
    }

    /// Does what it is to do. It stops early where it meets a fault.
    pub fn work<W: Threads + Wait + Sync + Clock>(
        &mut self,
        rt: &W,
        alloc: Global,
        node: &Ingester<N, NoLog, Object>,
    ) {
        for turn in 0..self.plan.turns {
            if self.is_done() {
                return;
            }
            if let Err(fault) = self.timed_turn(rt, alloc, node, turn) {
                self.done.fault = Some(fault);
                return;
            }
        }
    }

    /// Whether all is accepted that it waits for.
    fn is_done(&mut self) -> bool {
        let Task::FlushUntil { accepted } = self.plan.task else {
            return false;
        };
        let mut count = 0u64;
        for shard in 0..self.shards {
            count = count.saturating_add(self.board.read(shard).accepted);
        }
        count >= accepted
    }

    /// A turn, whose time is noted where that is planned.
    fn timed_turn<W: Threads + Wait + Sync + Clock>(
        &mut self,
        rt: &W,
        alloc: Global,
        node: &Ingester<N, NoLog, Object>,
        turn: u64,
    ) -> Result<(), LifeFault> {
        if !self.plan.timed {
            return self.turn(rt, alloc, node, turn);
        }
        let start = Instant::now(rt).map_err(|_| LifeFault::Clock)?;
        self.turn(rt, alloc, node, turn)?;
        let time = start.elapsed(rt).map_err(|_| LifeFault::Clock)?;
        self.times
            .push(u64::try_from(time.as_nanos()).unwrap_or(u64::MAX))?;
        Ok(())
    }

    /// A turn; once more where memory was refused.
    fn turn<W: Threads + Wait + Sync>(
        &mut self,
        rt: &W,
        alloc: Global,
        node: &Ingester<N, NoLog, Object>,
        turn: u64,
    ) -> Result<(), LifeFault> {
        let lots = self.lots;
        match self.try_turn(rt, alloc, node, turn) {
            Err(LifeFault::NoMemory) => {
                self.lots = lots;
                self.try_turn(rt, alloc, node, turn)
            }
            answer => answer,
        }
    }

    fn try_turn<W: Threads + Wait + Sync>(
        &mut self,
        rt: &W,
        alloc: Global,
        node: &Ingester<N, NoLog, Object>,
        turn: u64,
    ) -> Result<(), LifeFault> {
        match self.plan.task {
            Task::Count { stream } => {
                let entries = counted(alloc, stream, turn)?;
                self.push(rt, alloc, node, stream, entries, turn)?;
                self.read()
            }
            Task::Push => self.push_by_lot(rt, alloc, node, turn.saturating_add(100)),
            Task::Flush | Task::FlushUntil { .. } => self.flush_all(rt, alloc, node),
            Task::FlushOne => self.flush_by_lot(rt, alloc, node, turn.saturating_add(100)),
            Task::Sweep => self.sweep_by_lot(rt, alloc, node, turn.saturating_add(100)),
            Task::Query => self.look(rt, alloc, node),
            Task::Read => self.read(),
            Task::ReadOften { times } => self.read_often(times),
            Task::AskOften { times } => self.ask_often(rt, node, times),
            Task::Load { .. } => {
                let count = self.streams.len() as u64;
                let stream = turn.checked_rem(count).unwrap_or(0) as usize;
                let entries = alone(alloc, turn, Line::of_text(alloc, LINE)?)?;
                self.push(rt, alloc, node, stream, entries, turn)
            }
        }
    }

    /// Pushes entries by lot to a stream by lot, and of sixteen times once asks for all entries.
    fn push_by_lot<W: Wait>(
        &mut self,
        rt: &W,
        alloc: Global,
        node: &Ingester<N, NoLog, Object>,
        now: u64,
    ) -> Result<(), LifeFault> {
        let stream = self.lots.below(STREAMS.len() as u64) as usize;
        let entries = self.drawn(alloc, now)?;
        self.push(rt, alloc, node, stream, entries, now)?;
        self.read()?;
        match self.lots.below(16) {
            0 => self.look(rt, alloc, node),
            _ => Ok(()),
        }
    }

    /// Seals what grows in each shard, and flushes what waits there.
    fn flush_all<W: Wait>(
        &mut self,
        rt: &W,
        alloc: Global,
        node: &Ingester<N, NoLog, Object>,
    ) -> Result<(), LifeFault> {
        for shard in 0..self.shards {
            self.flush(rt, alloc, node, shard, None)?;
        }
        Ok(())
    }

    /// Seals what grows, or what is due at this time, in a shard by lot, and flushes what waits there.
    fn flush_by_lot<W: Wait>(
        &mut self,
        rt: &W,
        alloc: Global,
        node: &Ingester<N, NoLog, Object>,
        now: u64,
    ) -> Result<(), LifeFault> {
        let shard = self.lots.below(u64::from(self.shards)) as u32;
        let now = match self.lots.below(2) {
            0 => None,
            _ => Some(now),
        };
        self.flush(rt, alloc, node, shard, now)
    }

    /// Seals what grows, or what is due at this time, in all shards by lot, and works the flush queue off.
    fn sweep_by_lot<W: Threads + Wait + Sync>(
        &mut self,
        rt: &W,
        alloc: Global,
        node: &Ingester<N, NoLog, Object>,
        now: u64,
    ) -> Result<(), LifeFault> {
        let now = match self.lots.below(2) {
            0 => None,
            _ => Some(stamp(now)?),
        };
        let sweeping = self.sweeping.as_mut().ok_or(LifeFault::Text)?;
        let round = sweeping.turn(rt, alloc, node, now)?;
        self.done.chunks = self.done.chunks.saturating_add(round.stored);
        self.done.queued = self.done.queued.saturating_add(round.stored);
        self.done.failed = self.done.failed.saturating_add(round.failed);
        Ok(())
    }

    /// Reads what each shard counts, which is no less than it was told of the shard.
    fn read(&mut self) -> Result<(), LifeFault> {
        for shard in 0..self.shards {
            let counts = self.board.read(shard);
            self.done.readings = self.done.readings.saturating_add(1);
            if counts.accepted < self.pusher.told(shard) || counts.accepted < counts.stored {
                return Err(LifeFault::Board);
            }
        }
        Ok(())
    }

    /// Reads what each shard counts so many times.
    fn read_often(&mut self, times: u64) -> Result<(), LifeFault> {
        for _ in 0..times {
            self.read()?;
        }
        Ok(())
    }

    /// Asks each shard for its gauges so many times.
    fn ask_often<W: Wait>(
        &mut self,
        rt: &W,
        node: &Ingester<N, NoLog, Object>,
        times: u64,
    ) -> Result<(), LifeFault> {
        for _ in 0..times {
            for shard in 0..self.shards {
                let gauges = node.gauges(rt, shard, &self.tenant)?;
                self.done.readings = self.done.readings.saturating_add(1);
                if gauges.streams > LOADED as u64 {
                    return Err(LifeFault::Board);
                }
            }
        }
        Ok(())
    }

    /// How long each of its turns took, in nanoseconds, where that was noted.
    pub fn times(&self) -> &[u64] {
        &self.times
    }

    /// What each shard counts.
    pub fn board(&mut self, alloc: Global) -> Result<Vec<Counts>, LifeFault> {
        let mut all = Vec::with_capacity(alloc, self.shards as usize)?;
        for shard in 0..self.shards {
            all.push(self.board.read(shard))?;
        }
        Ok(all)
    }

    /// Up to three entries by lot, at most 29 nanoseconds old.
    fn drawn(&mut self, alloc: Global, now: u64) -> Result<Vec<Entry>, LifeFault> {
        let mut entries = Vec::new(alloc);
        for _ in 0..self.lots.below(4) {
            let behind = match self.lots.below(2) {
                0 => 0,
                _ => self.lots.below(30),
            };
            let text = LINES
                .get(self.lots.below(LINES.len() as u64) as usize)
                .ok_or(LifeFault::Text)?;
            entries.push(Entry {
                stamp: stamp(now.saturating_sub(behind))?,
                line: Line::of_text(alloc, text)?,
            })?;
        }
        Ok(entries)
    }

    /// Pushes entries to a stream.
    fn push<W: Wait>(
        &mut self,
        rt: &W,
        alloc: Global,
        node: &Ingester<N, NoLog, Object>,
        stream: usize,
        entries: Vec<Entry>,
        now: u64,
    ) -> Result<(), LifeFault> {
        let labels = self.streams.get(stream).ok_or(LifeFault::Text)?;
        if labels.name().len() >= 1 << 32 {
            return Err(LifeFault::Text);
        }
        let now = stamp(now)?;
        let pushed = self
            .pusher
            .push(rt, alloc, node, &self.tenant, labels, entries, now)?;
        self.done.judged(&pushed.verdicts);
        Ok(())
    }

    /// Seals what grows in a shard, or what is due there at a time, and flushes what waits.
    fn flush<W: Wait>(
        &mut self,
        rt: &W,
        alloc: Global,
        node: &Ingester<N, NoLog, Object>,
        shard: u32,
        now: Option<u64>,
    ) -> Result<(), LifeFault> {
        if shard >= self.shards {
            return Err(LifeFault::Text);
        }
        let due = match now {
            Some(now) => node.sweep(rt, alloc, shard, stamp(now)?)?,
            None => node.seal_all(rt, alloc, shard)?,
        };
        for op in &due.ops {
            self.flush_op(rt, alloc, node, op)?;
        }
        Ok(())
    }

    /// Works an operation off.
    fn flush_op<W: Wait>(
        &mut self,
        rt: &W,
        alloc: Global,
        node: &Ingester<N, NoLog, Object>,
        op: &Op,
    ) -> Result<(), LifeFault> {
        if op.shard >= self.shards {
            return Err(LifeFault::Text);
        }
        match flush_one(rt, alloc, node, &mut self.flusher, op) {
            Flushed::Stored(entries) => {
                self.done.chunks = self.done.chunks.saturating_add(1);
                self.done.stored = self.done.stored.saturating_add(entries);
                Ok(())
            }
            Flushed::Nothing => {
                self.done.nothing = self.done.nothing.saturating_add(1);
                Ok(())
            }
            Flushed::GaveBack(StoreFault::NoMemory) => Err(LifeFault::NoMemory),
            Flushed::GaveBack(_) => {
                self.done.failed = self.done.failed.saturating_add(1);
                Ok(())
            }
            Flushed::Strange(_) => Err(LifeFault::Strange),
        }
    }

    /// Asks for all entries, of which no fewer are found than it was told were accepted.
    fn look<W: Wait>(
        &mut self,
        rt: &W,
        alloc: Global,
        node: &Ingester<N, NoLog, Object>,
    ) -> Result<(), LifeFault> {
        let answer = self.found(rt, alloc, node)?;
        self.done.queries = self.done.queries.saturating_add(1);
        if (answer.entries.len() as u64) < self.done.accepted {
            return Err(LifeFault::NotFound);
        }
        Ok(())
    }

    /// All entries.
    pub fn found<W: Wait>(
        &mut self,
        rt: &W,
        alloc: Global,
        node: &Ingester<N, NoLog, Object>,
    ) -> Result<Answer, LifeFault> {
        Ok(node.query_after(
            rt,
            alloc,
            &mut self.pusher,
            &mut self.end,
            &self.tenant,
            &self.all,
            ALL,
        )?)
    }

    /// What it has done.
    pub fn done(&self) -> &Done {
        &self.done
    }

    /// Adds what it was told of each shard, by number.
    pub fn add_told(&self, told: &mut [u64]) {
        for shard in 0..self.shards {
            if let Some(sum) = told.get_mut(shard as usize) {
                *sum = sum.saturating_add(self.pusher.told(shard));
            }
        }
    }

    /// Its pusher, its tally, and what it sweeps with, for the close.
    pub fn into_parts(self) -> (Pusher<N>, FlusherTally, Option<Sweeping<N>>)
        ensures { IsTallyOf N.settings.shards N.books result.1 }
    {
        let Hand {
            plan: _,
            shards: _,
            tenant: _,
            streams: _,
            all: _,
            pusher,
            flusher,
            sweeping,
            board: _,
            end: _,
            lots: _,
            done: _,
            times: _,
        } = self;
        (pusher, flusher.into_tally(), sweeping)
    }

    /// Gives its shares up.
    pub fn strand(self) {
        let (pusher, tally, sweeping) = self.into_parts();
        pusher.strand();
        tally.strand();
        if let Some(sweeping) = sweeping {
            sweeping.strand();
        }
    }
}

/// A tally, which is asked for once more where it is refused: the shares of a pusher that was made before would stay out.
fn tally_of<N: NodeName, W: Wait>(
    rt: &W,
    alloc: Global,
    node: &Ingester<N, NoLog, Object>,
) -> Result<FlusherTally, NodeFault>
    ensures { IfOk result (IsTallyOf N.settings.shards N.books) }
{
    if let Ok(tally) = node.tally(rt, alloc) {
        return Ok(tally);
    }
    node.tally(rt, alloc)
}

/// What a hand sweeps with, where that is its task.
fn sweeping_of<N: NodeName, W: Wait>(
    rt: &W,
    alloc: Global,
    settings: &Settings,
    node: &Ingester<N, NoLog, Object>,
    plan: &Plan,
) -> Result<Option<Sweeping<N>>, LifeFault>
    requires { settings.now ≡ N.settings }
{
    if plan.task != Task::Sweep {
        return Ok(None);
    }
    let lots = Lots::of(plan.lots);
    Ok(Some(Sweeping::new(rt, alloc, settings, node, lots, plan.odds)?))
}

/// The streams that a task pushes to.
fn streams_of(alloc: Global, task: Task) -> Result<Vec<Labels>, LifeFault> {
    let mut streams = Vec::new(alloc);
    match task {
        Task::Load { first, step } => {
            for number in (first..LOADED).step_by(step.max(1)) {
                streams.push(labels(alloc, format!(in alloc; "{number}")?.as_str())?)?;
            }
        }
        _ => {
            for app in &STREAMS {
                streams.push(labels(alloc, app)?)?;
            }
        }
    }
    Ok(streams)
}

/// The labels of a stream that the selector of all picks.
fn labels(alloc: Global, app: &str) -> Result<Labels, LifeFault> {
    Ok(Labels::of_pairs(alloc, &[("all", "1"), ("app", app)], &LIMITS)?)
}

/// An entry of this nanosecond, whose line is the stream's label value and the number.
fn counted(alloc: Global, stream: usize, number: u64) -> Result<Vec<Entry>, LifeFault> {
    let app = STREAMS.get(stream).ok_or(LifeFault::Text)?;
    let line = Line::of_string(format!(in alloc; "{app}{number}")?);
    alone(alloc, number, line)
}

/// One entry.
fn alone(alloc: Global, nanoseconds: u64, line: Line) -> Result<Vec<Entry>, LifeFault> {
    let mut entries = Vec::new(alloc);
    entries.push(Entry {
        stamp: stamp(nanoseconds)?,
        line,
    })?;
    Ok(entries)
}

fn stamp(nanoseconds: u64) -> Result<Stamp, LifeFault> {
    Stamp::of_nanoseconds(nanoseconds).ok_or(LifeFault::Text)
}
