//! Who sweeps into a flush queue, and the flushers that work it off side by side.
ghost use Rattle.std.specs.Prelude.{◌≡◌, ◌+◌, ◌≤◌, All, IfOk, OnOk, vec_capacity, vec_len};
ghost use Rattle.ing_node.specs.Names.{IsTallyOf};

use crate::fault::LifeFault;
use crate::kept_end::{KeptEnd, Object};
use crate::lots::Lots;
use ing_flush::{FlusherTally, FreeGate, Round, Worker};
use ing_limits::Settings;
use ing_node::{Flushing, Ingester, NodeName, Sweeper};
use ing_rows::Stamp;
use ing_wal::NoLog;
use std::alloc::Global;
use std::sync::Wait;
use std::thread::Threads;

/// How many flushers work a queue off.
const FLUSHERS: usize = 2;

/// A flush queue, who sweeps into it, and two flushers. It cannot be dropped.
pub struct Sweeping<N: NodeName> {
    flushing: Flushing<N>,
    sweeper: Sweeper,
    workers: Vec<Worker<KeptEnd, FreeGate>>,
    ghost few: { vec_len workers ≤ 2 },
    ghost sweeps: { sweeper.pass.queue ≡ flushing.queue.name },
    ghost queue: { All (λ worker. worker.pass.queue ≡ flushing.queue.name) workers.items },
    ghost own: { All (λ worker. IsTallyOf N.settings.shards N.books worker.flusher.tally) workers.items },
}

impl<N: NodeName> Sweeping<N> {
    /// A queue as long as the settings say, and two flushers of an ingester, of whose puts one in so many fails by lot.
    pub fn new<W: Wait>(
        rt: &W,
        alloc: Global,
        settings: &Settings,
        node: &Ingester<N, NoLog, Object>,
        lots: Lots,
        odds: u64,
    ) -> Result<Sweeping<N>, LifeFault>
        requires { settings.now ≡ N.settings }
    {
        let (flushing, mut sweeper) = Flushing::open(alloc, settings)?;
        let workers = workers_of(rt, alloc, &flushing, &mut sweeper, node, lots, odds)?;
        Ok(Sweeping {
            flushing,
            sweeper,
            workers,
        })
    }

    /// Gives its tallies, for the close.
    pub fn into_tallies(self, tallies: &mut Vec<FlusherTally>)
        requires own { All (IsTallyOf N.settings.shards N.books) tallies.old.items }
        requires room { vec_len tallies.old + 2 ≤ vec_capacity tallies.old }
        ensures own { All (IsTallyOf N.settings.shards N.books) tallies.new.items }
        ensures few { vec_len tallies.new ≤ vec_len tallies.old + 2 }
        ensures room { vec_capacity tallies.new ≡ vec_capacity tallies.old }
    {
        let Sweeping {
            flushing: _,
            sweeper: _,
            mut workers,
        } = self;
        while let Some(worker) = workers.pop() {
            tallies.push_reserved(worker.into_tally());
        }
        workers.destroy_empty();
    }

    /// Gives its shares up.
    pub fn strand(self) {
        let Sweeping {
            flushing: _,
            sweeper: _,
            workers,
        } = self;
        strand_all(workers);
    }
}

impl<N: NodeName + Send + Sync> Sweeping<N> {
    /// Sweeps all shards, or seals everything where no time is given, and works the queue off. What finds the queue full waits for
    /// the next sweep.
    pub fn turn<W: Threads + Wait + Sync>(
        &mut self,
        rt: &W,
        alloc: Global,
        node: &Ingester<N, NoLog, Object>,
        now: Option<Stamp>,
    ) -> Result<Round, LifeFault> {
        let _swept = match now {
            Some(now) => self
                .flushing
                .sweep_round(rt, alloc, node, &mut self.sweeper, now)?,
            None => self
                .flushing
                .seal_round(rt, alloc, node, &mut self.sweeper)?,
        };
        Ok(
            self.flushing
                .flush_round(rt, alloc, node, self.workers.as_mut_slice()),
        )
    }
}

/// Two flushers with passes of a queue, of whose puts one in so many fails by lot.
fn workers_of<N: NodeName, W: Wait>(
    rt: &W,
    alloc: Global,
    flushing: &Flushing<N>,
    sweeper: &mut Sweeper,
    node: &Ingester<N, NoLog, Object>,
    lots: Lots,
    odds: u64,
) -> Result<Vec<Worker<KeptEnd, FreeGate>>, LifeFault>
    requires { sweeper.old.pass.queue ≡ flushing.now.queue.name }
    ensures sweeper { OnOk result (sweeper.new.pass.queue ≡ flushing.now.queue.name) }
    ensures few { IfOk result (λ workers. vec_len workers ≤ 2) }
    ensures queue { IfOk result (λ workers.
        All (λ worker. worker.pass.queue ≡ flushing.now.queue.name) workers.items) }
    ensures own { IfOk result (λ workers.
        All (λ worker. IsTallyOf N.settings.shards N.books worker.flusher.tally) workers.items) }
{
    let mut workers = Vec::with_capacity(alloc, FLUSHERS)?;
    while workers.len() < FLUSHERS {
        let end = KeptEnd::new(lots, odds);
        match flushing.flusher(rt, alloc, node, sweeper, end, FreeGate) {
            Ok(worker) => workers.push_reserved(worker),
            Err(fault) => {
                strand_all(workers);
                return Err(fault.why.into());
            }
        }
    }
    Ok(workers)
}

/// Gives the shares of flushers up, which stay out.
fn strand_all(mut workers: Vec<Worker<KeptEnd, FreeGate>>) {
    while let Some(worker) = workers.pop() {
        worker.into_tally().strand();
    }
    workers.destroy_empty();
}
