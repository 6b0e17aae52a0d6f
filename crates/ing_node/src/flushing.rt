//! What is to be flushed of one ingester.
ghost use Rattle.std.specs.Prelude.{◌≡◌, [], All, IfOk, IfErr, OnErr, OnOk, false, length, true};
ghost use Rattle.ing_flush.specs.Tallies.{AreStoredIn};
ghost use Rattle.ing_node.specs.Refusals.{IsShareRefusal};
ghost use Rattle.ing_node.specs.Sweeps.{AreQueued, IsFullAt};

use crate::ingester::Ingester;
use crate::names::NodeName;
use crate::swept::Swept;
use ing_begun::{NodeFault, Op};
use ing_flush::{FlushQueue, Flusher, Gate, QueuePass, Worker};
use ing_limits::Settings;
use ing_store::{Receipt, StoreEnd};
use ing_wal::LogDisk;
use std::alloc::{AllocError, Global};
use std::marker::PhantomData;
use std::sync::Wait;

/// The flush queue of one ingester. Any number of threads may sweep into it and flush from it.
#[derive(Drop)]
pub struct Flushing<N: NodeName> {
    pub(crate) queue: FlushQueue,
    of: PhantomData<N>,
}

/// Who sweeps: the right to put into a flush queue.
#[derive(Drop)]
pub struct Sweeper {
    pub(crate) pass: QueuePass,
}

/// A flusher that was not made, with all that was handed over, and why.
#[derive(Drop)]
pub struct FlusherFault<S: StoreEnd, G: Gate> {
    /// Why.
    pub why: NodeFault,
    /// The end of the store.
    pub end: S,
    /// The gate.
    pub gate: G,
}

impl<N: NodeName> Flushing<N> {
    /// The flush queue of an ingester with these settings, as long as they say, and who sweeps into it. All room is made here.
    /// `AllocError` where memory runs out. (Own.)
    pub fn open(alloc: Global, settings: &Settings) -> Result<(Flushing<N>, Sweeper), AllocError>
        requires { settings.now ≡ N.settings }
        ensures capacity { IfOk result (λ opened.
            opened.0.queue.capacity ≡ N.settings.flush_queue_length) }
        ensures sweeper { IfOk result (λ opened. opened.1.pass ≡
            record { queue = opened.0.queue.name; put = []; taken = []; alone = true }) }
    {
        let (queue, pass) = FlushQueue::open(alloc, settings.flush_queue_length() as usize)?;
        let flushing = Flushing {
            queue,
            of: PhantomData,
        };
        Ok((flushing, Sweeper { pass }))
    }

    /// Tries again to put operations that found the queue full into it, from the first on, until one finds it full. What is left
    /// comes back in the list that is given, in its order. Nothing is sealed. Takes no memory.
    pub fn queue_left<W: Wait>(&self, rt: &W, sweeper: &mut Sweeper, ops: Vec<Op>) -> Swept
        requires { sweeper.old.pass.queue ≡ self.now.queue.name }
        ensures sealed { result.sealed ≡ 0 }
        ensures queued { AreQueued result.queued ops.items result.left.items
            sweeper.old.pass sweeper.new.pass }
        ensures full { IsFullAt self.now.queue.capacity result.left.items sweeper.new.pass }
    {
        let mut left = ops;
        // What is tried next stands last.
        left.reverse();
        let mut queued = 0;
        while let Some(op) = left.pop() {
            if let Err(full) = self.queue.put(rt, &mut sweeper.pass, op) {
                left.push_reserved(full.op);
                break;
            }
            queued += 1;
        }
        left.reverse();
        Swept {
            sealed: 0,
            queued,
            left,
        }
    }

    /// Another who sweeps, in a thread of its own, say. Takes no memory.
    pub fn another(&self, sweeper: &mut Sweeper) -> Sweeper
        requires { sweeper.old.pass.queue ≡ self.now.queue.name }
        ensures other { result.pass ≡
            record { queue = self.now.queue.name; put = []; taken = []; alone = false } }
        ensures sweeper { sweeper.new.pass ≡ record sweeper.old.pass { alone = false } }
    {
        Sweeper {
            pass: self.queue.another(&mut sweeper.pass),
        }
    }

    /// A flusher of an ingester, which has stored nothing yet, with a pass of its queue. `CounterFull` where 2^62 shares of a shard
    /// are out, `Misplaced`, and `NoMemory`: then end and gate come back, and no share more is out.
    pub fn flusher<D, R, S, G, W>(
        &self,
        rt: &W,
        alloc: Global,
        node: &Ingester<N, D, R>,
        sweeper: &mut Sweeper,
        end: S,
        gate: G,
    ) -> Result<Worker<S, G>, FlusherFault<S, G>>
    where
        D: LogDisk,
        R: Receipt,
        S: StoreEnd<Receipt = R>,
        G: Gate,
        W: Wait,
        requires { sweeper.old.pass.queue ≡ self.now.queue.name }
        ensures all { IfOk result (λ worker. length worker.flusher.tally ≡ N.settings.shards) }
        ensures own { IfOk result (λ worker. AreStoredIn N.books worker.flusher.tally) }
        ensures zero { IfOk result (λ worker.
            All (λ share. share.amount ≡ 0) worker.flusher.tally) }
        ensures end { IfOk result (λ worker. worker.flusher.end.end ≡ end) }
        ensures gate { IfOk result (λ worker. worker.flusher.end.gate ≡ gate) }
        ensures pass { IfOk result (λ worker. worker.pass ≡
            record { queue = self.now.queue.name; put = []; taken = []; alone = false }) }
        ensures sweeper { OnOk result
            (sweeper.new.pass ≡ record sweeper.old.pass { alone = false }) }
        ensures back { IfErr result (λ fault. (fault.end ≡ end) × (fault.gate ≡ gate)) }
        ensures refused { IfErr result (λ fault. IsShareRefusal N.settings.shards fault.why) }
        ensures err { OnErr result (sweeper.new.pass ≡ sweeper.old.pass) }
    {
        let tally = match node.tally(rt, alloc) {
            Ok(tally) => tally,
            Err(why) => return Err(FlusherFault { why, end, gate }),
        };
        let pass = self.queue.another(&mut sweeper.pass);
        Ok(Worker::new(Flusher::new(end, gate, tally), pass))
    }
}
