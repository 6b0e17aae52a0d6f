//! Rounds over all shards and over all flushers.
ghost use Rattle.std.specs.Prelude.{◌≡◌, ◌<◌, ◌≤◌, ◌+◌, All, IfErr, IfOk, OnErr, List, sum_by};
ghost use Rattle.std.specs.List.{AllZip};
ghost use Rattle.ing_tally.specs.Books.{amount_of};
ghost use Rattle.ing_flush.specs.Rounds.{IsRound, IsSumOf, worker_of};
ghost use Rattle.ing_node.specs.Names.{IsTallyOf};
ghost use Rattle.ing_begun.specs.Op.{Op};
ghost use Rattle.ing_node.specs.Refusals.{IsRoundRefusal};
ghost use Rattle.ing_node.specs.Sweeps.{AreBelow, AreQueued, IsFullAt};

use crate::flushing::{Flushing, Sweeper};
use crate::ingester::Ingester;
use crate::names::NodeName;
use crate::swept::Swept;
use ing_begun::{Due, NodeFault};
use ing_flush::{Gate, Round, Worker, flush_queued};
use ing_rows::Stamp;
use ing_store::{Receipt, StoreEnd};
use ing_wal::LogDisk;
use std::alloc::Global;
use std::sync::Wait;
use std::thread::{self, Threads};

/// Which growing chunks are sealed.
#[derive(Drop)]
enum Sealing {
    /// Those that are due at this time.
    Due(Stamp),
    /// All.
    Forced,
}

impl<N: NodeName> Flushing<N> {
    /// Sweeps each shard, as `Ingester::sweep`, and puts the operations into the queue, as `queue_left`. After an error nothing is
    /// queued, and the shards before the one that was refused stay swept.
    pub fn sweep_round<D: LogDisk, R: Receipt, W: Wait>(
        &self,
        rt: &W,
        alloc: Global,
        node: &Ingester<N, D, R>,
        sweeper: &mut Sweeper,
        now: Stamp,
    ) -> Result<Swept, NodeFault>
        requires { sweeper.old.pass.queue ≡ self.now.queue.name }
        ensures queued { IfOk result (λ swept. (given : List Op) × AreBelow N.settings.shards given
            × AreQueued swept.queued given swept.left.items sweeper.old.pass sweeper.new.pass) }
        ensures full { IfOk result (λ swept.
            IsFullAt self.now.queue.capacity swept.left.items sweeper.new.pass) }
        ensures refused { IfErr result (IsRoundRefusal N.settings.shards) }
        ensures err { OnErr result (sweeper.new.pass ≡ sweeper.old.pass) }
    {
        self.round(rt, alloc, node, sweeper, &Sealing::Due(now))
    }

    /// Seals every growing chunk of each shard, as `Ingester::seal_all`, and puts the operations into the queue, as `queue_left`.
    /// After an error nothing is queued, and the shards before the one that was refused stay sealed.
    pub fn seal_round<D: LogDisk, R: Receipt, W: Wait>(
        &self,
        rt: &W,
        alloc: Global,
        node: &Ingester<N, D, R>,
        sweeper: &mut Sweeper,
    ) -> Result<Swept, NodeFault>
        requires { sweeper.old.pass.queue ≡ self.now.queue.name }
        ensures queued { IfOk result (λ swept. (given : List Op) × AreBelow N.settings.shards given
            × AreQueued swept.queued given swept.left.items sweeper.old.pass sweeper.new.pass) }
        ensures full { IfOk result (λ swept.
            IsFullAt self.now.queue.capacity swept.left.items sweeper.new.pass) }
        ensures refused { IfErr result (IsRoundRefusal N.settings.shards) }
        ensures err { OnErr result (sweeper.new.pass ≡ sweeper.old.pass) }
    {
        self.round(rt, alloc, node, sweeper, &Sealing::Forced)
    }

    /// Seals chunks of each shard, and puts the operations into the queue.
    fn round<D: LogDisk, R: Receipt, W: Wait>(
        &self,
        rt: &W,
        alloc: Global,
        node: &Ingester<N, D, R>,
        sweeper: &mut Sweeper,
        which: &Sealing,
    ) -> Result<Swept, NodeFault>
        requires { sweeper.old.pass.queue ≡ self.now.queue.name }
        ensures queued { IfOk result (λ swept. (given : List Op) × AreBelow N.settings.shards given
            × AreQueued swept.queued given swept.left.items sweeper.old.pass sweeper.new.pass) }
        ensures full { IfOk result (λ swept.
            IsFullAt self.now.queue.capacity swept.left.items sweeper.new.pass) }
        ensures refused { IfErr result (IsRoundRefusal N.settings.shards) }
        ensures err { OnErr result (sweeper.new.pass ≡ sweeper.old.pass) }
    {
        let mut sealed: u64 = 0;
        let mut ops = Vec::new(alloc);
        for shard in 0..node.shards.len() as u32 {
            let due = seal(rt, alloc, node, shard, which)?;
            ops.extend_from_slice(&due.ops)?;
            sealed = sealed.saturating_add(due.sealed);
        }
        let Swept { queued, left, .. } = self.queue_left(rt, sweeper, ops);
        Ok(Swept {
            sealed,
            queued,
            left,
        })
    }
}

impl<N: NodeName + Send + Sync> Flushing<N> {
    /// Each worker takes and flushes, as `flush_queued`, until it finds the queue empty: in as many threads as there are workers, or
    /// one after the other where no thread can be made. It says what all of their rounds came to. (Own.)
    pub fn flush_round<D, R, S, G, W>(
        &self,
        rt: &W,
        alloc: Global,
        node: &Ingester<N, D, R>,
        workers: &mut [Worker<S, G>],
    ) -> Round
    where
        D: LogDisk + Send,
        R: Receipt + Send + Sync,
        S: StoreEnd<Receipt = R> + Send,
        G: Gate + Send,
        W: Threads + Wait + Sync,
        requires queue { All (λ worker. worker.pass.queue ≡ self.now.queue.name) workers.old }
        requires own { All (λ worker. IsTallyOf N.settings.shards N.books worker.flusher.tally)
            workers.old }
        ensures queue { All (λ worker. worker.pass.queue ≡ self.now.queue.name) workers.new }
        ensures own { All (λ worker. IsTallyOf N.settings.shards N.books worker.flusher.tally)
            workers.new }
        ensures rounds { AllZip (λ old new. IsRound (worker_of S.failure_count old)
            (worker_of S.failure_count new)) workers.old workers.new }
        ensures sure { AllZip (λ old new. S.never_fails old.flusher.end.end →
            (S.never_fails new.flusher.end.end)
            × (S.failure_count new.flusher.end.end ≡ S.failure_count old.flusher.end.end))
            workers.old workers.new }
        ensures sum { IsSumOf (λ worker. worker.round) workers.new result }
        // So the shares of all workers rose by an entry at least for each chunk that is told as stored.
        ensures risen { sum_by (λ worker. amount_of worker.flusher.tally) workers.old + result.stored
            ≤ sum_by (λ worker. amount_of worker.flusher.tally) workers.new }
        ensures none { result.stored ≡ 0 →
            AllZip (λ old new. new.flusher.tally ≡ old.flusher.tally) workers.old workers.new }
    {
        let work = |_: usize, worker: &mut Worker<S, G>|
            requires queue { worker.now.pass.queue ≡ self.now.queue.name }
            requires own { IsTallyOf N.settings.shards N.books worker.now.flusher.tally }
            ensures queue { worker.exit.now.pass.queue ≡ self.entry.now.queue.name }
            ensures own { IsTallyOf N.settings.shards N.books worker.exit.now.flusher.tally }
            ensures round { IsRound (worker_of S.failure_count worker.entry.now)
                (worker_of S.failure_count worker.exit.now) }
            ensures sure { S.never_fails worker.entry.now.flusher.end.end →
                (S.never_fails worker.exit.now.flusher.end.end)
                × (S.failure_count worker.exit.now.flusher.end.end
                ≡ S.failure_count worker.entry.now.flusher.end.end) }
        {
            let _ = flush_queued(rt, alloc, node, &self.queue, worker);
        };
        thread::for_each_mut(rt, workers, workers.len().max(1), &work);
        sum_of(workers)
    }
}

/// What the latest rounds of these workers came to, together.
fn sum_of<S: StoreEnd, G: Gate>(workers: &[Worker<S, G>]) -> Round
    ensures { IsSumOf (λ worker. worker.round) workers.now result }
{
    let mut sum = Round::default();
    for worker in workers {
        sum = sum.plus(worker.round());
    }
    sum
}

/// Seals chunks of a shard.
fn seal<N: NodeName, D: LogDisk, R: Receipt, W: Wait>(
    rt: &W,
    alloc: Global,
    node: &Ingester<N, D, R>,
    shard: u32,
    which: &Sealing,
) -> Result<Due, NodeFault>
    requires { shard < N.settings.shards }
    ensures below { IfOk result (λ due. AreBelow N.settings.shards due.ops.items) }
    ensures refused { IfErr result (IsRoundRefusal N.settings.shards) }
{
    match which {
        Sealing::Due(now) => node.sweep(rt, alloc, shard, *now),
        Sealing::Forced => node.seal_all(rt, alloc, shard),
    }
}
