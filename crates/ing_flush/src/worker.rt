//! Who flushes what stands in a queue.
ghost use Rattle.std.specs.Prelude.{◌≡◌, ◌+◌, ◌≤◌, [], IsTrue, length};
ghost use Rattle.ing_shard.specs.Flushed.{Flushed as Uploaded};
ghost use Rattle.ing_shard.specs.Flights.{Flown, IsUploaded};
ghost use Rattle.ing_flush.specs.Queues.{standing};
ghost use Rattle.ing_flush.specs.Rounds.{HaveRisen, IsRound, IsTold, worker_of};
ghost use Rattle.ing_flush.specs.Tallies.{AreStoredIn};

use crate::door::Door;
use crate::flush::flush_one;
use crate::flusher::Flusher;
use crate::gate::Gate;
use crate::queue::{FlushQueue, QueuePass};
use crate::round::Round;
use crate::tally::FlusherTally;
use ing_shard::{Flushed as Uploaded, Op};
use ing_store::{Receipt, StoreEnd};
use std::alloc::Global;
use std::sync::Wait;

/// A flusher with its pass of a flush queue, and what its latest round came to. It cannot be dropped.
pub struct Worker<S: StoreEnd, G: Gate> {
    pub(crate) flusher: Flusher<S, G>,
    pub(crate) pass: QueuePass,
    pub(crate) round: Round,
}

impl<S: StoreEnd, G: Gate> Worker<S, G> {
    /// This flusher with this pass. It has done nothing yet.
    pub fn new(flusher: Flusher<S, G>, pass: QueuePass) -> Worker<S, G>
        ensures flusher { result.flusher ≡ flusher }
        ensures pass { result.pass ≡ pass }
        ensures round { result.round ≡ record { stored = 0; failed = 0; other = 0 } }
    {
        Worker {
            flusher,
            pass,
            round: Round::default(),
        }
    }

    /// What its latest round came to. Takes no memory.
    pub fn round(&self) -> Round
        ensures { result ≡ self.now.round }
    {
        self.round
    }

    /// Its flusher and its pass.
    pub fn into_parts(self) -> (Flusher<S, G>, QueuePass)
        ensures { result ≡ (self.flusher, self.pass) }
    {
        let Worker {
            flusher,
            pass,
            round: _,
        } = self;
        (flusher, pass)
    }
}

impl<S: StoreEnd + Drop, G: Gate + Drop> Worker<S, G> {
    /// Its tally. The end, the gate and the pass are let go.
    pub fn into_tally(self) -> FlusherTally
        ensures { result ≡ self.flusher.tally }
    {
        let (flusher, _) = self.into_parts();
        flusher.into_tally()
    }
}

/// One round of a worker: it takes operations and flushes each, as `flush_one`, until it finds the queue empty. What is given back
/// is not put into the queue again: it waits for a sweep. An operation of a shard that there is not is passed over. (Own.)
pub fn flush_queued<R, D, S, G, W>(
    rt: &W,
    alloc: Global,
    door: &D,
    queue: &FlushQueue,
    worker: &mut Worker<S, G>,
) -> Round
where
    R: Receipt,
    D: Door<Uploaded<R>>,
    S: StoreEnd<Receipt = R>,
    G: Gate,
    W: Wait,
    requires takes { (f : Flown) (done : Uploaded R) →
        IsUploaded f done.listing (R.bytes done.row) (R.name done.row) → D.takes f done }
    requires queue { worker.old.pass.queue ≡ queue.now.name }
    requires all { length worker.old.flusher.tally ≡ D.shards }
    requires own { AreStoredIn D.books worker.old.flusher.tally }
    ensures all { length worker.new.flusher.tally ≡ D.shards }
    ensures own { AreStoredIn D.books worker.new.flusher.tally }
    ensures latest { worker.new.round ≡ result }
    ensures round { IsRound (worker_of S.failure_count worker.old)
        (worker_of S.failure_count worker.new) }
    // What other passes put and took no clause can know.
    ensures empty { IsTrue worker.new.pass.alone → standing worker.new.pass ≡ [] }
    ensures sure { S.never_fails worker.old.flusher.end.end →
        (S.never_fails worker.new.flusher.end.end)
        × (S.failure_count worker.new.flusher.end.end ≡ S.failure_count worker.old.flusher.end.end) }
{
    let mut round = Round::default();
    for _ in rt.forever() {
        let Some(op) = queue.take(rt, &mut worker.pass) else {
            break;
        };
        round = round.plus(flush_taken(rt, alloc, door, &mut worker.flusher, &op));
    }
    worker.round = round;
    round
}

/// Flushes one operation, where there is a shard of its number, and says what that came to.
fn flush_taken<R, D, S, G, W>(
    rt: &W,
    alloc: Global,
    door: &D,
    flusher: &mut Flusher<S, G>,
    op: &Op,
) -> Round
where
    R: Receipt,
    D: Door<Uploaded<R>>,
    S: StoreEnd<Receipt = R>,
    G: Gate,
    W: Wait,
    requires takes { (f : Flown) (done : Uploaded R) →
        IsUploaded f done.listing (R.bytes done.row) (R.name done.row) → D.takes f done }
    requires all { length flusher.old.tally ≡ D.shards }
    requires own { AreStoredIn D.books flusher.old.tally }
    ensures all { length flusher.new.tally ≡ D.shards }
    ensures own { AreStoredIn D.books flusher.new.tally }
    ensures one { result.stored + result.failed ≤ 1 }
    ensures stored { HaveRisen result.stored flusher.old.tally flusher.new.tally }
    ensures failed { IsTold result.failed result.other (S.failure_count flusher.old.end.end)
        (S.failure_count flusher.new.end.end) }
    ensures sure { S.never_fails flusher.old.end.end → (S.never_fails flusher.new.end.end)
        × (S.failure_count flusher.new.end.end ≡ S.failure_count flusher.old.end.end) }
{
    if op.shard as usize >= flusher.tally.shards() {
        return Round::default();
    }
    Round::of_flush(&flush_one(rt, alloc, door, flusher, op))
}
