//! Sweeps and flushes through the locks.
ghost use Rattle.std.specs.Prelude.{◌≡◌, ◌≤◌, ℕ, IfOk, Ok};
ghost use Rattle.ing_commands.specs.Commands as commands;
ghost use Rattle.ing_commands.specs.Views.{flush_view};
ghost use Rattle.ing_lanes.specs.ByLane.{Held, IsForm, IsSweepReply, by_lane};
ghost use Rattle.ing_lanes.specs.Counted.{IsHeld, RisesBy, counted_by};
ghost use Rattle.ing_session.specs.Runs.{IsObeyed};
ghost use Rattle.ing_session.specs.Views.{reply_data};

use super::Lane;
use super::faults::node_fault;
use ing_commands::Flush;
use ing_node::{NodeFault, NodeName, Op, Round, Swept};
use ing_rows::Stamp;
use ing_session::Reply;
use ing_store::{Receipt, StoreEnd};
use ing_wal::LogDisk;
use std::alloc::AllocError;
use std::sync::Wait;
use std::thread::Threads;

impl<'r, N: NodeName, D: LogDisk + Drop, R: Receipt, F: StoreEnd<Receipt = R> + Drop, W: Wait> Lane<
    'r,
    N,
    D,
    R,
    F,
    W,
> {
    /// Seals what is due in each shard, queues an operation for each sealed chunk that waits, and gives the reply. What finds the
    /// queue full waits for the next sweep. It fails only where memory runs out; then what is due may be sealed in some shards.
    pub(super) fn sweep(&mut self, now: Stamp) -> Result<Reply, AllocError>
        ensures reply { IfOk result (λ reply. IsForm IsSweepReply (reply_data reply)) }
        ensures pusher { self.new.pusher ≡ self.old.pusher }
        ensures board { self.new.board ≡ self.old.board }
        ensures workers { self.new.workers ≡ self.old.workers }
    {
        let (flushing, sweeper) = (&self.shared.flushing, &mut self.sweeper);
        match flushing.sweep_round(self.rt, self.alloc, &self.shared.ingester, sweeper, now) {
            Ok(swept) => Ok(Reply::Sweep {
                queued: swept.queued,
                sealed: swept.sealed,
            }),
            Err(fault) => node_fault(fault),
        }
    }
}

impl<
    'r,
    N: NodeName + Send + Sync,
    D: LogDisk + Drop + Send,
    R: Receipt + Send + Sync,
    F: StoreEnd<Receipt = R> + Drop + Send,
    W: Threads + Wait + Sync,
> Lane<'r, N, D, R, F, W> {
    /// Seals each growing chunk where that is forced, works off what is queued, by whichever channel, saves what was stored on torn
    /// logs, and gives the reply: what this channel's flusher stored. What another's has taken is told there. It fails only where memory runs out; then a part of it may be done.
    pub(crate) fn flush<S: StoreEnd<Receipt = R>>(
        &mut self,
        said: Flush,
    ) -> Result<Reply, AllocError>
        ensures obeyed { (count : ℕ) → IfOk result (λ reply. (held : Held) →
            IsHeld self.old.pusher (counted_by self.old.workers.items) self.old.board held →
            IsObeyed (by_lane S.is_honest N.has_logs) N.settings (Ok (commands.Flush (flush_view said))) held
            (IsHeld self.new.pusher (counted_by self.new.workers.items) self.new.board) count count (reply_data reply)) }
        ensures pusher { self.new.pusher ≡ self.old.pusher }
        ensures risen { counted_by self.old.workers.items ≤ counted_by self.new.workers.items }
    {
        match self.seal(said.forced) {
            Ok(swept) => {
                let round = self.flush_all(swept.left);
                self.save_torn(&round)?;
                Ok(Reply::Flush {
                    failed: round.failed,
                    sealed: swept.sealed,
                    stored: round.stored,
                })
            }
            Err(fault) => node_fault(fault),
        }
    }

    /// Seals each growing chunk where that is forced, and queues an operation for each sealed chunk that waits.
    fn seal(&mut self, forced: bool) -> Result<Swept, NodeFault>
        ensures pusher { self.new.pusher ≡ self.old.pusher }
        ensures board { self.new.board ≡ self.old.board }
        ensures workers { self.new.workers ≡ self.old.workers }
    {
        if !forced {
            return Ok(Swept {
                sealed: 0,
                queued: 0,
                left: Vec::new(self.alloc),
            });
        }
        let (flushing, sweeper) = (&self.shared.flushing, &mut self.sweeper);
        flushing.seal_round(self.rt, self.alloc, &self.shared.ingester, sweeper)
    }

    /// Replaces each torn log by a checkpoint behind a round that stored something: no record tells there what was stored, so that a
    /// crash would bring it back as what was never stored, or not at all. A log that cannot be replaced stays torn, and pushes go on to
    /// say so. It fails only where memory runs out.
    fn save_torn(&self, round: &Round) -> Result<(), AllocError> {
        if !self.shared.has_logs || round.stored == 0 {
            return Ok(());
        }
        for shard in 0..self.shared.settings.shards() {
            if let Err(NodeFault::NoMemory) = self
                .shared
                .ingester
                .save(self.rt, self.alloc, shard)
            {
                return Err(AllocError);
            }
        }
        Ok(())
    }

    /// Works the queue off, and puts what there was no room for into it, until nothing is left.
    fn flush_all(&mut self, left: Vec<Op>) -> Round
        ensures rises { RisesBy result.stored (counted_by self.old.workers.items)
            (counted_by self.new.workers.items) }
        ensures pusher { self.new.pusher ≡ self.old.pusher }
        ensures board { self.new.board ≡ self.old.board }
    {
        let mut round = self.flush_queue();
        let mut left = left;
        for _ in self.rt.forever() {
            if left.is_empty() {
                break;
            }
            left = self
                .shared
                .flushing
                .queue_left(self.rt, &mut self.sweeper, left)
                .left;
            round = round.plus(self.flush_queue());
        }
        round
    }

    /// Works the queue off, and says what that came to.
    fn flush_queue(&mut self) -> Round
        ensures rises { RisesBy result.stored (counted_by self.old.workers.items)
            (counted_by self.new.workers.items) }
        ensures pusher { self.new.pusher ≡ self.old.pusher }
        ensures board { self.new.board ≡ self.old.board }
    {
        let workers = self.workers.as_mut_slice();
        self.shared
            .flushing
            .flush_round(self.rt, self.alloc, &self.shared.ingester, workers)
    }
}
