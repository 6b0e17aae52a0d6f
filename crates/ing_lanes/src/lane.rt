//! Who obeys the commands of one channel.
ghost use Rattle.std.specs.Prelude.{◌≡◌, ◌≤◌, All, IfOk, ℕ, is_some, vec_len};
ghost use Rattle.ing_node.specs.Names.{IsTallyOf};
ghost use Rattle.ing_lanes.specs.ByLane as lanes;
ghost use Rattle.ing_lanes.specs.Counted.{ReadsBoard, counted_by, told_in};
ghost use Rattle.ing_session.specs.Views.{reply_data};

mod catalogs;
mod faults;
mod flushes;
mod pushes;
mod queries;

use crate::shared::Shared;
use faults::node_fault;
use ing_commands::{Command, Push};
use ing_node::{BoardReader, FlusherTally, FreeGate, NodeName, Pusher, Sweeper, Worker};
use ing_rows::Tenant;
use ing_session::{PushLines, Reply, Service};
use ing_store::{Receipt, StoreEnd};
use ing_wal::LogDisk;
use json::Scratch;
use std::alloc::{AllocError, Global};
use std::sync::Wait;

/// Who obeys the commands of one channel, beside others that go through the same locks: it pushes, reads counts, sweeps and flushes with
/// a pusher, a reader, a pass and a flusher of its own. It cannot be dropped.
pub struct Lane<'r, N: NodeName, D: LogDisk + Drop, R: Receipt, F: StoreEnd<Receipt = R>, W: Wait> {
    pub(crate) rt: &'r W,
    pub(crate) alloc: Global,
    pub(crate) shared: &'r Shared<N, D, R>,
    pub(crate) pusher: Pusher<N>,
    pub(crate) board: BoardReader<N>,
    pub(crate) sweeper: Sweeper,
    /// The flusher, as a list of one.
    pub(crate) workers: Vec<Worker<F, FreeGate>>,
    ghost one: { vec_len workers ≡ 1 },
    ghost diary: { is_some pusher.diary ≡ N.settings.diaries },
    ghost sweeps: { sweeper.pass.queue ≡ shared.now.flushing.queue.name },
    ghost queue: { All (λ worker. worker.pass.queue ≡ shared.now.flushing.queue.name) workers.items },
    ghost own: { All (λ worker. IsTallyOf N.settings.shards N.books worker.flusher.tally) workers.items },
}

impl<
    'r,
    N: NodeName,
    D: LogDisk + Drop,
    R: Receipt,
    F: StoreEnd<Receipt = R> + Drop,
    W: Wait,
    S: StoreEnd<Receipt = R>,
> Service<S> for Lane<'r, N, D, R, F, W> {
    ghost use Rattle.ing_lanes.specs.ByLane.{by_lane};
    ghost use Rattle.ing_lanes.specs.Counted.{IsHeld, IsHeldAtLeast, counted_by};

    ghost manner = { by_lane S.is_honest N.has_logs };

    ghost holds = { λ lane held. IsHeld lane.pusher (counted_by lane.workers.items) lane.board held };

    ghost leaves = { λ lane held. IsHeldAtLeast lane.pusher (counted_by lane.workers.items) held };

    ghost settings_of = { λ _. N.settings };

    ghost failures = { S.failure_count };

    ghost never_fails = { S.never_fails };

    fn obey(&mut self, end: &mut S, command: Command<'_>) -> Result<Reply, AllocError> {
        match command {
            Command::Push(push) => self.push(push),
            Command::Sweep(sweep) => self.sweep(sweep.now),
            Command::Flush(_) => unreachable!("a flush is given to `flush`"),
            Command::Gauges(gauges) => self.gauges(&gauges.tenant),
            Command::Board => self.board(),
            Command::Checkpoint => self.checkpoint(),
            Command::Query(query) => self.query(end, &query),
            Command::Catalog(catalog) => self.catalog(&catalog),
        }
    }

    fn push_lines(
        &mut self,
        first: Push<'_>,
        lines: &mut PushLines<'_>,
        scratch: &mut Scratch,
    ) -> Result<Vec<Reply>, AllocError> {
        self.push_all(first, lines, scratch)
    }
}

impl<'r, N: NodeName, D: LogDisk + Drop, R: Receipt, F: StoreEnd<Receipt = R> + Drop, W: Wait> Lane<
    'r,
    N,
    D,
    R,
    F,
    W,
> {
    /// What the channel was told accepted, and what its flusher has stored. All else is let go. Takes no memory.
    pub(crate) fn into_parts(self) -> (Pusher<N>, FlusherTally)
        ensures pusher { result.0 ≡ self.entry.pusher }
        ensures diary { is_some result.0.diary ≡ N.settings.diaries }
        ensures own { IsTallyOf N.settings.shards N.books result.1 }
        ensures counted { counted_by self.entry.workers.items ≡ told_in result.1 }
    {
        let Lane {
            rt: _,
            alloc: _,
            shared: _,
            pusher,
            board: _,
            sweeper: _,
            mut workers,
        } = self;
        match workers.pop() {
            Some(worker) => {
                workers.destroy_empty();
                (pusher, worker.into_tally())
            }
            None => unreachable!(),
        }
    }

    /// The reply to a question for gauges: those of each shard.
    fn gauges(&self, tenant: &Tenant) -> Result<Reply, AllocError>
        ensures { IfOk result (λ reply. lanes.IsForm (lanes.IsGaugesReply N.settings) (reply_data reply)) }
    {
        let mut all = Vec::with_capacity(self.alloc, self.shared.settings.shards() as usize)?;
        for shard in 0..self.shared.settings.shards() {
            match self.shared.ingester.gauges(self.rt, shard, tenant) {
                Ok(gauges) => all.push(gauges)?,
                Err(fault) => return node_fault(fault),
            }
        }
        Ok(Reply::Gauges(all))
    }

    /// The reply to a checkpoint: of each shard whether it has replaced its log. Without logs none has.
    fn checkpoint(&self) -> Result<Reply, AllocError>
        ensures { IfOk result (λ reply.
            lanes.IsForm (lanes.IsCheckpointReply N.has_logs N.settings) (reply_data reply)) }
    {
        let count = self.shared.settings.shards();
        if !self.shared.has_logs {
            let none = Vec::from_elem(self.alloc, false, count as usize)?;
            return Ok(Reply::Checkpoint(none));
        }
        let mut all = Vec::with_capacity(self.alloc, count as usize)?;
        for shard in 0..count {
            match self.shared.ingester.checkpoint(self.rt, self.alloc, shard) {
                Ok(published) => all.push(published)?,
                Err(fault) => return node_fault(fault),
            }
        }
        Ok(Reply::Checkpoint(all))
    }

    /// The reply to a question for what each shard counts: no lock is taken.
    fn board(&mut self) -> Result<Reply, AllocError>
        ensures reply { IfOk result (λ reply.
            ReadsBoard N.settings self.old.board self.new.board (reply_data reply)) }
        ensures pusher { self.new.pusher ≡ self.old.pusher }
        ensures workers { self.new.workers ≡ self.old.workers }
    {
        let mut all = Vec::with_capacity(self.alloc, self.shared.settings.shards() as usize)?;
        for shard in 0..self.shared.settings.shards() {
            all.push(self.board.read(shard))?;
        }
        Ok(Reply::Board(all))
    }
}
