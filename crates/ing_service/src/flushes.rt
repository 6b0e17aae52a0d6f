//! Flushes of shards that nobody shares.
ghost use Rattle.std.specs.Prelude.{◌≡◌, ◌⊎◌, List, [], Bool, IfOk, Ok, OnOk, false, map};
ghost use Rattle.ing_commands.specs.Commands as commands;
ghost use Rattle.ing_commands.specs.Views.{flush_view};
ghost use Rattle.ing_session.specs.Causes.{GoesOn};
ghost use Rattle.ing_session.specs.Runs.{IsObeyed};
ghost use Rattle.ing_session.specs.Views.{reply_data};
ghost use Rattle.ing_service.specs.ByShards.{SealsAll, by_shards};
ghost use Rattle.ing_service.specs.Each.{Each};
ghost use Rattle.ing_service.specs.Ends.{NeverFail, failures_in};
ghost use Rattle.ing_service.specs.Flushes.{IsFlushed, IsSaved};
ghost use Rattle.ing_service.specs.Held.{Held, held_in, shard_held};

use crate::beginning::Beginning;
use crate::ends::Ends;
use crate::flights::{Uploads, work_off};
use crate::owned::OwnShards;
use crate::seat::ToSeal;
use crate::seats::{save_each, seal_each};
use ing_commands::Flush;
use ing_session::Reply;
use ing_store::{Receipt, StoreEnd};
use ing_wal::LogDisk;
use std::alloc::AllocError;
use std::mem;
use std::thread::Threads;

impl<N: Beginning, D: LogDisk + Drop, R: Receipt + Send + Sync> OwnShards<N, D, R> {
    /// Seals each growing chunk where that is forced, works off what is queued, with uploads side by side where there are several ends, puts
    /// checkpoints in the place of torn logs where something was stored, and gives the reply. It fails only where memory runs out; then a part
    /// of it may be done.
    pub fn flush<H: Threads + Sync, S: StoreEnd<Receipt = R> + Send>(
        &mut self,
        rt: &H,
        ends: &mut Ends<S>,
        flush: Flush,
    ) -> Result<Reply, AllocError>
        ensures obeyed { IfOk result (λ reply.
            IsObeyed (by_shards S.is_honest N.begun) self.old.settings (Ok (commands.Flush (flush_view flush)))
            (held_in (map (λ seat. shard_held seat.shard) self.old.seats.items) self.old.ops.items)
            (λ (held : Held). held ≡ held_in (map (λ seat. shard_held seat.shard) self.new.seats.items) self.new.ops.items)
            (failures_in S.failure_count ends.old) (failures_in S.failure_count ends.new) (reply_data reply)) }
        ensures settings { self.new.settings ≡ self.old.settings }
        ensures end { GoesOn (NeverFail S.never_fails) (failures_in S.failure_count) ends.old ends.new }
    {
        let sealed = if flush.forced { self.seal_all()? } else { 0 };
        let uploads = self.work_off(rt, ends)?;
        Ok(Reply::Flush {
            failed: uploads.failed,
            sealed,
            stored: uploads.stored,
        })
    }

    /// Seals each growing chunk, queues an operation for each sealed chunk that waits, and gives how many were sealed.
    fn seal_all(&mut self) -> Result<u64, AllocError>
        ensures seals { IfOk result (λ sealed. SealsAll self.old.settings sealed
            (held_in (map (λ seat. shard_held seat.shard) self.old.seats.items) self.old.ops.items)
            (held_in (map (λ seat. shard_held seat.shard) self.new.seats.items) self.new.ops.items)) }
        ensures settings { self.new.settings ≡ self.old.settings }
    {
        let all = seal_each(self.alloc, &mut self.seats, &ToSeal::All)?;
        self.ops.extend_from_slice(&all.ops)?;
        Ok(all.sealed)
    }

    /// Works off what is queued until nothing is left, and saves what was stored on torn logs.
    fn work_off<H: Threads + Sync, S: StoreEnd<Receipt = R> + Send>(
        &mut self,
        rt: &H,
        ends: &mut Ends<S>,
    ) -> Result<Uploads, AllocError>
        ensures flushed { IfOk result (λ uploads. IsFlushed N.begun.logged self.old.settings self.old.ops.items
            (map (λ seat. shard_held seat.shard) self.old.seats.items)
            (map (λ seat. shard_held seat.shard) self.new.seats.items)
            (failures_in S.failure_count ends.old) (failures_in S.failure_count ends.new) uploads.failed uploads.stored) }
        ensures settings { self.new.settings ≡ self.old.settings }
        ensures ops { OnOk result (self.new.ops.items ≡ []) }
        ensures end { GoesOn (NeverFail S.never_fails) (failures_in S.failure_count) ends.old ends.new }
    {
        let ops = mem::replace(&mut self.ops, Vec::new(self.alloc));
        let uploads = work_off(rt, self.alloc, &mut self.seats, ends, &ops)?;
        self.save_stored(uploads.stored)?;
        Ok(uploads)
    }

    /// Puts a checkpoint in the place of each torn log once something was stored: no record tells there what was, so that a crash would
    /// bring it back as what was never stored, or not at all. A log that cannot be replaced stays torn, and pushes go on to say so.
    fn save_stored(&mut self, stored: u64) -> Result<(), AllocError>
        ensures saved { OnOk result ((whole : List Bool)
            × Each (IsSaved ((N.begun.logged ≡ false) ⊎ (stored ≡ 0))) whole
            (map (λ seat. shard_held seat.shard) self.old.seats.items)
            (map (λ seat. shard_held seat.shard) self.new.seats.items)) }
        ensures settings { self.new.settings ≡ self.old.settings }
        ensures ops { self.new.ops.items ≡ self.old.ops.items }
    {
        if !self.is_logged || stored == 0 {
            return Ok(());
        }
        save_each(self.alloc, &mut self.seats)
    }
}
