//! One shard as it begins, with shares of what it begins with.
ghost use Rattle.std.specs.Prelude.{◌≡◌, ◌<◌, IfErr, IfOk, OnOk, length};
ghost use Rattle.ing_durable.specs.Kept.{Replays, shard_at};
ghost use Rattle.ing_durable.specs.Recovering.{FitsInTurn};
ghost use Rattle.ing_durable.specs.Refusing.{IsOwnText};
ghost use Rattle.ing_begun.specs.Begun.{IsBegunAs, IsFresh};
ghost use Rattle.ing_begun.specs.Recovering.{HasSafeLog, IsRefused, LeavesOrReplays};
ghost use Rattle.ing_durable.specs.Contents.{stored_count};

use crate::told::Told;
use ing_durable::{DurableShard, RecoverFault, RecoveredDurable};
use ing_limits::Settings;
use ing_store::{Receipt, StoreEnd};
use ing_tally::Share;
use ing_wal::LogDisk;
use std::alloc::Global;
use std::marker::Model;

/// A shard over its log, with a share of the entries that it begins with, and one of those of them that are stored. It cannot be
/// dropped.
pub struct Begun<D: LogDisk, R: Receipt> {
    pub shard: DurableShard<D, R>,
    pub accepted: Told,
    pub stored: Share,
}

impl<D: LogDisk, R: Receipt> Model for Begun<D, R> {
    ghost use Rattle.std.specs.Coded.{codes};
    ghost use Rattle.ing_durable.specs.ShardCoded.{contents_code};
    ghost use Rattle.ing_durable.specs.Coded.{durable_code};
    ghost use Rattle.ing_begun.specs.Begun.{BegunState, begun_code};

    ghost Value = { BegunState D };

    ghost coded = { begun_code (durable_code D.code (contents_code (Prim.hlevel (codes)) (Prim.hlevel (codes)) (Prim.hlevel (codes)) (Prim.hlevel (codes)))) (Prim.hlevel (codes)) };

    ghost view = { λ begun. record {
      shard = begun.shard;
      accepted = begun.accepted;
      stored = begun.stored;
    } };
}

impl<D: LogDisk, R: Receipt> Begun<D, R> {
    /// The shard of this number without entries, whose log is torn until a checkpoint replaces it. Where memory runs out the log comes
    /// back.
    pub(crate) fn fresh(
        alloc: Global,
        settings: &Settings,
        number: u32,
        log: D,
    ) -> Result<Begun<D, R>, D>
        ensures begun { IfOk result (IsBegunAs settings.now number) }
        ensures fresh { IfOk result IsFresh }
        ensures back { IfErr result (λ back. back ≡ log) }
    {
        let Ok(settings) = settings.try_clone() else {
            return Err(log);
        };
        let mut shard = DurableShard::fresh(alloc, settings, number, log)?;
        let Ok(accepted) = shard.push_share() else {
            unreachable!("no share is out");
        };
        let Ok(stored) = shard.tally_share() else {
            let _ = accepted.strand();
            unreachable!("no share is out");
        };
        Ok(Begun {
            shard,
            accepted: Told {
                share: accepted,
                amount: 0,
            },
            stored,
        })
    }

    /// The shard of this number as its log says, as `DurableShard::recover`. The log comes back with a fault.
    pub(crate) fn recovered<S: StoreEnd<Receipt = R>>(
        alloc: Global,
        settings: &Settings,
        number: u32,
        log: D,
        end: &mut S,
    ) -> Result<Begun<D, R>, (RecoverFault, D)>
        requires { number < settings.now.shards }
        ensures begun { IfOk result (IsBegunAs settings.now number) }
        ensures accepted { IfOk result (λ begun.
            begun.accepted.amount ≡ length begun.shard.memory.state.rows) }
        ensures stored { IfOk result (λ begun.
            begun.stored.amount ≡ stored_count begun.shard.memory.state.rows) }
        ensures replays { D.is_honest → IfOk result (λ begun.
            Replays (shard_at settings.now number) (D.seen log).now.bytes begun.shard.memory.state) }
        ensures own { D.is_honest → OnOk result (IsOwnText settings.now number (D.seen log).now.bytes) }
        ensures fits { D.is_honest → OnOk result (FitsInTurn settings.now number (D.seen log).now.bytes) }
        ensures leaves { D.is_honest → IfOk result (λ begun.
            LeavesOrReplays (shard_at settings.now number) D.seen D.moment D.left_since log begun.shard.log begun.shard.memory.state) }
        ensures safe { IfOk result (HasSafeLog D.is_honest D.seen) }
        ensures refused { IfErr result (λ e. IsRefused D.is_honest D.seen D.failure_count settings.now number log e.0 e.1) }
    {
        let Ok(settings) = settings.try_clone() else {
            return Err((RecoverFault::NoMemory, log));
        };
        let RecoveredDurable {
            shard,
            accepted,
            stored,
        } = DurableShard::recover(alloc, settings, number, log, end)?;
        let (amount, _) = shard.memory().totals();
        Ok(Begun {
            shard,
            accepted: Told {
                share: accepted,
                amount,
            },
            stored,
        })
    }

    /// The shard, with the shares. Takes no memory.
    pub fn into_recovered(self) -> RecoveredDurable<D, R>
        ensures shard { result.shard ≡ self.shard }
        ensures shares { (result.accepted ≡ self.accepted) × (result.stored ≡ self.stored) }
    {
        let Begun {
            shard,
            accepted,
            stored,
        } = self;
        let Told { share, amount: _ } = accepted;
        RecoveredDurable {
            shard,
            accepted: share,
            stored,
        }
    }

    /// Gives the shares up, which stay out, and gives the log back. Takes no memory.
    pub(crate) fn into_log(self) -> D
        ensures { result ≡ self.shard.log }
    {
        let Begun {
            shard,
            accepted,
            stored,
        } = self;
        let Told { share, amount: _ } = accepted;
        let _ = (share.strand(), stored.strand());
        shard.into_parts().1
    }
}
