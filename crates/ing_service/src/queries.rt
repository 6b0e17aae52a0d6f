//! Queries of shards that nobody shares.
ghost use Rattle.std.specs.Prelude.{◌≡◌, IfOk, Ok, map};
ghost use Rattle.ing_labels.specs.Selectors.{IsSelector, IsSelectorText};
ghost use Rattle.ing_commands.specs.Commands as commands;
ghost use Rattle.ing_commands.specs.Views.{query_view};
ghost use Rattle.ing_session.specs.Causes.{GoesOn};
ghost use Rattle.ing_session.specs.Runs.{IsObeyed};
ghost use Rattle.ing_session.specs.Views.{reply_data};
ghost use Rattle.ing_service.specs.ByShards.{by_shards};
ghost use Rattle.ing_service.specs.Held.{Held, held_in, shard_held};

use crate::beginning::Beginning;
use crate::owned::OwnShards;
use crate::seats::snapshots_of_each;
use ing_commands::Query;
use ing_labels::Selector;
use ing_query::{Snapshot, run_query, standing_joins};
use ing_session::{Reply, page_of, query_fault, question_of, selector_fault};
use ing_store::{Receipt, StoreEnd};
use ing_wal::LogDisk;
use std::alloc::{AllocError, Global};

impl<N: Beginning, D: LogDisk + Drop, R: Receipt> OwnShards<N, D, R> {
    /// The reply to a query.
    pub(crate) fn query<S: StoreEnd<Receipt = R>>(
        &self,
        end: &mut S,
        query: &Query<'_>,
    ) -> Result<Reply, AllocError>
        ensures obeyed { let held = held_in (map (λ seat. shard_held seat.shard) self.now.seats.items) self.now.ops.items in
            IfOk result (λ reply.
            IsObeyed (by_shards S.is_honest N.begun) self.now.settings (Ok (commands.Query (query_view query.now)))
            held (λ (left : Held). left ≡ held) (S.failure_count end.old) (S.failure_count end.new) (reply_data reply)) }
        ensures end { GoesOn S.never_fails S.failure_count end.old end.new }
    {
        match Selector::parse(self.alloc, query.text) {
            Ok(selector) => self.find(end, query, &selector),
            Err(fault) => selector_fault(fault),
        }
    }

    /// The reply to a query of this selector.
    fn find<S: StoreEnd<Receipt = R>>(
        &self,
        end: &mut S,
        query: &Query<'_>,
        selector: &Selector,
    ) -> Result<Reply, AllocError>
        ensures obeyed { let held = held_in (map (λ seat. shard_held seat.shard) self.now.seats.items) self.now.ops.items in
            IsSelectorText selector.now query.now.text.now → IsSelector selector.now → IfOk result (λ reply.
            IsObeyed (by_shards S.is_honest N.begun) self.now.settings (Ok (commands.Query (query_view query.now)))
            held (λ (left : Held). left ≡ held) (S.failure_count end.old) (S.failure_count end.new) (reply_data reply)) }
        ensures end { GoesOn S.never_fails S.failure_count end.old end.new }
    {
        let question = question_of(query);
        standing_joins();
        let snapshots = snapshots_of_each(
            self.alloc,
            &self.seats,
            &query.tenant,
            selector,
            question,
        )?;
        let fronts = fronts_in(self.alloc, &snapshots)?;
        match run_query(self.alloc, snapshots, end, question) {
            Ok(found) => Ok(Reply::Query {
                found,
                fronts,
                page: page_of(query),
            }),
            Err(fault) => query_fault(fault),
        }
    }
}

/// How many entries each snapshot's shard had accepted.
fn fronts_in<R: Receipt>(
    alloc: Global,
    snapshots: &[Snapshot<'_, R>],
) -> Result<Vec<u64>, AllocError>
    ensures { IfOk result (λ fronts. fronts.items ≡ map (λ snapshot. snapshot.front) snapshots.now) }
{
    let mut fronts = Vec::with_capacity(alloc, snapshots.len())?;
    for snapshot in snapshots {
        fronts.push(snapshot.front)?;
    }
    Ok(fronts)
}
