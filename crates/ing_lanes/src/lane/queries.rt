//! Queries through the locks.
ghost use Rattle.std.specs.Prelude.{◌≡◌, IfOk};
ghost use Rattle.ing_labels.specs.Selectors.{IsSelector, IsSelectorText};
ghost use Rattle.ing_commands.specs.Views.{query_view};
ghost use Rattle.ing_lanes.specs.ByLane.{CameTo, Stays, Told, told_by};
ghost use Rattle.ing_session.specs.Causes.{GoesOn};
ghost use Rattle.ing_session.specs.Views.{reply_data};

use super::Lane;
use super::faults::answer_fault;
use ing_commands::Query;
use ing_labels::Selector;
use ing_node::NodeName;
use ing_session::{Reply, page_of, question_of, selector_fault};
use ing_store::{Receipt, StoreEnd};
use ing_wal::LogDisk;
use std::alloc::AllocError;
use std::sync::Wait;

impl<'r, N: NodeName, D: LogDisk + Drop, R: Receipt, F: StoreEnd<Receipt = R> + Drop, W: Wait> Lane<
    'r,
    N,
    D,
    R,
    F,
    W,
> {
    /// The reply to a query.
    pub(super) fn query<S: StoreEnd<Receipt = R>>(
        &mut self,
        end: &mut S,
        query: &Query<'_>,
    ) -> Result<Reply, AllocError>
        ensures came { IfOk result (λ reply. (told : Told) → Stays (told_by self.old.pusher) told →
            CameTo S.is_honest N.settings (query_view query.now) told (S.failure_count end.old) (S.failure_count end.new)
            (reply_data reply)) }
        ensures pusher { self.new.pusher ≡ self.old.pusher }
        ensures board { self.new.board ≡ self.old.board }
        ensures workers { self.new.workers ≡ self.old.workers }
        ensures end { GoesOn S.never_fails S.failure_count end.old end.new }
    {
        match Selector::parse(self.alloc, query.text) {
            Ok(selector) => self.find(end, query, &selector),
            Err(fault) => selector_fault(fault),
        }
    }

    /// The reply to a query of this selector.
    fn find<S: StoreEnd<Receipt = R>>(
        &mut self,
        end: &mut S,
        query: &Query<'_>,
        selector: &Selector,
    ) -> Result<Reply, AllocError>
        ensures came { IsSelectorText selector.now query.now.text.now → IsSelector selector.now →
            IfOk result (λ reply. (told : Told) → Stays (told_by self.old.pusher) told →
            CameTo S.is_honest N.settings (query_view query.now) told (S.failure_count end.old) (S.failure_count end.new)
            (reply_data reply)) }
        ensures pusher { self.new.pusher ≡ self.old.pusher }
        ensures board { self.new.board ≡ self.old.board }
        ensures workers { self.new.workers ≡ self.old.workers }
        ensures end { GoesOn S.never_fails S.failure_count end.old end.new }
    {
        let question = question_of(query);
        match self.shared.ingester.query_after(
            self.rt,
            self.alloc,
            &mut self.pusher,
            end,
            &query.tenant,
            selector,
            question,
        ) {
            Ok(answer) => Ok(Reply::Query {
                found: answer.entries,
                fronts: answer.fronts,
                page: page_of(query),
            }),
            Err(fault) => answer_fault(fault),
        }
    }
}
