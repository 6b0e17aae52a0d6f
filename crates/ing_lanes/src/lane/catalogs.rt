//! Questions for catalogs through the locks.
ghost use Rattle.std.specs.Prelude.{◌≡◌, IfOk};
ghost use Rattle.ing_commands.specs.Views.{catalog_view};
ghost use Rattle.ing_lanes.specs.ByLane.{ListsSo, Stays, Told, told_by};
ghost use Rattle.ing_node.specs.Catalog.{matchers_in};
ghost use Rattle.ing_session.specs.Selecting.{AsksBy};
ghost use Rattle.ing_session.specs.Views.{reply_data};

use super::Lane;
use super::faults::node_fault;
use ing_commands::Catalog;
use ing_labels::Selector;
use ing_node::{Asked, NodeName};
use ing_session::{Reply, selector_fault};
use ing_store::{Receipt, StoreEnd};
use ing_wal::LogDisk;
use std::alloc::AllocError;
use std::sync::Wait;

impl<'r, N: NodeName, D: LogDisk + Drop, R: Receipt, F: StoreEnd<Receipt = R> + Drop, W: Wait> Lane<
    'r,
    N,
    D,
    R,
    F,
    W,
> {
    /// The reply to a question for a catalog.
    pub(super) fn catalog(&mut self, catalog: &Catalog<'_>) -> Result<Reply, AllocError>
        ensures came { IfOk result (λ reply. (told : Told) → Stays (told_by self.old.pusher) told →
            ListsSo N.settings (catalog_view catalog.now) told (reply_data reply)) }
        ensures pusher { self.new.pusher ≡ self.old.pusher }
        ensures board { self.new.board ≡ self.old.board }
        ensures workers { self.new.workers ≡ self.old.workers }
    {
        let Some(text) = catalog.text else {
            return self.list(catalog, None);
        };
        match Selector::parse(self.alloc, text) {
            Ok(selector) => self.list(catalog, Some(&selector)),
            Err(fault) => selector_fault(fault),
        }
    }

    /// The reply to one of this selector.
    fn list(
        &mut self,
        catalog: &Catalog<'_>,
        selector: Option<&Selector>,
    ) -> Result<Reply, AllocError>
        ensures came { AsksBy (catalog_view catalog.now).text (matchers_in selector.entry) →
            IfOk result (λ reply. (told : Told) → Stays (told_by self.old.pusher) told →
            ListsSo N.settings (catalog_view catalog.now) told (reply_data reply)) }
        ensures pusher { self.new.pusher ≡ self.old.pusher }
        ensures board { self.new.board ≡ self.old.board }
        ensures workers { self.new.workers ≡ self.old.workers }
    {
        let asked = Asked {
            tenant: &catalog.tenant,
            selector,
            facet: catalog.facet,
        };
        let ingester = &self.shared.ingester;
        match ingester.catalog_after(self.rt, self.alloc, &mut self.pusher, &asked) {
            Ok(texts) => Ok(Reply::of_catalog(catalog.facet, texts)),
            Err(fault) => node_fault(fault),
        }
    }
}
