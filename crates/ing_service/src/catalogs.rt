//! Questions for catalogs of shards that nobody shares.
ghost use Rattle.std.specs.Prelude.{◌≡◌, IfOk, map};
ghost use Rattle.ing_durable.specs.Catalog.{matchers_in};
ghost use Rattle.ing_commands.specs.Views.{catalog_view};
ghost use Rattle.ing_session.specs.Selecting.{AsksBy};
ghost use Rattle.ing_session.specs.Views.{reply_data};
ghost use Rattle.ing_service.specs.ByShards.{ObeysCatalog};
ghost use Rattle.ing_service.specs.Held.{held_in, shard_held};

use crate::beginning::Beginning;
use crate::owned::OwnShards;
use crate::seats::catalog_of_each;
use ing_commands::Catalog;
use ing_durable::Asked;
use ing_labels::Selector;
use ing_session::{Reply, selector_fault};
use ing_store::Receipt;
use ing_wal::LogDisk;
use std::alloc::AllocError;

impl<N: Beginning, D: LogDisk + Drop, R: Receipt> OwnShards<N, D, R> {
    /// The reply to a question for a catalog.
    pub(crate) fn catalog(&self, catalog: &Catalog<'_>) -> Result<Reply, AllocError>
        ensures { let held = held_in (map (λ seat. shard_held seat.shard) self.now.seats.items) self.now.ops.items in
            IfOk result (λ reply. ObeysCatalog (catalog_view catalog.now) held held 0 (reply_data reply)) }
    {
        let Some(text) = catalog.text else {
            return self.list(catalog, None);
        };
        match Selector::parse(self.alloc, text) {
            Ok(selector) => self.list(catalog, Some(&selector)),
            Err(fault) => selector_fault(fault),
        }
    }

    /// The reply to one of this selector.
    fn list(&self, catalog: &Catalog<'_>, selector: Option<&Selector>) -> Result<Reply, AllocError>
        ensures { let held = held_in (map (λ seat. shard_held seat.shard) self.now.seats.items) self.now.ops.items in
            let question = catalog_view catalog.now in
            AsksBy question.text (matchers_in selector.entry) → IfOk result (λ reply.
            ObeysCatalog question held held 0 (reply_data reply)) }
    {
        let asked = Asked {
            tenant: &catalog.tenant,
            selector,
            facet: catalog.facet,
        };
        let texts = catalog_of_each(self.alloc, &self.seats, &asked)?;
        Ok(Reply::of_catalog(catalog.facet, texts.into_vec(self.alloc)?))
    }
}
