//! A shard whose books are gathered.
ghost use Rattle.std.specs.Prelude.{◌≡◌, Bool, All, IfOk, filter, length};
ghost use Rattle.ing_parts.specs.Answers.{StandApart};
ghost use Rattle.ing_parts.specs.Parts.{HasRangeOf, HasRows, standing};
ghost use Rattle.ing_parts.specs.Questions.{question_view};
ghost use Rattle.ing_rows.specs.Gauges.{StandsOnce, gauges_of};
ghost use Rattle.ing_rows.specs.Placement.{shard_of};
ghost use Rattle.ing_rows.specs.Rows.{StreamKey, count_of};
ghost use Rattle.ing_shard.specs.Closed.{IsClosedShard};
ghost use Rattle.ing_shard.specs.Contents.{stored_count};
ghost use Rattle.ing_shard.specs.Picked.{Picks};
ghost use Rattle.ing_shard.specs.Streams.{whole};

use crate::laws::streams_are_picked;
use crate::streams::Streams;
use ing_labels::Selector;
use ing_limits::Settings;
use ing_parts::{Question, Snapshot};
use ing_rows::{Gauges, Tenant, order_does_not_count, parts_are_apart, pushes_keep_states_sound};
use ing_store::Receipt;
use std::alloc::{AllocError, Global};
use std::marker::Model;

/// A shard that was ended with all shares of its books: it is read, and no call changes it. Contracts see its settings, its number, and
/// the model's state, whose rows and marks stand in any order. (Own.)
#[derive(Drop)]
pub struct ClosedShard<R: Receipt> {
    settings: Settings,
    number: u32,
    streams: Streams<R>,
}

impl<R: Receipt> Model for ClosedShard<R> {
    ghost use Rattle.ing_shard.specs.Closed.{ClosedContents, IsClosedShard, closed_code};
    ghost use Rattle.ing_shard.specs.Streams.{whole};

    ghost Value = { ClosedContents };

    ghost use Rattle.std.specs.Coded.{codes};

    ghost coded = { closed_code (Prim.hlevel (codes)) };

    ghost view = { λ closed. record {
      settings = closed.settings;
      number = closed.number;
      state = whole closed.streams.list.items;
    } };

    ghost invariant = { λ closed. IsClosedShard closed.settings closed.number closed.streams };
}

impl<R: Receipt> ClosedShard<R> {
    /// Of a shard's parts without its books.
    pub(crate) fn new(settings: Settings, number: u32, streams: Streams<R>) -> ClosedShard<R>
        requires { IsClosedShard settings number streams }
        ensures { result
            ≡ record { settings = settings; number = number; state = whole streams.list.items } }
    {
        ClosedShard {
            settings,
            number,
            streams,
        }
    }

    /// Its number.
    pub fn number(&self) -> u32
        ensures { result ≡ self.now.number }
    {
        self.number
    }

    /// How many entries the shard has, and how many of them are stored. Takes no memory.
    pub fn totals(&self) -> (u64, u64)
        ensures totals { result ≡ (length self.now.state.rows, stored_count self.now.state.rows) }
        // Each number below a stream's count is found in exactly one place, and no other number is found.
        ensures once { (stream : StreamKey) →
            StandsOnce self.now.state.rows stream (count_of self.now.state.rows stream) }
    {
        self.streams.totals()
    }

    /// How many live streams a tenant has, and its entries and their sizes in bytes by the kind of their place. Takes no memory (own).
    pub fn gauges(&self, tenant: &Tenant) -> Gauges
        ensures { result ≡ gauges_of self.now.state.rows tenant.now }
    {
        self.streams.gauges(tenant)
    }

    /// What the shard has of a tenant's streams whose labels the selector matches, as `Shard::snapshot`.
    ///
    /// `AllocError` where memory runs out.
    pub fn snapshot<'q>(
        &self,
        alloc: Global,
        tenant: &Tenant,
        selector: &Selector,
        question: Question<'q>,
    ) -> Result<Snapshot<'q, R>, AllocError>
        ensures front { IfOk result (λ snapshot. snapshot.front ≡ length self.now.state.rows) }
        ensures range { IfOk result (HasRangeOf (question_view question.entry)) }
        ensures best { IfOk result (λ snapshot.
            (snapshot.best.order ≡ question.entry.order) × (snapshot.best.limit ≡ question.entry.limit)) }
        // Exactly the rows of the streams that are picked, wherever they stand, as far as an answer may have them.
        ensures rows { IfOk result (λ snapshot. (picked : StreamKey → Bool) →
            Picks tenant.now selector.now picked →
            HasRows (filter (λ r. picked r.stream) self.now.state.rows) snapshot) }
        // All that stands there is of streams that have their place in this shard.
        ensures own { IfOk result (λ snapshot.
            All (λ f. shard_of tenant.now f.name self.now.settings.shards ≡ self.now.number)
            (standing snapshot)) }
        // No entry stands there twice.
        ensures once { IfOk result (λ snapshot. StandApart (standing snapshot)) }
    {
        streams_are_picked();
        pushes_keep_states_sound();
        order_does_not_count();
        parts_are_apart();
        let (front, _) = self.totals();
        self.streams
            .snapshot(alloc, front, tenant, selector, question)
    }
}
