//! The names of one ingester.
ghost use Rattle.std.specs.Prelude.{ℕ};

use std::marker::Brand;

/// Names one ingester: its settings, whether its shards have logs, the books of each shard number, and
/// what its shards began with. It has no calls; the call over it picks it, so that
/// two ingesters have different names, and what belongs to one fits no other (own).
pub trait NodeName {
    ghost use Rattle.std.specs.Prelude.{Bool};
    ghost use Rattle.ing_limits.specs.Settings.{StoreSettings};
    ghost use Rattle.ing_begun.specs.Books.{BookNames};
    ghost use Rattle.ing_node.specs.Earlier.{EarlierState};

    /// The settings.
    ghost settings: { StoreSettings };

    /// Its shards may have logs that are not torn.
    ghost has_logs: { Bool };

    /// The books of the shard of each number.
    ghost books: { ℕ → BookNames };

    /// Shares of what its shards began with.
    ghost earlier: { EarlierState };
}

impl NodeName for Brand {
    ghost use Rattle.std.specs.Prelude.{false};
    ghost use Rattle.ing_node.specs.Earlier.{no_earlier};
    ghost use Rattle.ing_node.specs.Names.{no_names, no_settings};

    ghost settings = { no_settings };

    ghost has_logs = { false };

    ghost books = { λ _. no_names };

    ghost earlier = { no_earlier };
}
