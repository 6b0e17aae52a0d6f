//! What the shards of an ingester began with.
ghost use Rattle.std.specs.Prelude.{◌≡◌, ◌<◌, ℕ, length, vec_len};
ghost use Rattle.ing_flush.specs.Tallies.{amount_at};
ghost use Rattle.ing_node.specs.Reports.{recovered_at};

use crate::names::NodeName;
use ing_begun::{Told, strand_told};
use ing_diary::Fronts;
use ing_flush::FlusherTally;
use ing_tally::ShardReport;
use std::marker::{Model, PhantomData};

/// Shares of what the shards of one ingester began with: of their entries, and of those of them that are stored, as an earlier run
/// was told of them; and, where the settings want diaries, how many entries each stream had. It cannot be dropped. Contracts see the
/// shares, shard by shard.
pub struct Earlier<N: NodeName> {
    pub(crate) told: Vec<Told>,
    pub(crate) stored: FlusherTally,
    pub(crate) fronts: Option<Vec<Fronts>>,
    pub(crate) of: PhantomData<N>,
}

impl<N: NodeName> Model for Earlier<N> {
    ghost use Rattle.std.specs.Prelude.{◌≡◌, IfSome, is_some, map, vec_len};
    ghost use Rattle.ing_diary.specs.Fronts.{front_in};
    ghost use Rattle.ing_node.specs.Earlier.{EarlierShares};
    ghost use Rattle.ing_node.specs.Names.{AreAcceptedIn, IsTallyOf};

    ghost Value = { EarlierShares };

    ghost view = { λ earlier. record {
      told = earlier.told.items;
      stored = earlier.stored;
    } };

    ghost invariant = { λ earlier. (vec_len earlier.told ≡ N.settings.shards)
        × AreAcceptedIn N.books earlier.told.items × IsTallyOf N.settings.shards N.books earlier.stored
        × (earlier.told.items ≡ N.earlier.told) × (earlier.stored ≡ N.earlier.stored)
        × (is_some earlier.fronts ≡ N.settings.diaries)
        × IfSome earlier.fronts (λ all. (vec_len all ≡ N.settings.shards) × (map front_in all.items ≡ N.earlier.fronts)) };
}

impl<N: NodeName> Earlier<N> {
    /// It has a share of each shard.
    pub fn is_of_each(&self)
        ensures { (length N.earlier.told ≡ N.settings.shards) × (length N.earlier.stored ≡ N.settings.shards) }
    {
        // What the type keeps is seen where a field is read.
        let _shards = self.stored.shards();
    }

    /// These reports with how many entries each shard began with. Takes no memory.
    pub(crate) fn note(&self, mut reports: Vec<ShardReport>) -> Vec<ShardReport>
        requires { vec_len reports ≡ N.settings.shards }
        ensures all { vec_len result ≡ N.settings.shards }
        ensures noted { (i : ℕ) → i < N.settings.shards → recovered_at i result.items ≡ amount_at i N.earlier.told }
    {
        for place in 0..reports.len() {
            reports[place].recovered = self.told[place].amount;
        }
        reports
    }

    /// Gives the shares up, which stay out. Takes no memory.
    pub fn strand(self) {
        let Earlier {
            told,
            stored,
            fronts: _,
            of: _,
        } = self;
        strand_told(told);
        stored.strand();
    }
}
