//! What a flusher has stored, shard by shard.
ghost use Rattle.std.specs.Prelude.{◌≡◌, length};

use ing_tally::{Share, strand_each};
use std::marker::Model;

/// A share of the stored entries of each shard, in the order of the shards' numbers. It cannot be dropped. Contracts see the
/// shares.
pub struct FlusherTally {
    pub(crate) shares: Vec<Share>,
}

impl Model for FlusherTally {
    ghost use Rattle.std.specs.Prelude.{List};
    ghost use Rattle.ing_tally.specs.Books.{ShareState};

    ghost Value = { List ShareState };

    ghost view = { λ tally. tally.shares.items };
}

impl FlusherTally {
    /// The tally of these shares, one for each shard in the order of their numbers.
    pub fn of_shares(shares: Vec<Share>) -> FlusherTally
        ensures { result ≡ shares.items }
    {
        FlusherTally { shares }
    }

    /// How many shards it counts for.
    pub fn shards(&self) -> usize
        ensures { result ≡ length self.now }
    {
        self.shares.len()
    }

    /// Its shares.
    pub fn into_shares(self) -> Vec<Share>
        ensures { result.items ≡ self }
    {
        let FlusherTally { shares } = self;
        shares
    }

    /// Gives its shares up, which stay out. Takes no memory.
    pub fn strand(self) {
        strand_each(self.into_shares());
    }
}
