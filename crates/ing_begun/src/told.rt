//! A pushing share, beside its amount.
ghost use Rattle.std.specs.Prelude.{◌≡◌};

use ing_tally::Share;
use std::marker::Model;

/// A share and its amount, which the program can read: a share has no bytes. Contracts see the share.
pub struct Told {
    pub share: Share,
    pub amount: u64,
}

impl Model for Told {
    ghost use Rattle.std.specs.Prelude.{◌≡◌};
    ghost use Rattle.ing_tally.specs.Books.{ShareState};

    ghost Value = { ShareState };

    ghost view = { λ told. told.share };

    ghost invariant = { λ told. told.amount ≡ told.share.amount };
}

/// Gives all of these up. Takes no memory.
pub fn strand_told(mut all: Vec<Told>) {
    while let Some(told) = all.pop() {
        let Told { share, amount: _ } = told;
        let _ = share.strand();
    }
    all.destroy_empty();
}
