//! A text that only clauses read.
ghost use Rattle.std.specs.Prelude.{◌≡◌};

use boxcar::tag::{Names, Tag};
use std::marker::Model;

/// How the text is read off a slice.
struct Text;

impl<'a> Names<&'a [u8]> for Text {
    ghost numbers = { λ bytes. bytes.now };
}

/// A text that only clauses read: it has no bytes where the program runs (own).
#[derive(Drop)]
pub struct Meaning {
    tag: Tag,
}

impl Model for Meaning {
    ghost use Rattle.std.specs.Prelude.{ℕ, List};

    ghost Value = { List ℕ };

    ghost view = { λ m. m.tag.numbers };
}

impl Meaning {
    /// What means these bytes. Reads none of them, and takes no memory.
    pub fn of(bytes: &[u8]) -> Meaning
        ensures { result ≡ bytes.now }
    {
        Meaning {
            tag: Tag::of::<&[u8], Text>(&bytes),
        }
    }
}
