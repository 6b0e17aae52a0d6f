//! What flushes come to.
ghost use Rattle.std.specs.Prelude.{◌≡◌, ◌+◌, ◌-◌, ◌^◌, min};
ghost use Rattle.ing_flush.specs.Rounds.{failed_in, other_in, stored_in};

use crate::flush::Flushed;
use ing_store::StoreFault;

/// What flushes, one after another, came to. A count that would pass 2^64-1 stays there.
#[derive(Clone, Copy, Debug, Default, PartialEq, Eq)]
pub struct Round {
    /// How many chunks are stored.
    pub stored: u64,
    /// How many chunks were given back, or not claimed for want of memory, or were in flight no longer.
    pub failed: u64,
    /// How many of these for another reason than a failure of the store: memory ran out, or they were in flight no longer.
    pub other: u64,
}

impl Round {
    /// Both together. Takes no memory.
    pub fn plus(self, other: Round) -> Round
        ensures stored { result.stored ≡ min (self.stored + other.stored) (2 ^ 64 - 1) }
        ensures failed { result.failed ≡ min (self.failed + other.failed) (2 ^ 64 - 1) }
        ensures other { result.other ≡ min (self.other + other.other) (2 ^ 64 - 1) }
    {
        Round {
            stored: self.stored.saturating_add(other.stored),
            failed: self.failed.saturating_add(other.failed),
            other: self.other.saturating_add(other.other),
        }
    }

    /// What one flush came to.
    pub(crate) fn of_flush(flushed: &Flushed) -> Round
        ensures stored { result.stored ≡ stored_in flushed.now }
        ensures failed { result.failed ≡ failed_in flushed.now }
        ensures other { result.other ≡ other_in flushed.now }
    {
        match flushed {
            Flushed::Stored(_) => Round {
                stored: 1,
                ..Round::default()
            },
            Flushed::Nothing => Round::default(),
            Flushed::GaveBack(StoreFault::Failed | StoreFault::Damaged) => Round {
                failed: 1,
                ..Round::default()
            },
            Flushed::GaveBack(StoreFault::NoMemory) | Flushed::Strange(_) => Round {
                stored: 0,
                failed: 1,
                other: 1,
            },
        }
    }
}
