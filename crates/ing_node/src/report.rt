//! What a closing tells.
ghost use Rattle.std.specs.Prelude.{◌≡◌};
ghost use Rattle.ing_node.specs.Reports.{close_refusal_of};

use ing_begun::{ClosedShard, Missing};
use ing_diary::Unsettled;
use ing_refusals::Refusal;
use ing_store::Receipt;
use ing_tally::ShardReport;

/// What an ingester had when it was closed: of each shard, by number.
#[derive(Debug, Drop)]
pub struct Report {
    /// Of each shard, by number.
    pub shards: Vec<ShardReport>,
}

/// An ingester that was closed: what is told of its shards, and they, to be read.
#[derive(Drop)]
pub struct Closed<R: Receipt> {
    /// What they had.
    pub report: Report,
    /// The shards, by number.
    pub shards: Vec<ClosedShard<R>>,
}

impl<R: Receipt> Closed<R> {
    /// What the shards had, without them.
    pub fn into_report(self) -> Report
        ensures { result ≡ self.report }
    {
        let Closed { report, shards: _ } = self;
        report
    }
}

/// Why an ingester was not closed.
#[derive(Debug, PartialEq, Eq, Drop)]
pub enum CloseRefusal {
    /// Memory ran out.
    NoMemory,
    /// So many shares are missing, over all shards: some pusher, flusher or ticket is still out, or was given up.
    StillOut(Missing),
    /// The shard behind the lock at this place has another number.
    Misplaced {
        /// The place.
        shard: u32,
    },
    /// The entries of a shard could not be read back, or are not those that the pushers noted.
    Unsettled {
        /// Its number.
        shard: u32,
        /// Why.
        why: Unsettled,
    },
}

impl CloseRefusal {
    /// Which refusal it is. Takes no memory.
    pub fn refusal(&self) -> Refusal
        ensures { result ≡ close_refusal_of self.now }
    {
        match self {
            CloseRefusal::NoMemory => Refusal::NoMemory,
            CloseRefusal::StillOut(_) => Refusal::StillOut,
            CloseRefusal::Misplaced { .. } => Refusal::Misplaced,
            CloseRefusal::Unsettled { why, .. } => why.refusal(),
        }
    }
}
