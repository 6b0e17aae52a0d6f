//! What may happen to a world.
ghost use Rattle.std.specs.Prelude.{◌≡◌, All, IfOk, false, true};
ghost use Rattle.ing_world.specs.Turns.{IsShort};

use ing_labels::{Labels, Selector};
use ing_parts::Question;
use ing_postings::StreamNo;
use ing_rows::{Entry, Stamp, Tenant};
use std::alloc::{AllocError, Global};

/// One of the two objects that a flushed chunk is in a store.
#[derive(Clone, Copy, Debug, PartialEq, Eq)]
pub enum Object {
    /// The chunk.
    Chunk,
    /// Its index row.
    Row,
}

/// What becomes of a put.
#[derive(Clone, Copy, Debug, PartialEq, Eq)]
pub enum Outcome {
    /// The object is stored, and the put says so.
    Stored,
    /// The object is not stored.
    Failed,
    /// The object is stored, and the put fails yet.
    StoredYetFailed,
}

/// What may happen to a world. A ticket is named by the position of its claim among the claims that gave one, from 0. (Own.)
#[derive(Drop)]
pub enum WorldEvent<'a> {
    /// Entries of one stream are pushed.
    Push {
        /// Whose stream it is.
        tenant: Tenant,
        /// The labels of the stream.
        labels: Labels,
        /// The entries, in order.
        entries: Vec<Entry>,
        /// When.
        now: Stamp,
    },
    /// The growing chunks that are due are sealed.
    Sweep {
        /// When.
        now: Stamp,
    },
    /// All growing chunks are sealed.
    SealAll,
    /// The oldest chunk of a stream that waits is claimed.
    Claim {
        /// The stream, by its number in the shard.
        stream: StreamNo,
    },
    /// One of the objects of a claimed chunk is put into the store.
    Put {
        /// The ticket of the claim.
        ticket: usize,
        /// Which of the objects.
        object: Object,
        /// What becomes of it.
        outcome: Outcome,
    },
    /// A claimed chunk is listed as stored.
    Finish {
        /// The ticket of the claim.
        ticket: usize,
    },
    /// A claimed chunk is put back.
    GiveBack {
        /// The ticket of the claim.
        ticket: usize,
    },
    /// Entries are asked for.
    Query {
        /// Whose streams are asked for.
        tenant: Tenant,
        /// Which of them.
        selector: Selector,
        /// Which of their entries, and in which order.
        question: Question<'a>,
    },
    /// A checkpoint is to replace the log of the shard, which has none.
    Checkpoint,
}

/// How many bytes a canonical name may have that is to be written.
const MAX_NAME: u64 = 0xffff_ffff;

impl WorldEvent<'_> {
    /// Whether it is no push, or the canonical name of its stream can be written.
    fn is_short(&self) -> bool
        ensures yes { result ≡ true → IsShort self.now }
        ensures no { result ≡ false → IsShort self.now → ⊥ }
    {
        match self {
            WorldEvent::Push { labels, .. } => labels.name().len() as u64 <= MAX_NAME,
            _ => true,
        }
    }
}

/// Whether the canonical name of each stream that is pushed to has fewer than 2^32 bytes, so that its chunks can be written. Takes
/// no memory. (Own.)
pub fn names_are_short(events: &[WorldEvent<'_>]) -> bool
    ensures yes { result ≡ true → All IsShort events.now }
    ensures no { result ≡ false → All IsShort events.now → ⊥ }
{
    for event in events {
        if !event.is_short() {
            return false;
        }
    }
    true
}

/// A copy of entries.
pub(crate) fn copied(alloc: Global, entries: &[Entry]) -> Result<Vec<Entry>, AllocError>
    ensures { IfOk result (λ copy. copy.items ≡ entries.now) }
{
    let mut copy = Vec::with_capacity(alloc, entries.len())?;
    for entry in entries {
        copy.push(entry.try_clone(alloc)?)?;
    }
    Ok(copy)
}
