//! What a world answers.
use ing_parts::Found;
use ing_rows::Verdict;

/// What a world answers to an event (own).
#[derive(Drop)]
pub enum Reply {
    /// The verdict of each entry of a push.
    Pushed(Vec<Verdict>),
    /// The push has more entries than one may have.
    TooManyEntries,
    /// The push would let a count pass its last value.
    CounterFull,
    /// So many chunks were sealed.
    Sealed(u64),
    /// The chunk that begins with this number was claimed.
    Claimed(u64),
    /// The put stored its object.
    Stored,
    /// The put failed.
    Failed,
    /// The chunk is listed as stored.
    Finished,
    /// The chunk waits again.
    GivenBack,
    /// These entries were found.
    Found(Vec<Found>),
    /// Whether a checkpoint has replaced the log.
    Checkpointed(bool),
    /// No chunk waits to be claimed, the ticket is not open, or a finish lacks a receipt.
    Nothing,
}
