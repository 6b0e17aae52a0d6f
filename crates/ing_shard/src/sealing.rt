//! Which growing chunks are sealed, and what a sweep answers.

use ing_postings::StreamNo;

/// Which growing chunks are sealed.
#[derive(Clone, Copy, Debug, PartialEq, Eq)]
pub enum Sealing {
    /// Those that are due at this time, in nanoseconds.
    Due(u64),
    /// All of them, by force.
    Forced,
}

/// Whether what a shard without a log does outlives a crash.
pub(crate) const NOT_DURABLE: bool = false;

/// A chunk that is to be flushed: the oldest sealed one of a stream (own).
#[derive(Clone, Copy, Debug, PartialEq, Eq)]
pub struct Op {
    /// The number of the stream's shard.
    pub shard: u32,
    /// The stream's number in it.
    pub stream: StreamNo,
}

/// What a sweep or a seal of everything left.
#[derive(Debug, Drop)]
pub struct Due {
    /// How many chunks it sealed.
    pub sealed: u64,
    /// One operation for each sealed chunk that waits in memory, those sealed earlier too, by the number of its stream.
    pub ops: Vec<Op>,
    /// Whether the seals outlive a crash: never of a shard without a log.
    pub durable: bool,
}
