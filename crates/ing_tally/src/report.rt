//! What is told of a shard at its end.

/// What a shard had when every share of its books was there.
#[derive(Clone, Copy, Debug, Default, PartialEq, Eq)]
pub struct ShardReport {
    /// How many entries the pushers were told were accepted.
    pub accepted: u64,
    /// How many it had from an earlier run.
    pub recovered: u64,
    /// How many are stored.
    pub stored: u64,
    /// How many are kept in memory.
    pub kept: u64,
}
