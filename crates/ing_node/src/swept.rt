//! What a round of sweeping left.

use ing_begun::Op;

/// What a round of sweeping left.
#[derive(Debug, Drop)]
pub struct Swept {
    /// How many chunks were sealed. A count that would pass 2^64-1 stays there.
    pub sealed: u64,
    /// How many operations were put into the flush queue.
    pub queued: u64,
    /// The operations for which there was no room in it.
    pub left: Vec<Op>,
}
