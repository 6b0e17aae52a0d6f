//! The value under one lock: the streams of one shard.
#![tactic(auto)]

mod books;
mod catalog;
mod checkpoints;
mod claimed;
mod closed;
mod flushes;
mod judge;
mod laws;
mod listed;
mod names;
mod node_fault;
mod recovery;
mod replay_fault;
mod replays;
mod restores;
mod sealing;
mod shard;
mod shares;
mod stream;
mod streams;
mod tenants;

pub use books::{Gathered, Missing};
pub use catalog::{Asked, Texts};
pub use claimed::{ClaimedChunk, FinishFault, Finished, Stranger, Stray, Ticket};
pub use closed::ClosedShard;
pub use judge::JudgedPush;
pub use laws::{an_only_shard_has_all, streams_are_picked, streams_tell};
pub use listed::{Listed, StreamFront};
pub use node_fault::NodeFault;
pub use recovery::{RecoveredShard, Recovery};
pub use replay_fault::ReplayFault;
pub use sealing::{Due, Op, Sealing};
pub use shard::{Pushed, Shard};

// What its callers meet of the crates below.
pub use ing_checkpoint::{Flushed, relist};
pub use ing_parts::Listing;
pub use ing_postings::StreamNo;
pub use ing_refusals::{PushFault, RecoverFault, RelistFault};
