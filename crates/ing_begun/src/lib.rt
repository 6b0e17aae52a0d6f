//! Shards as a run finds them: new, or made again from their logs side by side, each with shares of what it begins with.
//!
//! A caller has all of them by `Shards::fresh` or `Shards::recover`, and takes each out (`into_parts`, `Begun::into_recovered`): to own it,
//! as `ing_program` does, or to put it behind a lock, as `ing_node` does. Below stands the shard over its log (`ing_durable`).
#![tactic(auto)]

mod begun;
mod recovering;
mod shards;
mod told;

pub use begun::Begun;
pub use shards::Shards;
pub use told::{Told, strand_told};

// What its callers meet of the crates below.
pub use ing_durable::{
    Asked, ClosedShard, Due, DurableShard, FinishFault, Finished, Flushed, Gathered, Missing,
    NodeFault, Op, PushFault, Pushed, RecoverFault, RecoveredDurable, Shard, Stranger, Stray,
    StreamNo, Texts, Ticket, Unsynced, streams_are_picked,
};
