//! Shards that one input owns: what each command does to them is known, and so what is replied.
//!
//! A run stands on a `Service`; this one has each shard over its log, without a lock, since one thread obeys all commands. Pushes go to
//! the shard of their stream, sweeps, flushes and checkpoints to one shard after another, and a query asks all of them.
#![tactic(auto)]

mod beginning;
mod catalogs;
mod ends;
mod flights;
mod flushes;
pub mod laws;
mod owned;
mod pushes;
mod queries;
mod runs;
mod seat;
mod seats;
mod uploads;

pub use beginning::Beginning;
pub use ends::Ends;
pub use owned::OwnShards;
pub use runs::{run, run_own};
pub use seat::Seat;
