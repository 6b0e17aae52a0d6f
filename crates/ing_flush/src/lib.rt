//! How a claimed chunk is flushed, through whatever way a shard is reached, and the queue of what is to be flushed.
#![tactic(auto)]

mod door;
mod flush;
mod flusher;
mod gate;
mod line;
mod queue;
mod round;
mod tally;
mod worker;

pub use door::{Door, Unfinished};
pub use flush::{Flushed, flush_one};
pub use flusher::Flusher;
pub use gate::{FreeGate, Gate};
pub use queue::{FlushQueue, QueueFull, QueuePass};
pub use round::Round;
pub use tally::FlusherTally;
pub use worker::{Worker, flush_queued};
