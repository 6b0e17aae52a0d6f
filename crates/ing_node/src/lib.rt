//! One ingester: shards behind locks, those who push and flush through them, and the close that finds every entry.
//!
//! `Ingester::open` takes shards that are new or made again (`ing_begun`), and puts each behind a lock. Any number of threads push, sweep, flush
//! and query through it, each with shares of what it was told, or stored; `close` takes all of them, and tells what became of every entry.
//! Below stand one flush and its queue (`ing_flush`), and what pushers note (`ing_diary`).
#![tactic(auto)]

mod abandon;
mod board;
mod closing;
mod diaries;
mod door;
mod earlier;
mod flushing;
mod fronts;
mod gathering;
mod held;
mod ingester;
pub mod laws;
mod names;
mod opening;
mod pending;
mod pusher;
mod query;
mod report;
mod rounds;
mod settling;
mod swept;

pub use abandon::{strand_pushers, strand_tallies};
pub use board::BoardReader;
pub use closing::CloseFault;
pub use earlier::Earlier;
pub use flushing::{FlusherFault, Flushing, Sweeper};
pub use ingester::Ingester;
pub use names::NodeName;
pub use pusher::{Pusher, Waiting};
pub use query::{Answer, AnswerFault};
pub use report::{CloseRefusal, Closed, Report};
pub use swept::Swept;

// What its callers meet of the crates below.
pub use ing_begun::{Asked, Begun, ClosedShard, NodeFault, Op, RecoverFault, Shards};
pub use ing_diary::{Mismatch, Question, Unsettled};
pub use ing_flush::{FlusherTally, FreeGate, Round, Worker};
