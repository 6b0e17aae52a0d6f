//! What lines of input command: a line is read as JSON, and a command is made of it or a fault is told.
#![tactic(auto)]

mod catalog;
mod command;
mod fault;
mod flush;
mod gauges;
mod push;
mod query;
pub mod shape;
mod sweep;

pub use catalog::Catalog;
pub use command::{Command, command_of, read_value};
pub use fault::LineFault;
pub use flush::Flush;
pub use gauges::GaugesOf;
pub use push::{Push, StreamPush};
pub use query::Query;
pub use sweep::Sweep;
