//! The session of the program: lines in, replies out, over any reader and writer, and over whatever obeys commands (a `Service`).
//!
//! It reads lines, tells what each commands, has it obeyed, and writes the reply; at the end of input the report; and it says how a run
//! ends. What a command does to shards is the service's: `serve_all` is proved of any that keeps the trait's clauses.
#![tactic(auto)]

mod answer;
mod asking;
mod concluding;
mod ending;
mod faults;
mod heeding;
mod laws;
mod lines;
mod push_lines;
mod reply;
mod service;
mod ticks;
mod transport;

pub use asking::{page_of, question_of};
pub use concluding::conclude;
pub use ending::Ending;
pub use faults::{label_fault, label_limits, push_fault, query_fault, selector_fault};
pub use laws::lines_end_at_line_feeds;
pub use lines::{LineError, Lines, NextLine, Part};
pub use push_lines::PushLines;
pub use reply::{Reply, StreamReply};
pub use service::{Reporter, Service};
pub use ticks::{NoTicker, Tick, Ticker};
pub use transport::{put_reply, serve_all, serve_channel};
