//! The program but for its handles: from argument words, a settings file and a folder to a run, over shards that nobody shares, or over
//! shards that many channels and a clock share.
//!
//! `start` reads the words and the settings file. Without a folder it runs over new shards and a store in memory (`start_on`); with one it
//! has the shards made again from their logs, side by side (`start_over`, `run_over`). What is served then, and how, is `ing_service`'s.
//! Beside an input the settings may ask for a clock (`InputClock`), for which a thread reads the input ahead (`Feed`).
//! Where `asks_channels` finds pairs of paths among the words, `start_channels` opens each (`Paths`), with a clock beside them where the
//! settings ask for one (`Ticks`), and serves them side by side by `ing_lanes`.
#![tactic(auto)]

mod channels;
mod clocked;
mod feed;
mod folders;
mod lengths;
mod over;
mod own;
mod paths;
mod periods;
mod program;
mod ticks;

pub use channels::{asks_channels, start_channels};
pub use clocked::{Clocked, InputClock};
pub use feed::{Feed, FeedReader};
pub use folders::{Disk, Folders};
pub use over::start_over;
pub use own::run_over;
pub use paths::{Input, Output, Paths};
pub use program::{start, start_on};
pub use ticks::{Ticking, Ticks};

// What its callers meet of the crates below.
pub use ing_folder::{FolderLog, FolderStore, hold_streams};
pub use ing_lanes::{Ending, NoTicker, Tick, Ticker, conclude};
pub use ing_service::{Ends, run};
pub use ing_store::DigestReceipt;
