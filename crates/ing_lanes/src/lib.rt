//! Many writers in one run: channels that are served side by side, each in a thread of its own, through the locks of one ingester.
//!
//! A channel is what is read and what is written (`Line`). Its commands are obeyed by a `Lane`, with a pusher, a reader of counts, a pass
//! of the flush queue and a flusher of its own; the session reads and writes the lines (`ing_session`). `run_lanes` serves all channels
//! until each has ended, and closes the ingester: of each shard as many entries were accepted as all channels were told together. One
//! input alone has shards without locks (`ing_service`).
#![tactic(auto)]

mod channel;
mod closing;
mod fault;
mod lane;
mod line;
mod opening;
mod running;
mod shared;

pub use fault::LanesFault;
pub use line::{Line, Opens, StandOpen};
pub use running::{Ended, Ends, run_lanes};

// What its callers meet of the crates below.
pub use ing_node::{Begun, CloseRefusal, Mismatch, NodeName, RecoverFault, Shards, Unsettled};
pub use ing_session::{Ending, NoTicker, Reply, Tick, Ticker, conclude, put_reply};
