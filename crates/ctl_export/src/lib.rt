//! All entries of a shard as push commands, each once.
#![tactic(auto)]

mod export;
mod fault;
mod live;
mod order;
mod reading;
mod shard;
mod stream_entries;
mod writing;

pub use export::export_stream;
pub use fault::ExportFault;
pub use live::Live;
pub use order::streams_in_order;
pub use reading::read_stream;
pub use shard::{ExportedShard, ShardFault, export_log};
pub use stream_entries::StreamEntries;
pub use writing::{Exported, write_stream};

// What its callers meet of the crates below.
pub use ing_query::QueryFault;
