//! Heads, blocks and chunks: the entries of a stream in memory.
#![tactic(auto)]

mod block;
mod chunk;
mod chunks;
mod head;
mod kept;
mod laws;
mod numbered;

pub use block::Block;
pub use chunk::Chunk;
pub use chunks::Chunks;
pub use head::Head;
pub use laws::{restored_chunks_stand, spans_bound_stamps, stamps_rise};
pub use numbered::Numbered;
