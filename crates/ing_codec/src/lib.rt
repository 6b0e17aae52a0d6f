//! The bytes of stored objects: chunks and the rows of an index, each written in one way and read back from
//! it alone; chunks also from the way of before.
#![tactic(auto)]

mod chunk_reading;
mod chunk_view;
mod fault;
mod fields;
mod index_row;
mod laws;
mod lent_chunk;
mod object_names;
mod stored_chunk;
mod version;
mod writers;

pub use chunk_view::{ChunkView, encode_chunk, put_blocks};
pub use fault::CodecFault;
pub use fields::Fields;
pub use index_row::{Extent, IndexRow, ROW_VERSION, decode_row, encode_row, put_extent};
pub use laws::{chunks_are_exact, fields_are_exact, rows_are_exact, worked_objects};
pub use lent_chunk::{LentBlock, LentChunk, LentEntry, decode_lent};
pub use object_names::{chunk_key, chunk_name, row_name};
pub use stored_chunk::{StoredChunk, decode_chunk};
pub use version::{Version, WRITTEN_VERSION};
pub use writers::{put_line, put_meta, put_name, put_stamp, put_tenant, put_u32, put_u64};
