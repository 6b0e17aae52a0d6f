//! Stores of objects: what an end of a store promises, how chunks and rows are put there, and a store in
//! memory.
#![tactic(auto)]

mod digest_receipt;
mod fault;
mod meaning;
mod memory_end;
mod memory_store;
mod store_end;
mod upload;

pub use digest_receipt::DigestReceipt;
pub use fault::StoreFault;
pub use meaning::Meaning;
pub use memory_end::{Fuse, MemoryEnd};
pub use memory_store::{MemoryObject, MemoryReceipt, MemoryStore};
pub use store_end::{Receipt, StoreEnd};
pub use upload::{Uploaded, put_chunk, put_row};

// What its callers meet of the crates below.
pub use ing_codec::{CodecFault, Extent, IndexRow, chunk_name, decode_chunk};
