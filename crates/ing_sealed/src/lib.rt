//! The sealed chunks of one stream, each where it stands: in the blocks of memory, in flight to the store, or stored.
#![tactic(auto)]

mod sealed_chunks;
mod uploads;

pub use sealed_chunks::{Claim, SealedChunks};
pub use uploads::{Flushed, upload, upload_chunk, upload_row};

// What its callers meet of the crates below.
pub use ing_parts::{
    Listing, Part, Snapshot, StreamName, list_chunks, listed_rows_join, rows_are_found, rows_join,
};
pub use ing_store::{Receipt, StoreEnd};
