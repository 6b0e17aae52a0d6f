//! What a query reads: where the entries of streams stand, in memory or in a store, and what is found there.
#![tactic(auto)]

mod best;
mod found;
mod laws;
mod listing;
mod offers;
mod snapshot;

pub use best::Best;
pub use found::{Found, Question, StreamName};
pub use laws::{
    additions_join, answers_are_first, found_rows_have_no_order, listed_rows_join, offers_join,
    offers_of_streams, pages_are_one, parts_join, rows_are_found, rows_join, rows_stand,
    standing_joins,
};
pub use listing::{Listing, list_chunk, list_chunks, list_stored};
pub use offers::offer_block;
pub use snapshot::{Part, Snapshot, Source};
