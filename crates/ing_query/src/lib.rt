//! What a query gives: the first entries, in an order, of those that snapshots have in memory and in a store.
#![tactic(auto)]

mod fault;
mod part_reading;
mod query;

pub use fault::QueryFault;
pub use part_reading::read_part;
pub use query::run_query;

// What its callers meet of the crates below.
pub use ing_parts::{Found, Question, Snapshot, rows_stand, standing_joins};
