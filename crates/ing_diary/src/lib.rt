//! What pushers note of the entries that were accepted, and whether the entries of a shard are exactly those.
#![tactic(auto)]

mod compare;
mod diary;
mod fault;
mod fronts;
mod noted;
mod noting;
mod reading;
mod settling;

pub use compare::NoteRef;
pub use diary::Diary;
pub use fault::{Mismatch, Unsettled};
pub use fronts::Fronts;
pub use noted::Noted;
pub use noting::Draft;
pub use settling::settle;

// What its callers meet of the crates below.
pub use ing_query::{Found, QueryFault, Question, Snapshot, rows_stand, run_query, standing_joins};
