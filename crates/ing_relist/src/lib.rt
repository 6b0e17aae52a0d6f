//! The listing of a stored chunk, found again in a store by what was noted of it: its stream, its extent, its key and
//! its last entry.
#![tactic(auto)]

mod counted;
mod ends;
mod relisting;
mod same;

pub use ing_refusals::RelistFault;
pub use relisting::{relist, relist_chunk};
