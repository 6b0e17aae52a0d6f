//! Every interleaving: one shard, its open tickets and a store that fails where it is told to, run through any list of
//! events.
#![tactic(auto)]

mod event;
mod open_ticket;
mod reply;
mod running;
mod world;

pub use event::{Object, Outcome, WorldEvent, names_are_short};
pub use reply::Reply;
pub use running::run_world;
pub use world::World;

// What its callers meet of the crates below.
pub use ing_query::{QueryFault, read_part, run_query};
