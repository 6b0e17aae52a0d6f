//! The label index of a shard: which streams a selector picks.
#![tactic(auto)]

mod postings;

pub use postings::{Listed, Postings, StreamNo};
