//! A person's logs made into push commands for `ingestd`.
#![tactic(auto)]

mod bodies;
mod entries;
mod inputs;
mod labels;
mod lines;
mod load_fault;
mod loader;
mod parts;
mod push;
mod reading;
mod size;
mod stamps;
mod tally;
mod wrap;

pub use bodies::{Wrapped, wrap_input};
pub use entries::{EntryFault, feed_entries};
pub use inputs::{FeedEnding, Loaded, load_input, load_rest};
pub use labels::{LabelFault, Labels};
pub use load_fault::LoadFault;
pub use loader::{Loader, MAX_VALUES};
pub use push::push_line;
pub use reading::Reading;
pub use size::MAX_BYTES;
pub use stamps::Stamps;
pub use tally::Tally;
pub use wrap::{MAX_LINE, WrapFault, wrap_body};
