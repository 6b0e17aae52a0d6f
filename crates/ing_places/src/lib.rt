//! The places of streams that were asked for lately.
#![tactic(auto)]

mod places;
mod slot;
#[cfg(test)]
mod tests;

pub use places::Places;
