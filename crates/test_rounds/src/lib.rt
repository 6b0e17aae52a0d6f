//! Tests alone: what no contract says of a flush queue, and of flushes beside one another. They need no private item.
#![tactic(auto)]

#[cfg(test)]
mod meeting;
#[cfg(test)]
mod queue;
