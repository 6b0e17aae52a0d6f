//! Tests alone: worked bytes of chunks and rows, and a store in memory by its ends. They need no private item, and stand in no
//! crate that they test, since a crate with tests is proved twice.
#![tactic(auto)]

#[cfg(test)]
mod codec;
#[cfg(test)]
mod store;
