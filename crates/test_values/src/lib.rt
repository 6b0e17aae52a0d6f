//! Tests alone: worked values of labels, settings, windows and shard numbers, and which pushes are read fast, that no case can show.
//! They need no private item, and stand in no crate that they test, since a crate with tests is proved twice.
#![tactic(auto)]

#[cfg(test)]
mod labels;
#[cfg(test)]
mod pushes;
#[cfg(test)]
mod rows;
#[cfg(test)]
mod settings;
