//! Tests alone: what no contract says of shards, flushes and queries, worlds that were worked out, and refused allocations. They
//! need no private item, and stand in no crate that they test, since a crate with tests is proved twice. Few functions own a shard
//! (`tasks`), and the others borrow it: each path on which one may be let go is proved anew.
#![tactic(auto)]

#[cfg(test)]
mod books;
#[cfg(test)]
mod damaged;
#[cfg(test)]
mod flushes;
#[cfg(test)]
mod owned;
#[cfg(test)]
mod queries;
#[cfg(test)]
mod refused;
#[cfg(test)]
mod settling;
#[cfg(test)]
mod strangers;
#[cfg(test)]
mod tasks;
#[cfg(test)]
mod worlds;
