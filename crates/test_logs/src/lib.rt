//! Tests alone, for the reason that `test_objects` gives: worked logs, and what is left of one where its calls fail and its shard
//! stops; stored chunks that are listed again; logs and objects as files of a folder.
#![tactic(auto)]

#[cfg(test)]
mod durable;
#[cfg(test)]
mod folder;
#[cfg(test)]
mod logged;
#[cfg(test)]
mod records;
#[cfg(test)]
mod relist;
#[cfg(test)]
mod wal;
