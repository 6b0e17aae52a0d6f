//! Tests alone: an end of a store over files that may be damaged behind its back. `test_shards` stores chunks there.
#![tactic(auto)]

#[cfg(test)]
mod damaged;
mod files;
mod files_end;

pub use files::{FileFault, Files, Shelf};
pub use files_end::FilesEnd;
