//! Stores and logs on a disk: each object is a file of a folder, and so is the log of each shard. One program at a time has
//! the folder.
#![tactic(auto)]

mod folder;
mod folder_hold;
mod folder_log;
mod folder_repair;
mod folder_store;
mod streams;

pub use folder::FolderFault;
pub use folder_hold::{FolderHold, HoldFault, Looked, Noted, is_in_use, look_at};
pub use folder_log::FolderLog;
pub use folder_repair::FolderRepair;
pub use folder_store::FolderStore;
pub use streams::hold_streams;
