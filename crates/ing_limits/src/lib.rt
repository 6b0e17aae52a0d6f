//! The settings of a log store's ingester, read from TOML.
#![tactic(auto)]

mod duration;
mod fault;
mod flaws;
mod keys;
mod laws;
mod settings;

pub use fault::SettingsFault;
pub use laws::{
    durations_are_sums_of_parts, least_name_is_first, worked_durations, worked_refusals,
};
pub use settings::{ChunkSizes, Settings};
