//! The slow program that is the model of a shard: what faster programs are compared with.
#![tactic(auto)]

mod plain;

pub use plain::Plain;
