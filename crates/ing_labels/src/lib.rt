//! The labels of a stream: label names, label maps, their canonical names, and selectors.
#![tactic(auto)]

mod canonical;
mod canonical_reader;
mod checks;
mod fault;
mod label_set;
mod laws;
mod selector;
mod selector_reader;
mod text_fault;

pub use fault::{LabelFault, LabelLimits};
pub use label_set::{Labels, Pairs};
pub use laws::{
    canonical_names_are_decided, canonical_names_are_exact, canonical_names_are_short,
    selector_texts_are_exact, worked_canonical_names, worked_refusals,
};
pub use selector::{MatchOp, Matcher, Selector};
pub use text_fault::TextFault;
