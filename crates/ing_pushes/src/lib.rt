//! A push in the form in which nearly all come, without a fault and with no member that it does not need, read
//! without a copy of its texts but for its lines. Any other line is left to the reader of commands, which says what
//! a line commands.
#![tactic(auto)]

mod labels;
mod parts;
mod shape;
mod usual;

pub use usual::usual_push;
