//! The model of the store's rows, and the types that it speaks of.
#![tactic(auto)]

mod cursor;
mod entry;
mod facet;
mod fault;
mod gauges;
mod laws;
mod order;
mod place;
mod placement;
mod rules;
mod tenant;
mod verdict;

pub use cursor::Cursor;
pub use entry::{Entry, Line, Stamp, value_of_digits, window_limit};
pub use facet::Facet;
pub use fault::RowFault;
pub use gauges::{Gauge, Gauges};
pub use laws::{
    a_push_adds_what_it_accepts, acceptances_in_turn, chunks_are_apart, chunks_begin_with_marks,
    chunks_have_one_mark, each_push_is_a_run_of_entries, facts_suffice, flushes_are_apart,
    flushes_have_no_order, flushes_keep_facts, order_does_not_count, parts_are_apart,
    pushes_keep_states_sound, seals_are_apart, seals_have_no_order, worked_rows,
};
pub use order::Order;
pub use place::{Place, SealReason};
pub use placement::shard_of;
pub use rules::Rules;
pub use tenant::{Tenant, is_tenant_id};
pub use verdict::Verdict;
