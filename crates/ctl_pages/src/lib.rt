//! How all entries of a query are read page by page: what a reply has, and whether it may answer
//! what was asked.
#![tactic(auto)]

mod fault;
mod laws;
mod reply;
mod told;
mod wanted;

pub use fault::ReplyFault;
pub use laws::{answers_may_answer, pages_end, pages_have_all};
pub use reply::{next_of, page_of};
pub use told::{Name, Told};
pub use wanted::{Wanted, may_answer};
