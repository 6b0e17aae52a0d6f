//! What lies in files: stored chunks, index rows and logs, in words, and what can be made again of a shard from a log.
#![tactic(auto)]

mod check;
mod logs;
mod mend;
mod objects;
mod shown;
mod words;

pub use check::{Checked, Restored, check_log, restore_log};
pub use logs::{begun_words, log_words, other_version, record_words};
pub use mend::{Mended, mend_log};
pub use objects::{chunk_words, row_words};
pub use shown::{Kind, ShowFault, Shown, kind_of, show};

// What its callers meet of the crates below.
pub use ing_durable::{RecoverFault, RelistFault, Shard};
pub use ing_logged::LogReadFault;
pub use ing_store::DigestReceipt;
