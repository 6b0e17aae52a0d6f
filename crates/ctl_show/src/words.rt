//! Pieces of text that more than one kind has.
use ing_labels::Labels;
use ing_rows::{Entry, SealReason, Tenant};
use std::alloc::{AllocError, Global};

/// A stream: its canonical name and its tenant.
pub(crate) fn stream_words(
    alloc: Global,
    tenant: &Tenant,
    labels: &Labels,
) -> Result<String, AllocError> {
    format!(in alloc; "{} of tenant {}", labels.name(), tenant.as_str())
}

/// A key in hexadecimal digits.
pub(crate) fn key_words(alloc: Global, key: &[u8; 32]) -> Result<String, AllocError> {
    hex::encode(alloc, key)
}

/// Puts a line for an entry behind a text: its number, its stamp in nanoseconds, and its line in quotes.
pub(crate) fn put_entry(
    alloc: Global,
    text: &mut String,
    number: u64,
    entry: &Entry,
) -> Result<(), AllocError> {
    let stamp = entry.stamp.nanoseconds();
    let line = format!(in alloc; "    {number}  {stamp}  {:?}\n", entry.line.as_str())?;
    text.push_str(line.as_str())
}

/// Why a chunk was sealed.
pub(crate) fn reason_words(reason: SealReason) -> &'static str {
    match reason {
        SealReason::Full => "full",
        SealReason::Idle => "idle",
        SealReason::MaxAge => "of the greatest age",
        SealReason::Forced => "by command",
    }
}
