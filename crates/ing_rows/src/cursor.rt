//! Where a page of an answer ended.

/// The place of an entry in an order of answers: the next page is what stands behind it. No entry need stand there. (Own.)
#[derive(Clone, Copy, Debug)]
pub struct Cursor<'a> {
    /// Its stamp, in nanoseconds.
    pub stamp: u64,
    /// The canonical name of its stream.
    pub stream: &'a str,
    /// How many entries of its stream were accepted before it.
    pub number: u64,
}
