//! What becomes of a pushed entry.

/// What becomes of a pushed entry (Loki documentation: accepting out-of-order writes; the order of the cases is own).
#[derive(Clone, Copy, Debug, PartialEq, Eq)]
pub enum Verdict {
    /// It is kept, as this number of its stream; numbers count from 0.
    Accepted {
        /// Its number in its stream.
        number: u64,
    },
    /// Its stamp and line are those of the last accepted entry of its stream.
    Duplicate,
    /// Its line has more bytes than the limit.
    LineTooLong,
    /// Its stamp lies below the window of its stream.
    TooFarBehind {
        /// The oldest stamp that would be taken, in nanoseconds since 1970.
        limit: u64,
    },
    /// It would begin a stream, and the tenant has as many live ones as the limit allows.
    TooManyStreams {
        /// How many live streams the tenant has.
        live: u64,
    },
}
