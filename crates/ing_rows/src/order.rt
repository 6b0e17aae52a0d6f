//! In which order answers stand.

/// In which order an answer has its entries (Loki documentation: HTTP API, query range: direction).
#[derive(Clone, Copy, Debug, PartialEq, Eq)]
pub enum Order {
    /// The oldest first.
    Forward,
    /// The newest first.
    Backward,
}
