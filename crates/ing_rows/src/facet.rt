//! What catalogs of streams list.

/// What of streams is listed (Loki documentation: HTTP API, list series, list labels, list the values of a label).
#[derive(Clone, Copy, Debug)]
pub enum Facet<'a> {
    /// Their canonical names.
    Series,
    /// The names of their labels.
    Labels,
    /// The values of their label of this name, where they have it.
    Values(&'a str),
}
