//! A stream with all its entries.
use ing_chunk::Numbered;
use ing_parts::StreamName;
use ing_rows::Tenant;

/// A stream with all its entries (own).
#[derive(Drop)]
pub struct StreamEntries {
    /// Whose it is.
    pub tenant: Tenant,
    /// Its canonical name.
    pub name: StreamName,
    /// Its entries, with their numbers.
    pub entries: Vec<Numbered>,
}
