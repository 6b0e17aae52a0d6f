//! Where an entry is kept.

/// Where an accepted entry is kept (own; after the Loki documentation: architecture, chunks).
#[derive(Clone, Copy, Debug, PartialEq, Eq)]
pub enum Place {
    /// In the head of a chunk, which takes new entries.
    Head,
    /// In a closed block of a chunk in memory.
    Block,
    /// In a chunk that is being uploaded, by the number of its flight.
    Flight(u64),
    /// In a stored chunk, by the SHA-256 of its bytes (FIPS 180-4).
    Stored([u8; 32]),
}

/// Why a chunk takes no more entries (Loki documentation: ingester configuration).
#[derive(Clone, Copy, Debug, PartialEq, Eq)]
pub enum SealReason {
    /// It has reached the target size.
    Full,
    /// Nothing has come for longer than the idle period.
    Idle,
    /// Its stamps lie further apart than the maximum age.
    MaxAge,
    /// Everything was sealed by command.
    Forced,
}
