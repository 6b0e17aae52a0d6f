//! What is counted of a tenant.
ghost use Rattle.std.specs.Prelude.{◌≡◌, ◌+◌, ◌≤◌, ◌<◌, ◌^◌};
ghost use Rattle.ing_rows.specs.Gauges.{AreWithin, HaveRoom, gauge_less, gauge_more, with_changed};

/// Entries and their sizes.
#[derive(Clone, Copy, Debug, PartialEq, Eq, Default)]
pub struct Gauge {
    /// How many entries.
    pub entries: u64,
    /// Their sizes in bytes: 16 and the line of each (own).
    pub bytes: u128,
}

/// How many streams of a tenant are live, and its entries by the kind of their place.
#[derive(Clone, Copy, Debug, PartialEq, Eq, Default)]
pub struct Gauges {
    /// Streams with an entry that is not stored.
    pub streams: u64,
    /// In the heads of chunks.
    pub head: Gauge,
    /// In closed blocks of chunks in memory.
    pub block: Gauge,
    /// In chunks that are being uploaded.
    pub flight: Gauge,
    /// In stored chunks.
    pub stored: Gauge,
}

impl Gauge {
    /// Of no entries.
    pub const NONE: Gauge = Gauge {
        entries: 0,
        bytes: 0,
    };

    /// Both together.
    pub fn plus(self, other: Gauge) -> Gauge
        requires entries { self.entries + other.entries < 2 ^ 64 }
        requires bytes { self.bytes + other.bytes < 2 ^ 128 }
        ensures { result ≡ gauge_more self other }
    {
        Gauge {
            entries: self.entries + other.entries,
            bytes: self.bytes + other.bytes,
        }
    }

    /// What is left where some of it goes.
    pub fn minus(self, other: Gauge) -> Gauge
        requires entries { other.entries ≤ self.entries }
        requires bytes { other.bytes ≤ self.bytes }
        ensures { result ≡ gauge_less self other }
    {
        Gauge {
            entries: self.entries - other.entries,
            bytes: self.bytes - other.bytes,
        }
    }
}

impl Gauges {
    /// Of no entries.
    pub const NONE: Gauges = Gauges {
        streams: 0,
        head: Gauge::NONE,
        block: Gauge::NONE,
        flight: Gauge::NONE,
        stored: Gauge::NONE,
    };

    /// The sums where one of their parts has changed.
    pub fn with(self, before: Gauges, after: Gauges) -> Gauges
        requires before { AreWithin before self }
        requires after { HaveRoom (with_changed self before after) }
        ensures { result ≡ with_changed self before after }
    {
        Gauges {
            streams: self.streams - before.streams + after.streams,
            head: self.head.minus(before.head).plus(after.head),
            block: self.block.minus(before.block).plus(after.block),
            flight: self.flight.minus(before.flight).plus(after.flight),
            stored: self.stored.minus(before.stored).plus(after.stored),
        }
    }
}
