//! The rules of a tenant.
/// The numbers by which a tenant's entries are judged and its chunks cut and sealed (Loki documentation: ingester and
/// limits configuration). Sizes in bytes, durations in nanoseconds.
#[derive(Clone, Copy, Debug, PartialEq, Eq)]
pub struct Rules {
    /// A head of at least this size is closed into a block.
    pub chunk_block_size: u64,
    /// A chunk of at least this size is sealed, uncompressed (own).
    pub chunk_target_size: u64,
    /// A chunk is sealed when nothing has come for longer than this.
    pub chunk_idle_period: u64,
    /// A chunk is sealed when its stamps lie further apart than this; half of it is the window of a stream.
    pub max_chunk_age: u64,
    /// The most labels of a stream.
    pub max_label_names: u64,
    /// The most bytes of a label's name.
    pub max_label_name_length: u64,
    /// The most bytes of a label's value.
    pub max_label_value_length: u64,
    /// The most bytes of a line.
    pub max_line_size: u64,
    /// The most live streams of a tenant in one shard (own).
    pub max_streams_per_tenant: u64,
    /// The most entries of one stream in one push.
    pub max_entries_per_push: u64,
}

impl Default for Rules {
    ghost use Rattle.std.specs.Prelude.{◌≡◌};
    ghost use Rattle.ing_rows.specs.Defaults.{defaults};

    ghost is_default = { λ rules. rules ≡ defaults };

    /// The rules where no setting changes them (Loki documentation: ingester and limits configuration; the target size,
    /// uncompressed, and the limits for one shard are own).
    fn default() -> Rules {
        Rules {
            chunk_block_size: 262_144,
            chunk_target_size: 1_572_864,
            chunk_idle_period: 1_800_000_000_000,
            max_chunk_age: 7_200_000_000_000,
            max_label_names: 15,
            max_label_name_length: 1024,
            max_label_value_length: 2048,
            max_line_size: 262_144,
            max_streams_per_tenant: 1000,
            max_entries_per_push: 10_000,
        }
    }
}
