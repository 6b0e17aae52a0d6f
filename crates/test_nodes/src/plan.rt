//! What hands are to do.

/// What a hand does again and again.
#[derive(Clone, Copy, Debug, PartialEq, Eq)]
pub enum Task {
    /// Pushes one entry to the stream of this number, the next at the next nanosecond.
    Count {
        /// The number of the stream.
        stream: usize,
    },
    /// Pushes entries by lot to streams by lot, and asks for them at times.
    Push,
    /// Seals what grows in each shard, and flushes all that waits there.
    Flush,
    /// The same, until so many entries are accepted.
    FlushUntil {
        /// How many.
        accepted: u64,
    },
    /// Seals what grows, or what is due, in a shard by lot, and flushes all that waits there.
    FlushOne,
    /// Seals what grows, or what is due, in all shards by lot, and works the flush queue off with flushers side by side.
    Sweep,
    /// Asks for all entries.
    Query,
    /// Reads what each shard counts, without a lock.
    Read,
    /// The same, so many times in each turn.
    ReadOften {
        /// How many times.
        times: u64,
    },
    /// Asks each shard for its gauges under its lock, so many times in each turn.
    AskOften {
        /// How many times.
        times: u64,
    },
    /// Pushes one entry of 120 bytes, to each of its streams in turn: of a thousand those from this number on, each so many.
    Load {
        /// The number of the first.
        first: usize,
        /// How far the next one is.
        step: usize,
    },
}

/// What a hand is to do.
#[derive(Clone, Copy, Debug)]
pub struct Plan {
    /// What it does.
    pub task: Task,
    /// How often.
    pub turns: u64,
    /// The number of its lots.
    pub lots: u64,
    /// Of so many puts one fails, by lot; none where it is 0.
    pub odds: u64,
    /// Whether it keeps a diary.
    pub diary: bool,
    /// Whether it notes how long each turn takes.
    pub timed: bool,
}

/// The label value of each stream, which its counted lines begin with.
pub const STREAMS: [&str; 4] = ["p", "q", "r", "s"];

/// How many streams a load has.
pub const LOADED: usize = 1000;
