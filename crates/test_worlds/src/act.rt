//! What happens to a world, before it is an event of it.
use anyhow::{Context, Result};
use ing_labels::{LabelLimits, Labels, Selector};
use ing_parts::Question;
use ing_postings::StreamNo;
use ing_rows::{Entry, Line, Stamp, Tenant};
use ing_world::{Object, Outcome, WorldEvent};
use std::alloc::Global;

const LIMITS: LabelLimits = LabelLimits {
    names: 15,
    name_bytes: 1024,
    value_bytes: 2048,
};

/// Small blocks and chunks, short times, and at most two entries a push. The second tenant has limits of its own.
pub const SETTINGS: &str =
    "chunk_block_size = 40\nchunk_target_size = 100\nchunk_idle_period = \"12ns\"\nmax_chunk_age = \"40ns\"\nmax_entries_per_push = 2\n[tenants.u]\nmax_line_size = 3\nmax_streams_per_tenant = 2\n";

/// The idle period and the greatest age of a chunk in these settings, in nanoseconds.
pub const IDLE: u64 = 12;

pub const AGE: u64 = 40;

/// The size at which a chunk is full in these settings, in bytes.
pub const TARGET: u64 = 100;

/// The tenants.
pub const TENANTS: [&str; 2] = ["t", "u"];

/// The labels of each tenant's streams, in the order of their names.
const STREAMS: [[(&str, &str); 2]; 3] = [
    [("a", "1"), ("b", "1")],
    [("a", "1"), ("b", "")],
    [("a", "2"), ("b", "")],
];

/// Each selector, and which of the streams it picks.
pub const SELECTORS: [(&str, [bool; 3]); 4] = [
    ("{a=\"1\"}", [true, true, false]),
    ("{b=\"1\"}", [true, false, false]),
    ("{a=\"1\", b!=\"1\"}", [false, true, false]),
    ("{a=\"3\"}", [false, false, false]),
];

/// The lines that are pushed.
pub const LINES: [&str; 4] = ["", "a", "abc", "abcdefghijkl"];

/// An entry: its stamp in nanoseconds, and which of the lines it has.
#[derive(Clone, Copy, Debug)]
pub struct Logged {
    pub stamp: u64,
    pub line: usize,
}

/// What happens. Tenants, streams and selectors are told by their places in the lists above, times and stamps in nanoseconds.
#[derive(Clone, Copy, Debug)]
pub enum Act {
    Push {
        tenant: usize,
        stream: usize,
        now: u64,
        entries: [Logged; 3],
        count: usize,
    },
    Sweep(u64),
    SealAll,
    Claim(u64),
    Put(usize, Object, Outcome),
    Finish(usize),
    GiveBack(usize),
    Query {
        tenant: usize,
        selector: usize,
        question: Question<'static>,
    },
    Checkpoint,
}

/// A tenant.
pub fn tenant(alloc: Global, tenant: usize) -> Result<Tenant> {
    Ok(Tenant::of_text(alloc, TENANTS.get(tenant).context("a tenant")?)?)
}

/// The labels of a stream.
pub fn labels(alloc: Global, stream: usize) -> Result<Labels> {
    let pairs = STREAMS.get(stream).context("a stream")?;
    Ok(Labels::of_pairs(alloc, pairs, &LIMITS)?)
}

fn stamp(nanoseconds: u64) -> Result<Stamp> {
    Stamp::of_nanoseconds(nanoseconds).context("a stamp")
}

/// The entries of a push.
pub fn entries(alloc: Global, logged: &[Logged; 3], count: usize) -> Result<Vec<Entry>> {
    let mut entries = Vec::new(alloc);
    for one in logged.iter().take(count) {
        let text = LINES.get(one.line).context("a line")?;
        entries.push(Entry {
            stamp: stamp(one.stamp)?,
            line: Line::of_text(alloc, text)?,
        })?;
    }
    Ok(entries)
}

/// How many bytes a logged entry counts.
pub fn size_of(one: Logged) -> u64 {
    LINES
        .get(one.line)
        .map_or(16, |line| 16 + line.len() as u64)
}

impl Act {
    /// The event.
    pub fn event(self, alloc: Global) -> Result<WorldEvent<'static>> {
        Ok(match self {
            Act::Push {
                tenant: of,
                stream,
                now,
                entries: logged,
                count,
            } => WorldEvent::Push {
                tenant: tenant(alloc, of)?,
                labels: labels(alloc, stream)?,
                entries: entries(alloc, &logged, count)?,
                now: stamp(now)?,
            },
            Act::Sweep(now) => WorldEvent::Sweep { now: stamp(now)? },
            Act::SealAll => WorldEvent::SealAll,
            Act::Claim(stream) => WorldEvent::Claim {
                stream: StreamNo::new(stream),
            },
            Act::Put(ticket, object, outcome) => WorldEvent::Put {
                ticket,
                object,
                outcome,
            },
            Act::Finish(ticket) => WorldEvent::Finish { ticket },
            Act::GiveBack(ticket) => WorldEvent::GiveBack { ticket },
            Act::Query {
                tenant: of,
                selector,
                question,
            } => WorldEvent::Query {
                tenant: tenant(alloc, of)?,
                selector: Selector::parse(alloc, SELECTORS.get(selector).context("a selector")?.0)?,
                question,
            },
            Act::Checkpoint => WorldEvent::Checkpoint,
        })
    }
}
