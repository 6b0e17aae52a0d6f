//! Worlds that were worked out, and what they answer.
use crate::owned::{LIMITS, stamp};
use crate::queries::ALL;
use ing_labels::{Labels, Selector};
use ing_limits::Settings;
use ing_rows::{Entry, Gauges, Line, Tenant};
use ing_shard::StreamNo;
use ing_store::MemoryStore;
use ing_world::Object::{Chunk, Row};
use ing_world::Outcome::{Failed, Stored, StoredYetFailed};
use ing_world::{Object, Outcome, Reply, WorldEvent, names_are_short, run_world};
use std::alloc::Global;
use std::process::Abort;
use std::sync::Wait;
use std::test::Fail;

/// What happens: an entry is pushed at this time, with a line of one byte; the stream of this number is claimed; the others
/// as their names say.
#[derive(Clone, Copy)]
enum Act {
    Push(u64),
    SealAll,
    Claim(u64),
    Put(usize, Object, Outcome),
    Finish(usize),
    GiveBack(usize),
    Query,
    Checkpoint,
}

/// What is answered: of pushes how many verdicts there are, of queries how many entries are found.
#[derive(Clone, Copy, PartialEq, Eq)]
enum Told {
    Pushed(usize),
    Refused,
    Sealed(u64),
    Claimed(u64),
    Stored,
    Failed,
    Finished,
    GivenBack,
    Found(usize),
    Checkpointed(bool),
    Nothing,
}

/// A push, and a query after all that may become of the entry; and puts that fail.
const ALWAYS_FOUND: [(Act, Told); 23] = [
    (Act::Claim(0), Told::Nothing),
    (Act::Query, Told::Found(0)),
    (Act::Push(5), Told::Pushed(1)),
    (Act::Query, Told::Found(1)),
    (Act::Claim(0), Told::Nothing),
    (Act::SealAll, Told::Sealed(1)),
    (Act::Query, Told::Found(1)),
    (Act::Claim(1), Told::Nothing),
    (Act::Claim(0), Told::Claimed(0)),
    (Act::Query, Told::Found(1)),
    (Act::Finish(0), Told::Nothing),
    (Act::Put(0, Chunk, Failed), Told::Failed),
    (Act::Query, Told::Found(1)),
    (Act::GiveBack(0), Told::GivenBack),
    (Act::Query, Told::Found(1)),
    (Act::GiveBack(0), Told::Nothing),
    (Act::Claim(0), Told::Claimed(0)),
    (Act::Put(1, Chunk, Stored), Told::Stored),
    (Act::Put(1, Row, Stored), Told::Stored),
    (Act::Put(0, Row, Stored), Told::Nothing),
    (Act::Finish(1), Told::Finished),
    (Act::Checkpoint, Told::Checkpointed(false)),
    (Act::Query, Told::Found(1)),
];

/// A put that stores and fails has no receipt, whichever object it is of; a finish wants both, and closes the ticket.
const STORED_YET_FAILED: [(Act, Told); 14] = [
    (Act::Push(5), Told::Pushed(1)),
    (Act::SealAll, Told::Sealed(1)),
    (Act::Claim(0), Told::Claimed(0)),
    (Act::Put(0, Chunk, StoredYetFailed), Told::Failed),
    (Act::Put(0, Row, Stored), Told::Stored),
    (Act::Finish(0), Told::Nothing),
    (Act::GiveBack(0), Told::GivenBack),
    (Act::Claim(0), Told::Claimed(0)),
    (Act::Put(1, Chunk, Stored), Told::Stored),
    (Act::Put(1, Row, StoredYetFailed), Told::Failed),
    (Act::Finish(1), Told::Nothing),
    (Act::Put(1, Row, Stored), Told::Stored),
    (Act::Finish(1), Told::Finished),
    (Act::Finish(1), Told::Nothing),
];

/// The push of one entry with a line of one byte, at this time.
fn push_at(alloc: Global, time: u64) -> Result<WorldEvent<'static>, Fail> {
    let tenant = Tenant::of_text(alloc, "t")?;
    let labels = Labels::of_pairs(alloc, &[("a", "1")], &LIMITS)?;
    let now = stamp(time)?;
    let entry = Entry {
        stamp: now,
        line: Line::of_text(alloc, "x")?,
    };
    let mut entries = Vec::new(alloc);
    entries.push(entry)?;
    Ok(WorldEvent::Push {
        tenant,
        labels,
        entries,
        now,
    })
}

/// A query of everything.
fn query(alloc: Global) -> Result<WorldEvent<'static>, Fail> {
    let tenant = Tenant::of_text(alloc, "t")?;
    let selector = Selector::parse(alloc, "{a=\"1\"}")?;
    Ok(WorldEvent::Query {
        tenant,
        selector,
        question: ALL,
    })
}

fn event_of(alloc: Global, act: Act) -> Result<WorldEvent<'static>, Fail> {
    Ok(match act {
        Act::Push(time) => return push_at(alloc, time),
        Act::Query => return query(alloc),
        Act::SealAll => WorldEvent::SealAll,
        Act::Claim(stream) => WorldEvent::Claim {
            stream: StreamNo::new(stream),
        },
        Act::Put(ticket, object, outcome) => WorldEvent::Put {
            ticket,
            object,
            outcome,
        },
        Act::Finish(ticket) => WorldEvent::Finish { ticket },
        Act::GiveBack(ticket) => WorldEvent::GiveBack { ticket },
        Act::Checkpoint => WorldEvent::Checkpoint,
    })
}

/// The events of rows.
fn events_of(alloc: Global, rows: &[(Act, Told)]) -> Result<Vec<WorldEvent<'static>>, Fail> {
    let mut events = Vec::new(alloc);
    for (act, _) in rows {
        events.push(event_of(alloc, *act)?)?;
    }
    Ok(events)
}

fn told_of(reply: &Reply) -> Told {
    match reply {
        Reply::Pushed(verdicts) => Told::Pushed(verdicts.len()),
        Reply::TooManyEntries | Reply::CounterFull => Told::Refused,
        Reply::Sealed(count) => Told::Sealed(*count),
        Reply::Claimed(first) => Told::Claimed(*first),
        Reply::Stored => Told::Stored,
        Reply::Failed => Told::Failed,
        Reply::Finished => Told::Finished,
        Reply::GivenBack => Told::GivenBack,
        Reply::Found(found) => Told::Found(found.len()),
        Reply::Checkpointed(published) => Told::Checkpointed(*published),
        Reply::Nothing => Told::Nothing,
    }
}

/// What is answered to these events over an empty store, and the gauges in the end.
fn run<R: Wait>(
    rt: &R,
    alloc: Global,
    store: &MemoryStore,
    settings: Settings,
    events: &[WorldEvent<'static>],
) -> Result<(Vec<Reply>, Gauges), Fail> {
    let tenant = Tenant::of_text(alloc, "t")?;
    if !names_are_short(events) {
        return Err("short names".into());
    }
    if settings.shards() != 1 {
        return Err("one shard".into());
    }
    let (world, replies) = run_world(rt, alloc, store, settings, events)?;
    let gauges = world.gauges(&tenant);
    world.put_away();
    Ok((replies, gauges))
}

/// Each reply is the one of its row.
fn are_told(rt: &impl Abort, replies: &[Reply], rows: &[(Act, Told)]) {
    for (at, (_, wanted)) in rows.iter().enumerate() {
        assert!(rt; replies.get(at).map(told_of) == Some(*wanted), "{at}");
    }
}

/// Each reply is the one of its row, and one entry is stored in the end.
fn answers<R: Wait + Abort>(rt: &R, alloc: Global, rows: &[(Act, Told)]) -> Result<(), Fail> {
    let events = events_of(alloc, rows)?;
    let store = MemoryStore::new(alloc)?;
    let settings = Settings::from_toml(alloc, "")?;
    let (replies, gauges) = run(rt, alloc, &store, settings, &events)?;
    are_told(rt, &replies, rows);
    assert!(rt; gauges.stored.entries == 1 && gauges.streams == 0);
    Ok(())
}

#[test]
fn worlds_answer_as_they_were_worked_out(rt: HostRuntime) -> Result<(), Fail> {
    answers(&rt, rt.alloc(), &ALWAYS_FOUND)?;
    answers(&rt, rt.alloc(), &STORED_YET_FAILED)
}
