//! A shard whose calls want memory. One allocation at most is refused in a run of this test (`rt try --test --fail-alloc N`): a
//! refused call leaves all that can be seen of the shard as it was, and the same call then succeeds.
use crate::owned::{Owned, stamp};
use crate::queries::{ALL, found};
use crate::tasks::{Task, do_in_shard};
use ing_labels::Selector;
use ing_parts::Found;
use ing_refusals::Refusal;
use ing_rows::{Gauges, Stamp, Verdict};
use ing_shard::{Due, Op, StreamNo};
use ing_store::{Fuse, MemoryReceipt, MemoryStore, Receipt};
use ing_world::QueryFault;
use std::alloc::{AllocError, Global};
use std::process::Abort;
use std::sync::Wait;
use std::test::Fail;

/// The lines of pushes, a nanosecond after one another.
const LINES: [(u64, &str); 5] = [
    (1, "aaaa"),
    (2, "bbbb"),
    (3, "cccc"),
    (4, "dddd"),
    (5, "eeee"),
];

/// A push to the stream of this app, of the lines from here to there; a sweep at this time; a sealing of all.
#[derive(Clone, Copy)]
enum Call {
    Push(&'static str, usize, usize),
    Sweep(u64),
    SealAll,
}

/// What is wanted of it: each line is accepted, from this number on; so many chunks are sealed, and there is one operation for each
/// of these streams.
#[derive(Clone, Copy)]
enum Wanted {
    Accepted(u64),
    Sealed(u64, &'static [u64]),
}

/// Calls that fill blocks and chunks of two streams, and seal them.
const ROWS: [(Call, Wanted); 7] = [
    // A new stream; a block and a chunk that are filled, and the next chunk begun; another stream, in one push.
    (Call::Push("web", 0, 1), Wanted::Accepted(0)),
    (Call::Push("web", 1, 5), Wanted::Accepted(1)),
    (Call::Push("api", 0, 3), Wanted::Accepted(0)),
    // Both growing chunks are idle 11 nanoseconds after they were added to, at times 2 and 1.
    (Call::Sweep(11), Wanted::Sealed(0, &[0])),
    (Call::Sweep(12), Wanted::Sealed(1, &[0, 1])),
    (Call::Push("api", 3, 5), Wanted::Accepted(3)),
    (Call::SealAll, Wanted::Sealed(2, &[0, 0, 1, 1])),
];

/// What a call gave.
#[derive(Drop)]
enum Told {
    Pushed(Vec<Verdict>),
    Sealed(Due),
}

/// What a look at a shard takes: a store, and a selector of all streams.
#[derive(Drop)]
struct Watch<'a, R: Wait> {
    rt: &'a R,
    alloc: Global,
    all: Selector,
    store: &'a MemoryStore,
}

/// What can be seen of a shard: gauges, totals, and each entry by its stamp and its number.
type Seen = ((Gauges, (u64, u64)), Vec<(u64, u64)>);

/// Each entry by its stamp and its number.
fn numbered(alloc: Global, found: &[Found]) -> Result<Vec<(u64, u64)>, AllocError> {
    let mut entries = Vec::new(alloc);
    for one in found {
        entries.push((one.entry.stamp.nanoseconds(), one.number))?;
    }
    Ok(entries)
}

fn are_accepted(verdicts: &[Verdict], first: u64) -> bool {
    let mut number = first;
    for verdict in verdicts {
        if *verdict != (Verdict::Accepted { number }) {
            return false;
        }
        number = number.saturating_add(1);
    }
    true
}

fn is_due(due: &Due, count: u64, streams: &[u64]) -> bool {
    let wanted = streams.iter().map(|stream| Op {
        shard: 0,
        stream: StreamNo::new(*stream),
    });
    due.sealed == count && due.ops.iter().copied().eq(wanted) && !due.durable
}

/// Whether a call gave what is wanted.
fn is_wanted(told: &Told, call: Call, wanted: Wanted) -> bool {
    match (told, call, wanted) {
        (Told::Pushed(verdicts), Call::Push(_, from, to), Wanted::Accepted(first)) => {
            verdicts.len() == to.saturating_sub(from) && are_accepted(verdicts, first)
        }
        (Told::Sealed(due), _, Wanted::Sealed(count, streams)) => is_due(due, count, streams),
        _ => false,
    }
}

/// What a push gives; nothing where memory was refused.
fn try_push<R: Receipt>(
    rt: &impl Abort,
    alloc: Global,
    one: &mut Owned<R>,
    app: &str,
    lines: &[(u64, &str)],
) -> Result<Option<Told>, Fail> {
    match one.push(alloc, &[("all", "1"), ("app", app)], lines)? {
        Ok(pushed) => Ok(Some(Told::Pushed(pushed.verdicts))),
        Err(fault) => {
            assert!(rt; fault.refusal() == Refusal::NoMemory);
            Ok(None)
        }
    }
}

/// What a sweep at this time gives, or the sealing of all without one; nothing where memory was refused.
fn try_seal<R: Receipt>(alloc: Global, one: &mut Owned<R>, now: Option<Stamp>) -> Option<Told> {
    let sealed = match now {
        Some(now) => one.sweep(alloc, now),
        None => one.seal_all(alloc),
    };
    Some(Told::Sealed(sealed.ok()?))
}

/// What a call gives; nothing where memory was refused.
fn try_call<R: Receipt>(
    rt: &impl Abort,
    alloc: Global,
    one: &mut Owned<R>,
    call: Call,
) -> Result<Option<Told>, Fail> {
    match call {
        Call::Push(app, from, to) => {
            let lines = LINES.get(from..to).ok_or("lines")?;
            try_push(rt, alloc, one, app, lines)
        }
        Call::Sweep(now) => Ok(try_seal(alloc, one, Some(stamp(now)?))),
        Call::SealAll => Ok(try_seal(alloc, one, None)),
    }
}

impl<'a, R: Wait + Abort> Watch<'a, R> {
    fn try_seen(&self, one: &Owned<MemoryReceipt<'a>>) -> Result<Seen, QueryFault> {
        let mut end = self.store.end(self.rt, Fuse::None);
        let found = found(one, self.alloc, &self.all, ALL, &mut end)?;
        Ok((one.counts(), numbered(self.alloc, &found)?))
    }

    /// What can be seen of the shard. The look may be refused memory itself.
    fn seen(&self, one: &Owned<MemoryReceipt<'a>>) -> Result<Seen, Fail> {
        match self.try_seen(one) {
            Err(QueryFault::NoMemory) => Ok(self.try_seen(one)?),
            seen => Ok(seen?),
        }
    }

    /// What a call gives. Where it is refused memory, all that can be seen is as it was, and the next one is not refused.
    fn call(&self, one: &mut Owned<MemoryReceipt<'a>>, call: Call) -> Result<Told, Fail> {
        let before = self.seen(one)?;
        if let Some(told) = try_call(self.rt, self.alloc, one, call)? {
            return Ok(told);
        }
        assert!(self.rt; self.seen(one)? == before);
        Ok(try_call(self.rt, self.alloc, one, call)?.ok_or("a second refusal")?)
    }

    fn goes_through(&self, one: &mut Owned<MemoryReceipt<'a>>) -> Result<(), Fail> {
        for (at, (call, wanted)) in ROWS.iter().enumerate() {
            let told = self.call(one, *call)?;
            assert!(self.rt; is_wanted(&told, *call, *wanted), "{at}");
        }
        Ok(())
    }
}

/// Fills blocks and chunks of two streams, and seals them, by calls of which one may be refused memory.
pub(crate) fn goes_through<'a, R: Wait + Abort>(
    rt: &'a R,
    alloc: Global,
    store: &'a MemoryStore,
    one: &mut Owned<MemoryReceipt<'a>>,
) -> Result<(), Fail> {
    let all = Selector::parse(alloc, "{all=\"1\"}")?;
    let watch = Watch {
        rt,
        alloc,
        all,
        store,
    };
    watch.goes_through(one)?;
    let (gauges, totals) = one.counts();
    assert!(rt; totals == (10, 0));
    assert!(rt; gauges.block.entries == 10);
    Ok(())
}

#[test]
fn a_refused_call_changes_nothing(rt: HostRuntime) -> Result<(), Fail> {
    do_in_shard(&rt, rt.alloc(), Task::GoesThrough)
}
