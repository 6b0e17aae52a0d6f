//! Two flushers of one queue whose first puts overlap, and a push that is answered meanwhile: an upload holds no lock, and a round has a
//! thread for each flusher. Then the ingester is closed: without who pushed and flushed, with a ticket out, and with all there.
ghost use Rattle.std.specs.Prelude.{◌≡◌, ◌+◌, ◌<◌, ◌≤◌, All, IfErr, IfOk, IfSome, OnOk, length, reverse, true, vec_capacity, vec_len};
ghost use Rattle.ing_node.specs.Earlier.{earlier_of};
ghost use Rattle.ing_node.specs.Names.{AreNamed, IsTallyOf};

use ing_flush::{Door, FlusherTally, Gate, Worker};
use ing_labels::{LabelLimits, Labels};
use ing_limits::Settings;
use ing_node::{
    CloseFault, CloseRefusal, Closed, Earlier, Flushing, Ingester, NodeName, Pusher, Shards,
    Sweeper,
};
use ing_rows::{Entry, Line, Stamp, Tenant};
use ing_shard::{Missing, Op, Ticket};
use ing_store::{Fuse, MemoryEnd, MemoryReceipt, MemoryStore, Receipt, StoreEnd};
use ing_wal::NoLog;
use std::alloc::Global;
use std::marker::Brand;
use std::process::Abort;
use std::sync::Wait;
use std::sync::atomic::{AtomicU64, Ordering};
use std::test::Fail;
use std::thread::{self, Threads, for_each_mut};
use std::time::{Clock, Duration};

/// How often one looks whether the others have come, a millisecond apart.
const TURNS: u32 = 10_000;

const LIMITS: LabelLimits = LabelLimits {
    names: 15,
    name_bytes: 1024,
    value_bytes: 2048,
};

/// How many flushers have come to their first put, and how many pushes were answered once both had.
#[derive(Drop)]
struct Meeting {
    at_put: AtomicU64,
    pushed: AtomicU64,
}

/// Waits until a count is as high as this, and says whether it came to be.
fn wait_for<C: Clock>(clock: &C, count: &AtomicU64, high: u64) -> bool {
    for _ in 0..TURNS {
        if count.load(Ordering::SeqCst) >= high {
            return true;
        }
        thread::sleep(clock, Duration::from_millis(1));
    }
    false
}

/// A gate that holds the first put up until a push is answered.
#[derive(Drop)]
struct MeetingGate<'a, W> {
    rt: &'a W,
    meeting: &'a Meeting,
    /// Whether a push was answered while the first put waited.
    met: Option<bool>,
}

impl<'a, W: Clock> Gate for MeetingGate<'a, W> {
    fn pass(&mut self, _op: &Op) {
        if self.met.is_some() {
            return;
        }
        self.meeting.at_put.fetch_add(1, Ordering::SeqCst);
        self.met = Some(wait_for(self.rt, &self.meeting.pushed, 1));
    }
}

/// Where they meet, what they write to, and whose streams they push to.
#[derive(Clone, Copy)]
struct Scene<'a> {
    meeting: &'a Meeting,
    store: &'a MemoryStore,
    tenant: &'a Tenant,
    streams: &'a [Labels; 2],
}

/// Pushes an entry of this nanosecond to a stream.
fn push<N: NodeName, R: Receipt, W: Wait + Abort>(
    rt: &W,
    alloc: Global,
    node: &Ingester<N, NoLog, R>,
    pusher: &mut Pusher<N>,
    tenant: &Tenant,
    labels: &Labels,
    nanoseconds: u64,
) {
    let stamp = Stamp::of_nanoseconds(nanoseconds).expect(rt, "a stamp");
    let line = Line::of_text(alloc, "x").expect(rt, "a line");
    let entries = vec![in alloc; Entry { stamp, line }].expect(rt, "memory");
    if labels.name().len() >= 1 << 32 {
        panic!(rt; "a long name");
    }
    let pushed = pusher.push(rt, alloc, node, tenant, labels, entries, stamp);
    assert!(rt; pushed.is_ok());
}

/// A flush queue, and two flushers of it. It cannot be dropped.
struct Crew<N: NodeName, S: StoreEnd, G: Gate> {
    flushing: Flushing<N>,
    workers: Vec<Worker<S, G>>,
    ghost queue: { All (λ worker. worker.pass.queue ≡ flushing.queue.name) workers.items },
    ghost own: { All (λ worker. IsTallyOf N.settings.shards N.books worker.flusher.tally) workers.items },
}

/// Two flushers of an ingester, by good ends of a store, each of which waits for the push before its first put.
fn crew_of<'a, N: NodeName, W: Wait + Clock + Abort>(
    rt: &'a W,
    alloc: Global,
    flushing: Flushing<N>,
    sweeper: &mut Sweeper,
    node: &Ingester<N, NoLog, MemoryReceipt<'a>>,
    scene: Scene<'a>,
) -> Crew<N, MemoryEnd<'a, W>, MeetingGate<'a, W>>
    requires { sweeper.old.pass.queue ≡ flushing.queue.name }
    ensures { sweeper.new.pass.queue ≡ result.flushing.queue.name }
{
    let mut workers = Vec::with_capacity(alloc, 2).expect(rt, "memory");
    while workers.len() < 2 {
        let gate = MeetingGate {
            rt,
            meeting: scene.meeting,
            met: None,
        };
        let end = scene.store.end(rt, Fuse::None);
        match flushing.flusher(rt, alloc, node, sweeper, end, gate) {
            Ok(worker) => workers.push_reserved(worker),
            Err(_) => panic!(rt; "no flusher"),
        }
    }
    Crew { flushing, workers }
}

/// Who is in a thread of its own.
enum Actor<N: NodeName, S: StoreEnd, G: Gate> {
    /// Flushers, for one round.
    Flushes(Crew<N, S, G>),
    /// Who pushes once both flushers stand before their first put, and whether that was answered while they stood there.
    Presses(Pusher<N>, bool),
}

/// Lets all act at once.
fn act_all<N, R, S, G, W>(
    rt: &W,
    alloc: Global,
    node: &Ingester<N, NoLog, R>,
    actors: &mut [Actor<N, S, G>],
    scene: Scene<'_>,
)
where
    N: NodeName + Send + Sync,
    R: Receipt + Send + Sync,
    S: StoreEnd<Receipt = R> + Send,
    G: Gate + Send,
    W: Threads + Wait + Sync + Clock + Abort,
{
    let work = |_: usize, actor: &mut Actor<N, S, G>| match actor {
        Actor::Flushes(crew) => {
            let round = crew
                .flushing
                .flush_round(rt, alloc, node, crew.workers.as_mut_slice());
            assert_eq!(rt; (round.stored, round.failed, round.other), (2, 0, 0));
        }
        Actor::Presses(pusher, is_answered) => {
            let both = wait_for(rt, &scene.meeting.at_put, 2);
            push(rt, alloc, node, pusher, scene.tenant, &scene.streams[0], 2);
            scene.meeting.pushed.fetch_add(1, Ordering::SeqCst);
            *is_answered = both;
        }
    };
    for_each_mut(rt, actors, actors.len().max(1), &work);
}

/// Who pushed, and what was flushed: with how many of the three have met. A flusher has before whose first put the push was answered, and
/// who pushed where both flushers stood there.
struct Parts<N: NodeName> {
    pushers: Vec<Pusher<N>>,
    tallies: Vec<FlusherTally>,
    met: u32,
    ghost own: { All (IsTallyOf N.settings.shards N.books) tallies.items },
}

/// The parts of all actors, beside a pusher.
fn parts_of<'a, N: NodeName, W: Wait + Clock + Abort>(
    rt: &W,
    alloc: Global,
    first: Pusher<N>,
    mut actors: Vec<Actor<N, MemoryEnd<'a, W>, MeetingGate<'a, W>>>,
) -> Parts<N> {
    let mut pushers = Vec::with_capacity(alloc, 1).expect(rt, "memory");
    pushers.push_reserved(first);
    let mut tallies = Vec::new(alloc);
    let mut met = 0u32;
    while let Some(actor) = actors.pop() {
        match actor {
            Actor::Flushes(
                Crew {
                    flushing: _,
                    workers,
                },
            ) => {
                met = met.saturating_add(let_go::<N, W>(rt, workers, &mut tallies));
            }
            Actor::Presses(pusher, is_answered) => {
                pushers.reserve(1).expect(rt, "memory");
                pushers.push_reserved(pusher);
                met = met.saturating_add(u32::from(is_answered));
            }
        }
    }
    actors.destroy_empty();
    Parts {
        pushers,
        tallies,
        met,
    }
}

/// Takes the tallies of flushers, and says before how many of their first puts the push was answered.
fn let_go<'a, N: NodeName, W: Wait + Clock + Abort>(
    rt: &W,
    mut workers: Vec<Worker<MemoryEnd<'a, W>, MeetingGate<'a, W>>>,
    tallies: &mut Vec<FlusherTally>,
) -> u32
    requires given { All (λ worker. IsTallyOf N.settings.shards N.books worker.flusher.tally) workers.items }
    requires own { All (IsTallyOf N.settings.shards N.books) tallies.old.items }
    ensures own { All (IsTallyOf N.settings.shards N.books) tallies.new.items }
{
    let mut met = 0u32;
    while let Some(worker) = workers.pop() {
        let (flusher, _) = worker.into_parts();
        let (_, gate, tally) = flusher.into_parts();
        tallies.reserve(1).expect(rt, "memory");
        tallies.push_reserved(tally);
        met = met.saturating_add(u32::from(gate.met == Some(true)));
    }
    workers.destroy_empty();
    met
}

/// Who keeps a diary.
fn pusher_of<N: NodeName, R: Receipt, W: Wait + Abort>(
    rt: &W,
    alloc: Global,
    node: &Ingester<N, NoLog, R>,
) -> Pusher<N> {
    match node.pusher(rt, alloc, true) {
        Ok(pusher) => pusher,
        Err(_) => panic!(rt; "no pusher"),
    }
}

/// Two push, two flush, and one of the pushers does while the flushers stand before their first put. With diaries.
fn acted<'a, N: NodeName + Send + Sync, W: Threads + Wait + Sync + Clock + Abort>(
    rt: &'a W,
    alloc: Global,
    settings: &Settings,
    node: &Ingester<N, NoLog, MemoryReceipt<'a>>,
    scene: Scene<'a>,
) -> Parts<N>
    requires { settings.now ≡ N.settings }
{
    let mut first = pusher_of(rt, alloc, node);
    let second = pusher_of(rt, alloc, node);
    for labels in scene.streams {
        push(rt, alloc, node, &mut first, scene.tenant, labels, 1);
    }
    let (flushing, mut sweeper) = Flushing::open(alloc, settings).expect(rt, "memory");
    let crew = crew_of(rt, alloc, flushing, &mut sweeper, node, scene);
    let Ok(swept) = crew.flushing.seal_round(rt, alloc, node, &mut sweeper) else {
        panic!(rt; "not sealed");
    };
    assert_eq!(rt; swept.queued, 2);
    let mut actors = Vec::with_capacity(alloc, 2).expect(rt, "memory");
    actors.push_reserved(Actor::Flushes(crew));
    actors.push_reserved(Actor::Presses(second, false));
    act_all(rt, alloc, node, actors.as_mut_slice(), scene);
    parts_of(rt, alloc, first, actors)
}

/// A ticket for the chunk of the stream that was pushed to last.
fn claimed<N: NodeName, R: Receipt, W: Wait + Abort>(
    rt: &W,
    alloc: Global,
    node: &Ingester<N, NoLog, R>,
) -> Ticket
    requires some { 0 < N.settings.shards }
    ensures shard { result.claimed.shard < N.settings.shards }
    ensures share { result.share.book ≡ (N.books result.claimed.shard).flight }
{
    let due = node.seal_all(rt, alloc, 0);
    let Ok(due) = due else {
        panic!(rt; "not sealed");
    };
    let [op] = due.ops.as_slice() else {
        panic!(rt; "one chunk waits");
    };
    assert_eq!(rt; op.shard, 0);
    match node.claim(rt, alloc, *op) {
        Ok(Some(ticket)) => ticket,
        _ => panic!(rt; "not claimed"),
    }
}

/// Looks whether a close was refused since so many shares are missing: of the accepted, those in flight, and the stored entries.
fn still_out<A: Abort>(rt: &A, why: &CloseRefusal, accepted: u64, flight: u64, stored: u64) {
    let missing = Missing {
        accepted,
        flight,
        stored,
    };
    assert!(rt; *why == CloseRefusal::StillOut(missing));
}

/// How many entries of one shard were accepted, stored and kept.
fn told_of<R: Receipt, A: Abort>(rt: &A, closed: &Closed<R>) -> (u64, u64, u64) {
    match closed.report.shards.as_slice() {
        [shard] => (shard.accepted, shard.stored, shard.kept),
        _ => panic!(rt; "one shard"),
    }
}

/// Closes an ingester of one shard: first without its parts and with a ticket out, then with the ticket out, then with all. Says how many
/// entries were accepted, stored and kept.
fn closed_at_last<N: NodeName, R: Receipt, S: StoreEnd<Receipt = R>, W: Wait + Abort>(
    rt: &W,
    alloc: Global,
    node: Ingester<N, NoLog, R>,
    end: &mut S,
    earlier: Earlier<N>,
    parts: Parts<N>,
) -> (u64, u64, u64)
    requires some { 0 < N.settings.shards }
{
    let Parts {
        pushers,
        tallies,
        met: _,
    } = parts;
    let ticket = claimed(rt, alloc, &node);
    let closed = node.close(alloc, end, earlier, Vec::new(alloc), Vec::new(alloc));
    let Err(fault) = closed else {
        panic!(rt; "closed without all");
    };
    still_out(rt, &fault.why, 2, 1, 2);
    let CloseFault {
        why: _,
        ingester,
        earlier,
        pushers: none,
        tallies: nothing,
    } = fault;
    none.destroy_empty();
    nothing.destroy_empty();
    let Err(fault) = ingester.close(alloc, end, earlier, pushers, tallies) else {
        panic!(rt; "closed with a ticket out");
    };
    still_out(rt, &fault.why, 0, 1, 0);
    let CloseFault {
        why: _,
        ingester,
        earlier,
        pushers,
        tallies,
    } = fault;
    assert!(rt; ingester.give_back(rt, ticket).is_ok());
    match ingester.close(alloc, end, earlier, pushers, tallies) {
        Ok(closed) => told_of(rt, &closed),
        Err(_) => panic!(rt; "not closed"),
    }
}

/// While two flushers of a round stand before their first put, each with a chunk of the one shard, a push to it is answered. The close
/// misses each share that is out, and no other; with all there, it finds what both pushers have noted.
fn meet<'a, N: NodeName + Send + Sync, W: Threads + Wait + Sync + Clock + Abort>(
    rt: &'a W,
    alloc: Global,
    shards: Shards<NoLog, MemoryReceipt<'a>>,
    store: &'a MemoryStore,
    meeting: &'a Meeting,
    tenant: &'a Tenant,
    streams: &'a [Labels; 2],
)
    requires settings { shards.settings ≡ N.settings }
    requires named { AreNamed N.books (reverse shards.last_first.items) }
    requires earlier { N.earlier ≡ earlier_of (reverse shards.last_first.items) }
    requires logs { N.has_logs ≡ true }
    requires some { 0 < N.settings.shards }
{
    let scene = Scene {
        meeting,
        store,
        tenant,
        streams,
    };
    let settings = shards.settings().try_clone().expect(rt, "memory");
    let (node, earlier): (Ingester<N, NoLog, MemoryReceipt<'a>>, Earlier<N>) = match Ingester::open(
        alloc, shards,
    ) {
        Ok(opened) => opened,
        Err(_) => panic!(rt; "memory"),
    };
    let parts = acted(rt, alloc, &settings, &node, scene);
    assert_eq!(rt; parts.met, 3);
    let mut end = store.end(rt, Fuse::None);
    assert_eq!(rt;
        closed_at_last(rt, alloc, node, &mut end, earlier, parts),
        (3, 2, 1)
    );
}

/// Two flushers of one round put at once, while a push goes through between them. A close with a ticket out tells it, one without those who
/// pushed and flushed tells theirs, and one with all of them adds up with what was noted.
#[test]
fn uploads_hold_no_lock(rt: HostRuntime) -> Result<(), Fail> {
    let alloc = rt.alloc();
    let tenant = Tenant::of_text(alloc, "t")?;
    let streams = [
        Labels::of_pairs(alloc, &[("a", "1")], &LIMITS)?,
        Labels::of_pairs(alloc, &[("a", "2")], &LIMITS)?,
    ];
    let meeting = Meeting {
        at_put: AtomicU64::new(0),
        pushed: AtomicU64::new(0),
    };
    let store = MemoryStore::new(alloc)?;
    let settings = Settings::from_toml(alloc, "diaries = true\n")?;
    let logs = vec![in alloc; NoLog::new()]?;
    if settings.shards() as usize != logs.len() {
        return Err("one shard".into());
    }
    let Ok(shards) = Shards::fresh(alloc, settings, logs) else {
        return Err("memory".into());
    };
    meet::<Brand, HostRuntime>(&rt, alloc, shards, &store, &meeting, &tenant, &streams);
    Ok(())
}
