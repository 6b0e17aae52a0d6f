//! All channels, side by side, from shards to a report.
ghost use Rattle.std.specs.Prelude.{◌≡◌, All, IfErr, IfOk, List, false, reverse, true, vec_len};
ghost use Rattle.std.specs.List.{AllByRecursion, AllZip};
ghost use Rattle.ing_node.specs.Begun.{HasTornLog};
ghost use Rattle.ing_lanes.specs.ByLane.{nothing_held};
ghost use Rattle.ing_lanes.specs.Counted.{IsHeld, counted_by};
ghost use Rattle.ing_lanes.specs.Served.{Account, AddsUp, AreServed, HaveWhatWasTold, IsLanesFault, IsNotOpened, IsServed, Parts, StandWhereTold, account_of, broken_in};
ghost use Rattle.ing_node.specs.Closing.{StandInPlaces};
ghost use Rattle.ing_node.specs.Diaries.{KeepsDiary};
ghost use Rattle.ing_node.specs.Earlier.{earlier_of};
ghost use Rattle.ing_node.specs.Names.{AreNamed, IsTallyOf};
ghost use Rattle.ing_node.specs.Reports.{CountRows};

use crate::channel::Channel;
use crate::closing::{Parted, close_all, part_all};
use crate::fault::LanesFault;
use crate::line::{Line, Opens};
use crate::opening::channels_of;
use crate::shared::{Opened, Shared};
use ing_node::{Closed, ClosedShard, NodeName, Shards, Sweeper};
use ing_refusals::Refusal;
use ing_store::{Receipt, StoreEnd};
use ing_tally::ShardReport;
use ing_wal::LogDisk;
use std::alloc::Global;
use std::io::{Read, Write};
use std::sync::Wait;
use std::thread::{Threads, for_each_mut};

/// The ends of a store by which no channel reads.
#[derive(Drop)]
pub struct Ends<F: StoreEnd, S: StoreEnd> {
    /// By which the channels' flushers put, one for each channel.
    pub flushers: Vec<F>,
    /// By which the close reads back what was stored, where diaries are kept.
    pub reader: S,
}

/// Channels that have ended, what is reported of the shards, and they.
#[derive(Drop)]
pub struct Ended<I: Read, O: Write, S: StoreEnd> {
    /// Of each shard, by number.
    pub reports: Vec<ShardReport>,
    /// The shards, by number, to be read.
    pub shards: Vec<ClosedShard<S::Receipt>>,
    /// The channels, in their order.
    pub lines: Vec<Line<I, O, S>>,
}

impl<I: Read, O: Write, S: StoreEnd> Ended<I, O, S> {
    /// How many channels broke: an open, a read or a write failed, or memory ran out. Takes no memory.
    pub fn broken(&self) -> u64
        ensures { result ≡ broken_in self.now.lines.items }
    {
        let mut count: u64 = 0;
        for line in &self.lines {
            if line.ended.is_err() {
                count += 1;
            }
        }
        count
    }
}

/// Runs over an ingester of these shards, which N has to name, until each of these channels has ended: each is served in a thread of its
/// own, or one after another where no thread can be made, and has a flusher of its own, which puts into the store by one of these ends.
/// Then it is closed, with all that the channels were told, also those that broke: of each shard as many entries are reported accepted as
/// all channels were told together, and with what was recovered they are stored or kept. Where the settings want diaries, each channel
/// notes what it was told accepted, and the close compares every entry that came since the start with the notes, as `Ingester::close`:
/// over an honest store those that came to the shards, which are handed out, are then exactly those that all channels were told, and over
/// any store there are as many of them under each number of each stream.
///
/// `NotOpened` before anything is read: `NoMemory`, `CounterFull` or `Misplaced`; `NotClosed` as `Ingester::close`, where an entry differs
/// or could not be read back only where diaries are wanted. (Own.)
pub fn run_lanes<
    N: NodeName + Send + Sync,
    I: Read + Drop + Send,
    O: Write + Drop + Send,
    D: LogDisk + Drop + Send,
    R: Receipt + Send + Sync,
    F: StoreEnd<Receipt = R> + Drop + Send,
    S: StoreEnd<Receipt = R> + Drop + Send,
    W: Threads + Wait + Sync,
    X: Opens<I, O> + Sync,
>(
    rt: &W,
    alloc: Global,
    opens: &X,
    shards: Shards<D, R>,
    has_logs: bool,
    lines: Vec<Line<I, O, S>>,
    ends: Ends<F, S>,
) -> Result<Ended<I, O, S>, LanesFault>
    requires settings { shards.settings ≡ N.settings }
    requires named { AreNamed N.books (reverse shards.last_first.items) }
    requires earlier { N.earlier ≡ earlier_of (reverse shards.last_first.items) }
    requires logs { has_logs ≡ N.has_logs }
    requires torn { N.has_logs ≡ false → AllByRecursion HasTornLog (reverse shards.last_first.items) }
    requires flushers { vec_len ends.flushers ≡ vec_len lines }
    ensures served { IfOk result (λ ended. (accounts : List Account)
        × AreServed (λ old new account. IsServed S.is_honest N.has_logs N.settings (I.remaining old.reader)
        (S.failure_count old.end) (S.failure_count new.end) (O.contents old.writer) (O.contents new.writer) account new.ended)
        lines.items ended.lines.items accounts
        × AddsUp N.settings.shards N.earlier accounts ended.reports.items
        × (S.is_honest → N.settings.diaries ≡ true →
        HaveWhatWasTold N.settings.shards N.earlier accounts ended.shards.items)
        × (N.settings.diaries ≡ true → StandWhereTold N.settings.shards N.earlier accounts ended.shards.items)) }
    ensures all { IfOk result (λ ended. vec_len ended.shards ≡ N.settings.shards) }
    ensures placed { IfOk result (λ ended. StandInPlaces N.settings ended.shards.items) }
    // What is reported of a shard is so of the one that is handed out.
    ensures rows { IfOk result (λ ended.
        CountRows (λ shard. shard.state.rows) ended.shards.items ended.reports.items) }
    ensures refused { IfErr result (IsLanesFault N.settings) }
{
    let Ok(opened) = Shared::<N, D, R>::open(alloc, shards, has_logs) else {
        return Err(LanesFault::NotOpened(Refusal::NoMemory));
    };
    let Opened {
        shared,
        earlier,
        mut sweeper,
    } = opened;
    let Ends {
        flushers,
        mut reader,
    } = ends;
    match serve_lanes(rt, alloc, opens, &shared, &mut sweeper, lines, flushers) {
        Ok(parted) => {
            let Parted {
                lines,
                pushers,
                tallies,
            } = parted;
            let Shared { ingester, .. } = shared;
            let closed = close_all(alloc, &mut reader, ingester, earlier, pushers, tallies)?;
            let Closed { report, shards } = closed;
            Ok(Ended {
                reports: report.shards,
                shards,
                lines,
            })
        }
        Err(refusal) => {
            earlier.strand();
            Err(LanesFault::NotOpened(refusal))
        }
    }
}

/// Serves channels of these lines until each has ended, and takes them apart.
fn serve_lanes<
    N: NodeName + Send + Sync,
    I: Read + Drop + Send,
    O: Write + Drop + Send,
    D: LogDisk + Drop + Send,
    R: Receipt + Send + Sync,
    F: StoreEnd<Receipt = R> + Drop + Send,
    S: StoreEnd<Receipt = R> + Drop + Send,
    W: Threads + Wait + Sync,
    X: Opens<I, O> + Sync,
>(
    rt: &W,
    alloc: Global,
    opens: &X,
    shared: &Shared<N, D, R>,
    sweeper: &mut Sweeper,
    lines: Vec<Line<I, O, S>>,
    flushers: Vec<F>,
) -> Result<Parted<N, I, O, S>, Refusal>
    requires sweeper { sweeper.old.pass.queue ≡ shared.now.flushing.queue.name }
    requires flushers { vec_len flushers ≡ vec_len lines }
    ensures served { IfOk result (λ parted. (accounts : List Account)
        × AreServed (λ old new account. IsServed S.is_honest N.has_logs N.settings (I.remaining old.reader)
        (S.failure_count old.end) (S.failure_count new.end) (O.contents old.writer) (O.contents new.writer) account new.ended)
        lines.items parted.lines.items accounts
        × Parts accounts parted.pushers.items parted.tallies.items) }
    ensures diaries { IfOk result (λ parted. N.settings.diaries ≡ true → All KeepsDiary parted.pushers.items) }
    ensures own { IfOk result (λ parted. All (IsTallyOf N.settings.shards N.books) parted.tallies.items) }
    ensures refused { IfErr result (IsNotOpened N.settings.shards) }
{
    let Ok(room) = Parted::new(alloc, lines.len()) else {
        return Err(Refusal::NoMemory);
    };
    match channels_of(rt, alloc, shared, sweeper, lines, flushers) {
        Ok(mut channels) => {
            serve_all(rt, opens, channels.as_mut_slice());
            Ok(part_all(channels, room))
        }
        Err(fault) => {
            room.let_go();
            Err(fault.refusal())
        }
    }
}

/// Serves all channels, each in a thread of its own.
fn serve_all<
    'r,
    N: NodeName + Send + Sync,
    I: Read + Drop + Send,
    O: Write + Drop + Send,
    D: LogDisk + Drop + Send,
    R: Receipt + Send + Sync,
    F: StoreEnd<Receipt = R> + Drop + Send,
    S: StoreEnd<Receipt = R> + Drop + Send,
    W: Threads + Wait + Sync,
    X: Opens<I, O> + Sync,
>(rt: &W, opens: &X, channels: &mut [Channel<'r, N, I, O, D, R, F, S, W>])
    requires { All (λ c. IsHeld c.lane.pusher (counted_by c.lane.workers.items) c.lane.board nothing_held) channels.old }
    ensures { AllZip (λ old new. IsServed S.is_honest N.has_logs N.settings (I.remaining old.line.reader)
        (S.failure_count old.line.end) (S.failure_count new.line.end)
        (O.contents old.line.writer) (O.contents new.line.writer)
        (account_of new.lane.pusher new.lane.workers.items) new.line.ended) channels.old channels.new }
{
    let serve = |_: usize, channel: &mut Channel<'_, N, I, O, D, R, F, S, W>|
        requires { IsHeld channel.now.lane.pusher (counted_by channel.now.lane.workers.items) channel.now.lane.board nothing_held }
        ensures { IsServed S.is_honest N.has_logs N.settings (I.remaining channel.entry.now.line.reader)
            (S.failure_count channel.entry.now.line.end) (S.failure_count channel.exit.now.line.end)
            (O.contents channel.entry.now.line.writer) (O.contents channel.exit.now.line.writer)
            (account_of channel.exit.now.lane.pusher channel.exit.now.lane.workers.items) channel.exit.now.line.ended }
    {
        channel.serve(opens);
    };
    for_each_mut(rt, channels, channels.len().max(1), &serve);
}
