//! Channels before they are served.
ghost use Rattle.std.specs.Prelude.{◌≡◌, All, IfErr, IfOk, map, vec_len};
ghost use Rattle.ing_lanes.specs.ByLane.{nothing_held};
ghost use Rattle.ing_lanes.specs.Counted.{IsHeld, counted_by};
ghost use Rattle.ing_node.specs.Names.{IsTallyOf};
ghost use Rattle.ing_node.specs.Refusals.{IsShareRefusal};

use crate::channel::Channel;
use crate::lane::Lane;
use crate::line::Line;
use crate::shared::Shared;
use ing_node::{FreeGate, NodeFault, NodeName, Sweeper, Worker};
use ing_store::{Receipt, StoreEnd};
use ing_wal::LogDisk;
use std::alloc::Global;
use std::io::{Read, Write};
use std::sync::Wait;

/// Who obeys the commands of a channel, with a flusher that puts into the store by this end, and with a diary where the settings want one.
/// `CounterFull` where 2^62 shares of a shard are out, `Misplaced`, and `NoMemory`; then shares may be given up, and the ingester is not
/// closed any more.
pub(crate) fn lane_of<
    'r,
    N: NodeName,
    D: LogDisk + Drop,
    R: Receipt,
    F: StoreEnd<Receipt = R> + Drop,
    W: Wait,
>(
    rt: &'r W,
    alloc: Global,
    shared: &'r Shared<N, D, R>,
    sweeper: &mut Sweeper,
    end: F,
) -> Result<Lane<'r, N, D, R, F, W>, NodeFault>
    requires { sweeper.old.pass.queue ≡ shared.now.flushing.queue.name }
    ensures nothing { IfOk result (λ lane.
        IsHeld lane.pusher (counted_by lane.workers.items) lane.board nothing_held) }
    ensures sweeper { sweeper.new.pass.queue ≡ sweeper.old.pass.queue }
    ensures refused { IfErr result (IsShareRefusal N.settings.shards) }
{
    let board = shared.ingester.reader(rt, alloc)?;
    let diary = shared.settings.diaries();
    let pusher = shared.ingester.pusher(rt, alloc, diary)?;
    let own = shared.flushing.another(sweeper);
    match worker_of(rt, alloc, shared, sweeper, end) {
        Ok(workers) => Ok(Lane {
            rt,
            alloc,
            shared,
            pusher,
            board,
            sweeper: own,
            workers,
        }),
        Err(fault) => {
            pusher.strand();
            Err(fault)
        }
    }
}

/// A flusher that puts into the store by this end, as a list of one. `CounterFull` where 2^62 shares of a shard are out, `Misplaced`, and
/// `NoMemory`; then no share more is out.
fn worker_of<N: NodeName, D: LogDisk + Drop, R: Receipt, F: StoreEnd<Receipt = R> + Drop, W: Wait>(
    rt: &W,
    alloc: Global,
    shared: &Shared<N, D, R>,
    sweeper: &mut Sweeper,
    end: F,
) -> Result<Vec<Worker<F, FreeGate>>, NodeFault>
    requires { sweeper.old.pass.queue ≡ shared.now.flushing.queue.name }
    ensures one { IfOk result (λ workers. vec_len workers ≡ 1) }
    ensures queue { IfOk result (λ workers.
        All (λ worker. worker.pass.queue ≡ shared.now.flushing.queue.name) workers.items) }
    ensures own { IfOk result (λ workers.
        All (λ worker. IsTallyOf N.settings.shards N.books worker.flusher.tally) workers.items) }
    ensures none { IfOk result (λ workers. counted_by workers.items ≡ 0) }
    ensures sweeper { sweeper.new.pass.queue ≡ sweeper.old.pass.queue }
    ensures refused { IfErr result (IsShareRefusal N.settings.shards) }
{
    let mut workers = Vec::with_capacity(alloc, 1)?;
    let node = &shared.ingester;
    match shared
        .flushing
        .flusher(rt, alloc, node, sweeper, end, FreeGate)
    {
        Ok(worker) => {
            workers.push_reserved(worker);
            Ok(workers)
        }
        Err(fault) => {
            workers.destroy_empty();
            Err(fault.why)
        }
    }
}

/// Each of these lines with who obeys its commands, and who puts into the store by one of these ends. As `lane_of`; then none is left.
pub(crate) fn channels_of<
    'r,
    N: NodeName,
    I: Read + Drop,
    O: Write + Drop,
    D: LogDisk + Drop,
    R: Receipt,
    F: StoreEnd<Receipt = R> + Drop,
    S: StoreEnd<Receipt = R> + Drop,
    W: Wait,
>(
    rt: &'r W,
    alloc: Global,
    shared: &'r Shared<N, D, R>,
    sweeper: &mut Sweeper,
    lines: Vec<Line<I, O, S>>,
    mut flushers: Vec<F>,
) -> Result<Vec<Channel<'r, N, I, O, D, R, F, S, W>>, NodeFault>
    requires sweeper { sweeper.old.pass.queue ≡ shared.now.flushing.queue.name }
    requires flushers { vec_len flushers ≡ vec_len lines }
    ensures lines { IfOk result (λ channels. map (λ c. c.line) channels.items ≡ lines.items) }
    ensures nothing { IfOk result (λ channels. All (λ c.
        IsHeld c.lane.pusher (counted_by c.lane.workers.items) c.lane.board nothing_held) channels.items) }
    ensures refused { IfErr result (IsShareRefusal N.settings.shards) }
{
    let mut channels = Vec::with_capacity(alloc, lines.len())?;
    for line in lines {
        let Some(end) = flushers.pop() else {
            unreachable!();
        };
        match lane_of(rt, alloc, shared, sweeper, end) {
            Ok(lane) => channels.push_reserved(Channel { line, lane }),
            Err(fault) => {
                strand_all(channels);
                return Err(fault);
            }
        }
    }
    Ok(channels)
}

/// Gives the shares of channels up, which stay out. Takes no memory.
fn strand_all<
    'r,
    N: NodeName,
    I: Read + Drop,
    O: Write + Drop,
    D: LogDisk + Drop,
    R: Receipt,
    F: StoreEnd<Receipt = R> + Drop,
    S: StoreEnd<Receipt = R> + Drop,
    W: Wait,
>(mut channels: Vec<Channel<'r, N, I, O, D, R, F, S, W>>) {
    while let Some(channel) = channels.pop() {
        let Channel { line: _, lane } = channel;
        let (pusher, tally) = lane.into_parts();
        pusher.strand();
        tally.strand();
    }
    channels.destroy_empty();
}
