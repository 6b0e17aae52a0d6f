//! Channels after they were served.
ghost use Rattle.std.specs.Prelude.{◌≡◌, ◌+◌, ◌≤◌, ℕ, All, IfErr, IfOk, map, sum_by, true, vec_capacity, vec_len};
ghost use Rattle.ing_tally.specs.Books.{amount_of};
ghost use Rattle.ing_node.specs.Tallies.{amount_at};
ghost use Rattle.ing_lanes.specs.ByLane.{Measure, told_as};
ghost use Rattle.ing_lanes.specs.Counted.{counted_by};
ghost use Rattle.ing_lanes.specs.Served.{AddsUpWith, HasReason};
ghost use Rattle.ing_node.specs.Closing.{StandInPlaces};
ghost use Rattle.ing_node.specs.Diaries.{HaveNoted, HaveNotedEach, KeepsDiary, notes_at};
ghost use Rattle.ing_node.specs.Earlier.{had_at};
ghost use Rattle.ing_node.specs.Names.{IsTallyOf};
ghost use Rattle.ing_node.specs.Reports.{CountRows, IsCausedClose, IsNoBadClose};

use crate::channel::Channel;
use crate::line::Line;
use ing_node::{
    CloseFault, CloseRefusal, Closed, Earlier, FlusherTally, Ingester, NodeName, Pusher,
};
use ing_store::{Receipt, StoreEnd};
use ing_wal::LogDisk;
use std::alloc::{AllocError, Global};
use std::io::{Read, Write};
use std::sync::Wait;

/// The lines of channels, and, not in their order, what they were told accepted and what their flushers have stored. It cannot be dropped.
pub(crate) struct Parted<N: NodeName, I: Read, O: Write, S: StoreEnd> {
    pub(crate) lines: Vec<Line<I, O, S>>,
    pub(crate) pushers: Vec<Pusher<N>>,
    pub(crate) tallies: Vec<FlusherTally>,
}

impl<N: NodeName, I: Read + Drop, O: Write + Drop, S: StoreEnd + Drop> Parted<N, I, O, S> {
    /// Room for so many.
    pub(crate) fn new(alloc: Global, count: usize) -> Result<Parted<N, I, O, S>, AllocError>
        ensures lines { IfOk result (λ room. (vec_len room.lines ≡ 0) × (count ≤ vec_capacity room.lines)) }
        ensures pushers { IfOk result (λ room. (vec_len room.pushers ≡ 0) × (count ≤ vec_capacity room.pushers)) }
        ensures tallies { IfOk result (λ room. (vec_len room.tallies ≡ 0) × (count ≤ vec_capacity room.tallies)) }
    {
        let lines = Vec::with_capacity(alloc, count)?;
        let pushers = Vec::with_capacity(alloc, count)?;
        match Vec::with_capacity(alloc, count) {
            Ok(tallies) => Ok(Parted {
                lines,
                pushers,
                tallies,
            }),
            Err(error) => {
                pushers.destroy_empty();
                Err(error)
            }
        }
    }

    /// Lets the room go, of which none was taken.
    pub(crate) fn let_go(self)
        requires { (vec_len self.pushers ≡ 0) × (vec_len self.tallies ≡ 0) }
    {
        let Parted {
            lines: _,
            pushers,
            tallies,
        } = self;
        pushers.destroy_empty();
        tallies.destroy_empty();
    }
}

/// Takes channels apart, into room for them. All else is let go.
pub(crate) fn part_all<
    'r,
    N: NodeName,
    I: Read + Drop,
    O: Write + Drop,
    D: LogDisk + Drop,
    R: Receipt,
    F: StoreEnd<Receipt = R> + Drop,
    S: StoreEnd<Receipt = R> + Drop,
    W: Wait,
>(
    mut channels: Vec<Channel<'r, N, I, O, D, R, F, S, W>>,
    room: Parted<N, I, O, S>,
) -> Parted<N, I, O, S>
    requires lines { (vec_len room.lines ≡ 0) × (vec_len channels ≤ vec_capacity room.lines) }
    requires pushers { (vec_len room.pushers ≡ 0) × (vec_len channels ≤ vec_capacity room.pushers) }
    requires tallies { (vec_len room.tallies ≡ 0) × (vec_len channels ≤ vec_capacity room.tallies) }
    ensures lines { result.lines.items ≡ map (λ c. c.line) channels.entry.items }
    ensures told { (measure : Measure) → sum_by (λ p. told_as p measure) result.pushers.items
        ≡ sum_by (λ c. told_as c.lane.pusher measure) channels.entry.items }
    ensures diaries { N.settings.diaries ≡ true → All KeepsDiary result.pushers.items }
    ensures own { All (IsTallyOf N.settings.shards N.books) result.tallies.items }
    ensures counted { sum_by amount_of result.tallies.items
        ≡ sum_by (λ c. counted_by c.lane.workers.items) channels.entry.items }
{
    let Parted {
        mut lines,
        mut pushers,
        mut tallies,
    } = room;
    while let Some(channel) = channels.pop() {
        let Channel { line, lane } = channel;
        let (pusher, tally) = lane.into_parts();
        lines.push_reserved(line);
        pushers.push_reserved(pusher);
        tallies.push_reserved(tally);
    }
    channels.destroy_empty();
    // The last one came first.
    lines.reverse();
    Parted {
        lines,
        pushers,
        tallies,
    }
}

/// Closes an ingester with what channels were told and what their flushers have stored, all of it. Where diaries are wanted, what was
/// stored is read back by this end. As `Ingester::close`; where it is refused all is let go.
pub(crate) fn close_all<N: NodeName, D: LogDisk + Drop, R: Receipt, S: StoreEnd<Receipt = R>>(
    alloc: Global,
    end: &mut S,
    ingester: Ingester<N, D, R>,
    earlier: Earlier<N>,
    pushers: Vec<Pusher<N>>,
    tallies: Vec<FlusherTally>,
) -> Result<Closed<R>, CloseRefusal>
    requires { All (IsTallyOf N.settings.shards N.books) tallies.items }
    ensures closed { IfOk result (λ closed. AddsUpWith N.settings.shards N.earlier
        (λ i. sum_by (λ p. amount_at i p.told) pushers.items) (sum_by amount_of tallies.items) closed.report.shards.items) }
    ensures all { IfOk result (λ closed. vec_len closed.shards ≡ N.settings.shards) }
    ensures placed { IfOk result (λ closed. StandInPlaces N.settings closed.shards.items) }
    ensures rows { IfOk result (λ closed.
        CountRows (λ shard. shard.state.rows) closed.shards.items closed.report.shards.items) }
    ensures settled { S.is_honest → N.settings.diaries ≡ true → IfOk result (λ closed. All KeepsDiary pushers.items →
        HaveNoted (λ shard. shard.state.rows) (had_at N.earlier)
        (λ i. notes_at N.settings.shards i pushers.items) closed.shards.items) }
    ensures places { N.settings.diaries ≡ true → IfOk result (λ closed. All KeepsDiary pushers.items →
        HaveNotedEach (λ shard. shard.state.rows) (had_at N.earlier)
        (λ i. notes_at N.settings.shards i pushers.items) closed.shards.items) }
    ensures refused { IfErr result (HasReason N.settings) }
    ensures honest { S.is_honest → IfErr result IsNoBadClose }
    ensures cause { IfErr result (IsCausedClose (S.failure_count end.old) (S.failure_count end.new)) }
{
    earlier.is_of_each();
    match ingester.close(alloc, end, earlier, pushers, tallies) {
        Ok(closed) => Ok(closed),
        Err(fault) => Err(not_closed(fault)),
    }
}

/// Why an ingester was not closed. All is let go.
fn not_closed<N: NodeName, D: LogDisk + Drop, R: Receipt>(
    fault: CloseFault<N, D, R>,
) -> CloseRefusal
    ensures { result ≡ fault.why }
{
    let CloseFault {
        why,
        ingester,
        earlier,
        pushers,
        tallies,
    } = fault;
    ingester.abandon(earlier, pushers, tallies);
    why
}
