//! What a flush does to shards that nobody shares: it claims chunks, has them uploaded, and settles each.
ghost use Rattle.std.specs.Prelude.{◌≡◌, ◌<◌, ◌≤◌, ◌+◌, ◌-◌, ◌++◌, All, AllPairs, IfOk, IfSome, List, OnOk, Option, drop, length, map, option_to_list, reverse, vec_capacity, vec_len};
ghost use Rattle.std.specs.List.{AllZip};
ghost use Rattle.ing_limits.specs.Settings.{StoreSettings};
ghost use Rattle.ing_limits.specs.Ranges.{rules_for};
ghost use Rattle.ing_durable.specs.Flights.{Flown};
ghost use Rattle.ing_durable.specs.Kept.{whose};
ghost use Rattle.ing_session.specs.Causes.{GoesOn, HaveCause};
ghost use Rattle.ing_service.specs.Each.{GoesAt};
ghost use Rattle.ing_service.specs.Ends.{IsUploadOf, NeverFail, failures_in, lost_in};
ghost use Rattle.ing_service.specs.Flushes.{ClaimEach, ClaimsIn, Settled, SettleEach, SettlesIn, Works, claimed_in, failed_among, settled_as, stored_among};
ghost use Rattle.ing_service.specs.Flying.{AreApart, FliesIn, IsLentBy};
ghost use Rattle.ing_service.specs.Held.{AreNumbered, AreShardsOf, shard_held};

use crate::ends::Ends;
use crate::seat::Seat;
use crate::uploads::upload_all;
use ing_durable::{Flushed, Op, Ticket};
use ing_store::{Receipt, StoreEnd};
use ing_wal::LogDisk;
use std::alloc::{AllocError, Global};
use std::thread::Threads;

/// How many chunks are uploaded before the first of them is settled: so what is kept of uploads does not grow with the queue, and a flush that
/// is killed has lost few.
const ROUND: usize = 1024;

/// How many uploads failed, and how many chunks were stored.
#[derive(Clone, Copy, Debug, Default)]
pub(crate) struct Uploads {
    pub(crate) failed: u64,
    pub(crate) stored: u64,
}

/// Works off operations, the oldest first: all claim, and then what is claimed is uploaded and settled in rounds. It fails only where memory
/// runs out.
pub(crate) fn work_off<
    H: Threads + Sync,
    D: LogDisk + Drop,
    R: Receipt + Send + Sync,
    S: StoreEnd<Receipt = R> + Send,
>(
    rt: &H,
    alloc: Global,
    seats: &mut [Seat<D, R>],
    ends: &mut Ends<S>,
    ops: &[Op],
) -> Result<Uploads, AllocError>
    requires shards { AreNumbered (map (λ seat. whose seat.shard.memory) seats.old) }
    requires ops { All (λ op. op.shard < length seats.old) ops.now }
    ensures works { (settings : StoreSettings) →
        AreShardsOf settings (map (λ seat. whose seat.shard.memory) seats.old) → IfOk result (λ told.
        (settled : List Settled) × Works (rules_for settings) ops.now settled
        (map (λ seat. shard_held seat.shard) seats.old) (map (λ seat. shard_held seat.shard) seats.new)
        × (told.failed ≡ failed_among settled) × (told.stored ≡ stored_among settled)
        × HaveCause (failures_in S.failure_count ends.old) (failures_in S.failure_count ends.new) (failed_among settled)) }
    ensures same { map (λ seat. whose seat.shard.memory) seats.new ≡ map (λ seat. whose seat.shard.memory) seats.old }
    ensures end { GoesOn (NeverFail S.never_fails) (failures_in S.failure_count) ends.old ends.new }
{
    let mut tickets = claim_each(alloc, seats, ops)?;
    tickets.reverse();
    settle_all(rt, alloc, seats, ends, tickets)
}

/// Claims a chunk for each operation, in their order, where one waits. It fails only where memory runs out; then all are given back.
fn claim_each<D: LogDisk + Drop, R: Receipt>(
    alloc: Global,
    seats: &mut [Seat<D, R>],
    ops: &[Op],
) -> Result<Vec<Ticket>, AllocError>
    requires shards { AreNumbered (map (λ seat. whose seat.shard.memory) seats.old) }
    requires ops { All (λ op. op.shard < length seats.old) ops.now }
    ensures claims { (settings : StoreSettings) →
        AreShardsOf settings (map (λ seat. whose seat.shard.memory) seats.old) → IfOk result (λ tickets.
        (claims : List (Option Flown)) × ClaimEach (rules_for settings) ops.now claims
        (map (λ seat. shard_held seat.shard) seats.old) (map (λ seat. shard_held seat.shard) seats.new)
        × (map (λ ticket. ticket.claimed) tickets.items ≡ claimed_in claims)) }
    ensures lent { IfOk result (λ tickets.
        All (λ ticket. IsLentBy (map (λ seat. seat.shard.memory.books.flight.name) seats.new) ticket.claimed ticket.share.book) tickets.items) }
    ensures fly { IfOk result (λ tickets.
        All (λ ticket. FliesIn (map (λ seat. seat.shard.memory) seats.new) ticket.claimed) tickets.items) }
    ensures apart { IfOk result (λ tickets. AllPairs (λ one other. AreApart one.claimed other.claimed) tickets.items) }
    ensures same { map (λ seat. whose seat.shard.memory) seats.new ≡ map (λ seat. whose seat.shard.memory) seats.old }
{
    let mut tickets = Vec::with_capacity(alloc, ops.len())?;
    for op in ops {
        if claim_one(alloc, seats, *op, &mut tickets).is_err() {
            give_each_back(seats, tickets);
            return Err(AllocError);
        }
    }
    Ok(tickets)
}

/// Claims a chunk for an operation, where one waits, and puts its ticket behind those that are there. It fails only where memory runs out.
fn claim_one<D: LogDisk + Drop, R: Receipt>(
    alloc: Global,
    seats: &mut [Seat<D, R>],
    op: Op,
    tickets: &mut Vec<Ticket>,
) -> Result<(), AllocError>
    requires shards { AreNumbered (map (λ seat. whose seat.shard.memory) seats.old) }
    requires there { op.shard < length seats.old }
    requires room { vec_len tickets.old < vec_capacity tickets.old }
    requires lent { All (λ ticket. IsLentBy (map (λ seat. seat.shard.memory.books.flight.name) seats.old) ticket.claimed ticket.share.book) tickets.old.items }
    requires fly { All (λ ticket. FliesIn (map (λ seat. seat.shard.memory) seats.old) ticket.claimed) tickets.old.items }
    requires apart { AllPairs (λ one other. AreApart one.claimed other.claimed) tickets.old.items }
    ensures claims { (settings : StoreSettings) →
        AreShardsOf settings (map (λ seat. whose seat.shard.memory) seats.old) → OnOk result
        ((claim : Option Flown) × GoesAt (ClaimsIn (rules_for settings) op claim) op.shard
        (map (λ seat. shard_held seat.shard) seats.old) (map (λ seat. shard_held seat.shard) seats.new)
        × (map (λ ticket. ticket.claimed) tickets.new.items ≡ map (λ ticket. ticket.claimed) tickets.old.items ++ option_to_list claim)) }
    ensures lent { All (λ ticket. IsLentBy (map (λ seat. seat.shard.memory.books.flight.name) seats.new) ticket.claimed ticket.share.book) tickets.new.items }
    ensures fly { OnOk result (All (λ ticket. FliesIn (map (λ seat. seat.shard.memory) seats.new) ticket.claimed) tickets.new.items) }
    ensures apart { AllPairs (λ one other. AreApart one.claimed other.claimed) tickets.new.items }
    ensures room { (vec_len tickets.new ≤ vec_len tickets.old + 1) × (vec_capacity tickets.new ≡ vec_capacity tickets.old) }
    ensures same { map (λ seat. whose seat.shard.memory) seats.new ≡ map (λ seat. whose seat.shard.memory) seats.old }
{
    let Some(ticket) = seats[op.shard as usize].claim(alloc, op)? else {
        return Ok(());
    };
    tickets.push_reserved(ticket);
    Ok(())
}

/// Uploads and settles the chunks of tickets, the last first, in rounds. It fails only where memory runs out; then what is not settled is given
/// back.
fn settle_all<
    H: Threads + Sync,
    D: LogDisk + Drop,
    R: Receipt + Send + Sync,
    S: StoreEnd<Receipt = R> + Send,
>(
    rt: &H,
    alloc: Global,
    seats: &mut [Seat<D, R>],
    ends: &mut Ends<S>,
    mut tickets: Vec<Ticket>,
) -> Result<Uploads, AllocError>
    requires lent { All (λ ticket. IsLentBy (map (λ seat. seat.shard.memory.books.flight.name) seats.old) ticket.claimed ticket.share.book) tickets.items }
    requires fly { All (λ ticket. FliesIn (map (λ seat. seat.shard.memory) seats.old) ticket.claimed) tickets.items }
    requires apart { AllPairs (λ one other. AreApart one.claimed other.claimed) tickets.items }
    ensures settles { (settings : StoreSettings) →
        AreShardsOf settings (map (λ seat. whose seat.shard.memory) seats.old) → IfOk result (λ told.
        (settled : List Settled) × SettleEach (rules_for settings) settled
        (map (λ seat. shard_held seat.shard) seats.old) (map (λ seat. shard_held seat.shard) seats.new)
        × (map (λ s. s.chunk) settled ≡ map (λ ticket. ticket.claimed) (reverse tickets.items))
        × (told.failed ≡ failed_among settled) × (told.stored ≡ stored_among settled)
        × HaveCause (failures_in S.failure_count ends.old) (failures_in S.failure_count ends.new) (failed_among settled)) }
    ensures same { map (λ seat. whose seat.shard.memory) seats.new ≡ map (λ seat. whose seat.shard.memory) seats.old }
    ensures end { GoesOn (NeverFail S.never_fails) (failures_in S.failure_count) ends.old ends.new }
{
    let mut told = Uploads::default();
    while !tickets.is_empty() {
        match settle_round(rt, alloc, seats, ends, &mut tickets) {
            Ok(round) => {
                told.failed += round.failed;
                told.stored += round.stored;
            }
            Err(error) => {
                give_each_back(seats, tickets);
                return Err(error);
            }
        }
    }
    tickets.destroy_empty();
    Ok(told)
}

/// Uploads the chunks of the last tickets, and settles them, the last first. It fails only where memory runs out.
fn settle_round<
    H: Threads + Sync,
    D: LogDisk + Drop,
    R: Receipt + Send + Sync,
    S: StoreEnd<Receipt = R> + Send,
>(
    rt: &H,
    alloc: Global,
    seats: &mut [Seat<D, R>],
    ends: &mut Ends<S>,
    tickets: &mut Vec<Ticket>,
) -> Result<Uploads, AllocError>
    requires some { 0 < vec_len tickets.old }
    requires lent { All (λ ticket. IsLentBy (map (λ seat. seat.shard.memory.books.flight.name) seats.old) ticket.claimed ticket.share.book) tickets.old.items }
    requires fly { All (λ ticket. FliesIn (map (λ seat. seat.shard.memory) seats.old) ticket.claimed) tickets.old.items }
    requires apart { AllPairs (λ one other. AreApart one.claimed other.claimed) tickets.old.items }
    ensures settles { (settings : StoreSettings) →
        AreShardsOf settings (map (λ seat. whose seat.shard.memory) seats.old) → IfOk result (λ told.
        (settled : List Settled) × SettleEach (rules_for settings) settled
        (map (λ seat. shard_held seat.shard) seats.old) (map (λ seat. shard_held seat.shard) seats.new)
        × (map (λ s. s.chunk) settled ++ map (λ ticket. ticket.claimed) (reverse tickets.new.items) ≡ map (λ ticket. ticket.claimed) (reverse tickets.old.items))
        × (told.failed ≡ failed_among settled) × (told.stored ≡ stored_among settled)
        × HaveCause (failures_in S.failure_count ends.old) (failures_in S.failure_count ends.new) (failed_among settled)) }
    ensures lent { All (λ ticket. IsLentBy (map (λ seat. seat.shard.memory.books.flight.name) seats.new) ticket.claimed ticket.share.book) tickets.new.items }
    ensures fly { OnOk result (All (λ ticket. FliesIn (map (λ seat. seat.shard.memory) seats.new) ticket.claimed) tickets.new.items) }
    ensures apart { AllPairs (λ one other. AreApart one.claimed other.claimed) tickets.new.items }
    ensures fewer { IfOk result (λ told. vec_len tickets.new + told.failed + told.stored ≡ vec_len tickets.old) }
    ensures some { IfOk result (λ told. 0 < told.failed + told.stored) }
    ensures same { map (λ seat. whose seat.shard.memory) seats.new ≡ map (λ seat. whose seat.shard.memory) seats.old }
    ensures end { GoesOn (NeverFail S.never_fails) (failures_in S.failure_count) ends.old ends.new }
{
    let first = tickets.len().saturating_sub(ROUND);
    let uploads = upload_claimed(rt, alloc, ends, &tickets[first..])?;
    let told = told_of(&uploads);
    settle_each(alloc, seats, tickets, uploads)?;
    Ok(told)
}

/// Uploads the chunks of tickets, and gives of each what is listed of it, or nothing where the store failed. It fails only where memory runs
/// out.
fn upload_claimed<H: Threads + Sync, R: Receipt + Send + Sync, S: StoreEnd<Receipt = R> + Send>(
    rt: &H,
    alloc: Global,
    ends: &mut Ends<S>,
    tickets: &[Ticket],
) -> Result<Vec<Option<Flushed<R>>>, AllocError>
    ensures of { IfOk result (λ all. AllZip (λ ticket upload. IfSome upload (IsUploadOf R.bytes R.name ticket.claimed)) tickets.now all.items) }
    ensures causes { IfOk result (λ all.
        HaveCause (failures_in S.failure_count ends.old) (failures_in S.failure_count ends.new) (lost_in all.items)) }
    ensures end { GoesOn (NeverFail S.never_fails) (failures_in S.failure_count) ends.old ends.new }
{
    let mut chunks = Vec::with_capacity(alloc, tickets.len())?;
    for ticket in tickets {
        chunks.push(ticket.claimed())?;
    }
    upload_all(rt, alloc, ends, &chunks)
}

/// How many uploads failed, and how many did not.
fn told_of<R: Receipt>(uploads: &[Option<Flushed<R>>]) -> Uploads
    ensures failed { result.failed ≡ lost_in uploads.now }
    ensures all { result.failed + result.stored ≡ length uploads.now }
{
    let mut failed = 0;
    for upload in uploads {
        failed += u64::from(upload.is_none());
    }
    Uploads {
        failed,
        stored: uploads.len() as u64 - failed,
    }
}

/// Settles the chunks of the last tickets, each by the upload at its place from the last on, the last first. It fails only where memory runs
/// out.
fn settle_each<D: LogDisk + Drop, R: Receipt>(
    alloc: Global,
    seats: &mut [Seat<D, R>],
    tickets: &mut Vec<Ticket>,
    mut uploads: Vec<Option<Flushed<R>>>,
) -> Result<(), AllocError>
    requires few { vec_len uploads ≤ vec_len tickets.old }
    requires lent { All (λ ticket. IsLentBy (map (λ seat. seat.shard.memory.books.flight.name) seats.old) ticket.claimed ticket.share.book) tickets.old.items }
    requires fly { All (λ ticket. FliesIn (map (λ seat. seat.shard.memory) seats.old) ticket.claimed) tickets.old.items }
    requires apart { AllPairs (λ one other. AreApart one.claimed other.claimed) tickets.old.items }
    requires of { AllZip (λ ticket upload. IfSome upload (IsUploadOf R.bytes R.name ticket.claimed))
        (drop (vec_len tickets.old - vec_len uploads) tickets.old.items) uploads.items }
    ensures settles { (settings : StoreSettings) →
        AreShardsOf settings (map (λ seat. whose seat.shard.memory) seats.old) → OnOk result
        ((settled : List Settled) × SettleEach (rules_for settings) settled
        (map (λ seat. shard_held seat.shard) seats.old) (map (λ seat. shard_held seat.shard) seats.new)
        × (map (λ s. s.chunk) settled ++ map (λ ticket. ticket.claimed) (reverse tickets.new.items) ≡ map (λ ticket. ticket.claimed) (reverse tickets.old.items))
        × (failed_among settled ≡ lost_in uploads.items) × (failed_among settled + stored_among settled ≡ vec_len uploads)) }
    ensures lent { All (λ ticket. IsLentBy (map (λ seat. seat.shard.memory.books.flight.name) seats.new) ticket.claimed ticket.share.book) tickets.new.items }
    ensures fly { OnOk result (All (λ ticket. FliesIn (map (λ seat. seat.shard.memory) seats.new) ticket.claimed) tickets.new.items) }
    ensures apart { AllPairs (λ one other. AreApart one.claimed other.claimed) tickets.new.items }
    ensures fewer { OnOk result (vec_len tickets.new + vec_len uploads ≡ vec_len tickets.old) }
    ensures same { map (λ seat. whose seat.shard.memory) seats.new ≡ map (λ seat. whose seat.shard.memory) seats.old }
{
    while let Some(upload) = uploads.pop() {
        let Some(ticket) = tickets.pop() else {
            unreachable!("there is a ticket for each upload");
        };
        settle_one(alloc, seats, ticket, upload)?;
    }
    Ok(())
}

/// Settles the chunk of a ticket by its upload. It fails only where memory runs out; then the chunk is given back.
fn settle_one<D: LogDisk + Drop, R: Receipt>(
    alloc: Global,
    seats: &mut [Seat<D, R>],
    ticket: Ticket,
    upload: Option<Flushed<R>>,
) -> Result<(), AllocError>
    requires there { ticket.claimed.shard < length seats.old }
    requires lent { IsLentBy (map (λ seat. seat.shard.memory.books.flight.name) seats.old) ticket.claimed ticket.share.book }
    requires flies { FliesIn (map (λ seat. seat.shard.memory) seats.old) ticket.claimed }
    requires of { IfSome upload (IsUploadOf R.bytes R.name ticket.claimed) }
    ensures settles { (settings : StoreSettings) →
        AreShardsOf settings (map (λ seat. whose seat.shard.memory) seats.old) → OnOk result
        (GoesAt (SettlesIn (rules_for settings) (settled_as ticket.claimed upload)) ticket.claimed.shard
        (map (λ seat. shard_held seat.shard) seats.old) (map (λ seat. shard_held seat.shard) seats.new)) }
    ensures others { OnOk result ((f : Flown) → AreApart f ticket.claimed →
        FliesIn (map (λ seat. seat.shard.memory) seats.old) f → FliesIn (map (λ seat. seat.shard.memory) seats.new) f) }
    ensures books { map (λ seat. seat.shard.memory.books.flight.name) seats.new ≡ map (λ seat. seat.shard.memory.books.flight.name) seats.old }
    ensures same { map (λ seat. whose seat.shard.memory) seats.new ≡ map (λ seat. whose seat.shard.memory) seats.old }
{
    let place = ticket.claimed().shard() as usize;
    seats[place].settle(alloc, ticket, upload)
}

/// Gives back the chunks of tickets. Takes no memory.
fn give_each_back<D: LogDisk + Drop, R: Receipt>(seats: &mut [Seat<D, R>], mut tickets: Vec<Ticket>)
    requires lent { All (λ ticket. IsLentBy (map (λ seat. seat.shard.memory.books.flight.name) seats.old) ticket.claimed ticket.share.book) tickets.items }
    ensures same { map (λ seat. whose seat.shard.memory) seats.new ≡ map (λ seat. whose seat.shard.memory) seats.old }
{
    while let Some(ticket) = tickets.pop() {
        give_one_back(seats, ticket);
    }
    tickets.destroy_empty();
}

/// Gives back the chunk of a ticket. Takes no memory.
fn give_one_back<D: LogDisk + Drop, R: Receipt>(seats: &mut [Seat<D, R>], ticket: Ticket)
    requires there { ticket.claimed.shard < length seats.old }
    requires lent { IsLentBy (map (λ seat. seat.shard.memory.books.flight.name) seats.old) ticket.claimed ticket.share.book }
    ensures books { map (λ seat. seat.shard.memory.books.flight.name) seats.new ≡ map (λ seat. seat.shard.memory.books.flight.name) seats.old }
    ensures same { map (λ seat. whose seat.shard.memory) seats.new ≡ map (λ seat. whose seat.shard.memory) seats.old }
{
    let place = ticket.claimed().shard() as usize;
    seats[place].give_back(ticket);
}
