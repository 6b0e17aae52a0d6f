//! One flush.
ghost use Rattle.std.specs.Prelude.{◌≡◌, ◌<◌, IfErr, IfOk, OnErr, length};
ghost use Rattle.ing_shard.specs.Flushed.{Flushed as Uploaded};
ghost use Rattle.ing_shard.specs.Flights.{Flown, IsUploaded, entries_in};
ghost use Rattle.ing_flush.specs.Unfinished.{GivesBack};
ghost use Rattle.ing_flush.specs.Flushes.{IsCounted, IsFlushed, IsGivenBack, RisesBy};
ghost use Rattle.ing_flush.specs.Tallies.{AreStoredIn};

use crate::door::{Door, Unfinished};
use crate::flusher::Flusher;
use crate::gate::Gate;
use crate::tally::FlusherTally;
use ing_shard::{Flushed as Uploaded, Op, Stray, Ticket};
use ing_store::{Receipt, StoreEnd, StoreFault};
use std::alloc::Global;
use std::sync::Wait;

/// How a flush ended.
#[derive(Drop)]
pub enum Flushed {
    /// The chunk is stored: so many entries.
    Stored(u64),
    /// No chunk of the stream waited.
    Nothing,
    /// The chunk waits again, or its claim was refused: why.
    GaveBack(StoreFault),
    /// The chunk is not in flight in its shard any more.
    Strange(Stray),
}

/// Claims the oldest chunk of the operation's stream that waits, puts it and its index row into the store, and lists it as
/// stored: then the flusher's share of that shard rises by as many entries. After a fault of the store, or where memory runs
/// out, the chunk is given back. Each put passes the gate, with no shard held. (Own.)
pub fn flush_one<R, D, S, G, W>(
    rt: &W,
    alloc: Global,
    door: &D,
    flusher: &mut Flusher<S, G>,
    op: &Op,
) -> Flushed
where
    R: Receipt,
    D: Door<Uploaded<R>>,
    S: StoreEnd<Receipt = R>,
    G: Gate,
    W: Wait,
    // What an upload gives of a chunk can be listed through the door.
    requires takes { (f : Flown) (done : Uploaded R) →
        IsUploaded f done.listing (R.bytes done.row) (R.name done.row) → D.takes f done }
    requires shard { op.now.shard < D.shards }
    requires all { length flusher.old.tally ≡ D.shards }
    requires own { AreStoredIn D.books flusher.old.tally }
    ensures all { length flusher.new.tally ≡ D.shards }
    ensures own { AreStoredIn D.books flusher.new.tally }
    ensures flushed { IsFlushed result op.now.shard flusher.old.tally flusher.new.tally }
    // A fault of the store has a cause, and an end that never fails stays such an end.
    ensures count { IsCounted (S.failure_count flusher.old.end.end)
        (S.failure_count flusher.new.end.end) result }
    ensures sure { S.never_fails flusher.old.end.end → (S.never_fails flusher.new.end.end)
        × (S.failure_count flusher.new.end.end ≡ S.failure_count flusher.old.end.end) }
{
    let ticket = match door.claim(rt, alloc, *op) {
        Ok(Some(ticket)) => ticket,
        Ok(None) => return Flushed::Nothing,
        Err(_) => return Flushed::GaveBack(StoreFault::NoMemory),
    };
    let uploaded = match flusher.upload(alloc, &ticket, *op) {
        Ok(uploaded) => uploaded,
        Err(fault) => return give_back(rt, door, ticket, fault),
    };
    match finish(rt, door, ticket, uploaded, &mut flusher.tally) {
        Ok(entries) => Flushed::Stored(entries),
        Err(Unfinished::NoMemory { ticket, uploaded }) => {
            drop(uploaded);
            give_back(rt, door, ticket, StoreFault::NoMemory)
        }
        Err(Unfinished::Stranger { stray, uploaded }) => {
            drop(uploaded);
            Flushed::Strange(stray)
        }
    }
}

/// Lists the chunk of a ticket as stored, and says how many entries it has; the tally's share of its shard rises by them.
fn finish<U, D: Door<U>, W: Wait>(
    rt: &W,
    door: &D,
    ticket: Ticket,
    uploaded: U,
    tally: &mut FlusherTally,
) -> Result<u64, Unfinished<U>>
    requires shard { ticket.claimed.shard < D.shards }
    requires uploaded { D.takes ticket.claimed uploaded }
    requires ticket { ticket.share.book ≡ (D.books ticket.claimed.shard).flight }
    requires some { 0 < entries_in ticket.claimed }
    requires all { length tally.old ≡ D.shards }
    requires own { AreStoredIn D.books tally.old }
    ensures all { length tally.new ≡ D.shards }
    ensures own { AreStoredIn D.books tally.new }
    ensures stored { IfOk result (λ entries. RisesBy entries ticket.claimed.shard tally.old tally.new) }
    ensures back { IfErr result (GivesBack ticket.claimed ticket.share uploaded) }
    ensures err { OnErr result (tally.new ≡ tally.old) }
{
    let entries = ticket.claimed().chunk().count();
    let place = ticket.claimed().shard() as usize;
    door.finish(rt, ticket, uploaded, &mut tally.shares[place])?;
    Ok(entries)
}

/// Gives a ticket back, because of a fault.
fn give_back<U, D: Door<U>, W: Wait>(rt: &W, door: &D, ticket: Ticket, fault: StoreFault) -> Flushed
    requires shard { ticket.claimed.shard < D.shards }
    requires ticket { ticket.share.book ≡ (D.books ticket.claimed.shard).flight }
    ensures { IsGivenBack fault result }
{
    match door.give_back(rt, ticket) {
        Ok(()) => Flushed::GaveBack(fault),
        Err(stray) => Flushed::Strange(stray),
    }
}
