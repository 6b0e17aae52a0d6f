//! Tickets that are handed to another shard than their own.
ghost use Rattle.std.specs.Prelude.{◌≡◌, ◌≢◌};
ghost use Rattle.ing_shard.specs.Flights.{IsUploaded};

use crate::flushes::{CHUNK_NAME, ROW_NAME};
use crate::owned::{Owned, upload};
use crate::tasks::{Task, do_in_shard};
use ing_shard::{FinishFault, Flushed, Stranger, Stray, Ticket};
use ing_store::{Fuse, MemoryReceipt, MemoryStore, Receipt, StoreEnd};
use std::alloc::{AllocError, Global};
use std::process::Abort;
use std::sync::Wait;
use std::test::Fail;

/// A ticket for a chunk of tenant `t` is a stray in a shard of another number where the same chunk of tenant `v` is in flight,
/// under the same number and at the same place.
#[test]
fn a_ticket_is_strange_to_another_shard(rt: HostRuntime) -> Result<(), Fail> {
    do_in_shard(&rt, rt.alloc(), Task::RefusesTickets)
}

/// The other shard, with a chunk in flight, refuses tickets of a shard of tenant `t`, given back and finished, and then has its own
/// back.
pub(crate) fn refuses_both<'a, R: Wait + Abort>(
    rt: &'a R,
    alloc: Global,
    store: &'a MemoryStore,
    other: &mut Owned<MemoryReceipt<'a>>,
) -> Result<(), Fail> {
    other.seal_one(alloc)?;
    let own = other.claim(rt, alloc)?;
    let refused = are_strange_to(rt, alloc, store, other);
    let flew = other.lands(own);
    assert!(rt; refused? && flew);
    Ok(())
}

fn are_strange_to<'a, R: Wait + Abort>(
    rt: &'a R,
    alloc: Global,
    store: &'a MemoryStore,
    other: &mut Owned<MemoryReceipt<'a>>,
) -> Result<bool, Fail>
    ensures { other.new.shard.books.flight.name ≡ other.old.shard.books.flight.name }
{
    if !is_strange_to(rt, alloc, store, other, false)? {
        return Ok(false);
    }
    is_strange_to(rt, alloc, store, other, true)
}

/// Whether the other shard refuses a ticket of a shard of tenant `t`, finished there or given back.
fn is_strange_to<'a, R: Wait + Abort>(
    rt: &'a R,
    alloc: Global,
    store: &'a MemoryStore,
    other: &mut Owned<MemoryReceipt<'a>>,
    is_finished: bool,
) -> Result<bool, Fail>
    ensures { other.new.shard.books.flight.name ≡ other.old.shard.books.flight.name }
{
    let mut one = Owned::fresh(alloc, "t", "", 0)?;
    let strange = is_refused(rt, alloc, store, &mut one, other, is_finished);
    one.put_away();
    strange
}

/// The same of a ticket of this shard; both shards keep what they have.
fn is_refused<'a, R: Wait + Abort>(
    rt: &'a R,
    alloc: Global,
    store: &'a MemoryStore,
    one: &mut Owned<MemoryReceipt<'a>>,
    other: &mut Owned<MemoryReceipt<'a>>,
    is_finished: bool,
) -> Result<bool, Fail>
    ensures { other.new.shard.books.flight.name ≡ other.old.shard.books.flight.name }
{
    one.seal_one(alloc)?;
    let ticket = one.claim(rt, alloc)?;
    let before = (one.counts(), other.counts());
    let named = comes_back(rt, alloc, store, one, other, ticket, is_finished)?;
    Ok(named && (one.counts(), other.counts()) == before)
}

/// Whether what comes back from the other shard is the ticket of this one, with what was uploaded where it is finished.
fn comes_back<'a, R: Wait>(
    rt: &'a R,
    alloc: Global,
    store: &'a MemoryStore,
    one: &mut Owned<MemoryReceipt<'a>>,
    other: &mut Owned<MemoryReceipt<'a>>,
    ticket: Ticket,
    is_finished: bool,
) -> Result<bool, Fail>
    requires { ticket.share.book ≡ one.old.shard.books.flight.name }
    ensures { other.new.shard.books.flight.name ≡ other.old.shard.books.flight.name }
{
    if is_finished {
        let mut end = store.end(rt, Fuse::None);
        match stranger_to(alloc, &mut end, one, other, ticket)? {
            Some(stranger) => Ok(is_uploaded(&stranger)),
            None => Ok(false),
        }
    } else {
        match stray_to(one, other, ticket)? {
            Some(stray) => Ok(is_claimed(&stray)),
            None => Ok(false),
        }
    }
}

fn is_claimed(stray: &Stray) -> bool {
    stray.claimed.tenant().as_str() == "t" && stray.claimed.chunk().first() == 0
}

fn is_uploaded(stranger: &Stranger<MemoryReceipt<'_>>) -> bool {
    stranger.flushed.row.object.name() == ROW_NAME
        && stranger.flushed.listing.receipt().object.name() == CHUNK_NAME
}

/// Gives a ticket back to another shard than its own.
fn stray_to<R: Receipt>(
    one: &mut Owned<R>,
    other: &mut Owned<R>,
    ticket: Ticket,
) -> Result<Option<Stray>, Fail>
    requires { ticket.share.book ≡ one.old.shard.books.flight.name }
    ensures { other.new.shard.books.flight.name ≡ other.old.shard.books.flight.name }
{
    if ticket.claimed().shard() == other.shard.number() {
        one.give_back(ticket)?;
        return Ok(None);
    }
    Ok(other.shard.give_back(ticket).err())
}

/// Uploads the chunk of a ticket, and finishes it in another shard than its own.
fn stranger_to<R: Receipt, S: StoreEnd<Receipt = R>>(
    alloc: Global,
    end: &mut S,
    one: &mut Owned<R>,
    other: &mut Owned<R>,
    ticket: Ticket,
) -> Result<Option<Stranger<R>>, Fail>
    requires { ticket.share.book ≡ one.old.shard.books.flight.name }
    ensures { other.new.shard.books.flight.name ≡ other.old.shard.books.flight.name }
{
    if ticket.claimed().shard() == other.shard.number() {
        one.give_back(ticket)?;
        return Ok(None);
    }
    match upload(alloc, end, &ticket, &mut 0) {
        Ok(flushed) => finished_in(one, other, ticket, flushed),
        Err(fault) => {
            one.give_back(ticket)?;
            Err(fault.into())
        }
    }
}

/// Finishes a ticket in another shard than its own.
fn finished_in<R: Receipt>(
    one: &mut Owned<R>,
    other: &mut Owned<R>,
    ticket: Ticket,
    flushed: Flushed<R>,
) -> Result<Option<Stranger<R>>, Fail>
    requires lent { ticket.share.book ≡ one.old.shard.books.flight.name }
    requires strange { ticket.claimed.shard ≢ other.old.shard.number }
    requires uploaded { IsUploaded ticket.claimed flushed.listing (R.bytes flushed.row) (R.name flushed.row) }
    ensures { other.new.shard.books.flight.name ≡ other.old.shard.books.flight.name }
{
    match other.shard.finish(ticket, flushed, &mut one.tally) {
        Ok(_) => Ok(None),
        Err(FinishFault::NoMemory { ticket, flushed }) => {
            drop(flushed);
            one.give_back(ticket)?;
            Err(AllocError.into())
        }
        Err(FinishFault::Stranger(stranger)) => Ok(Some(stranger)),
    }
}
