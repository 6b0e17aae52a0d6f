//! A ticket that is open, and which of its objects are stored.
ghost use Rattle.std.specs.Prelude.{◌≡◌, ◌&&◌, IfErr, OnOk, OnErr, false, true};
ghost use Rattle.sha2.specs.Sha256.{sha256};
ghost use Rattle.ing_codec.specs.ChunkObjects.{chunk_text};
ghost use Rattle.ing_limits.specs.Ranges.{rules_for};
ghost use Rattle.ing_rows.specs.Events as events;
ghost use Rattle.ing_rows.specs.Events.{Finish, GiveBack, GivenBack, Step};
ghost use Rattle.ing_shard.specs.Contents.{IsSameShard};
ghost use Rattle.ing_shard.specs.Flights.{IsInFlight, OtherFlightsStay, key_in, object_in};
ghost use Rattle.ing_store.specs.StoreFaults.{IsCounted};
ghost use Rattle.ing_world.specs.Worlds.{opened, with_object};

use crate::event::Object;
use ing_parts::Listing;
use ing_shard::{FinishFault, Flushed, Shard, Stray, Ticket};
use ing_store::{Receipt, StoreEnd, StoreFault};
use ing_tally::Share;
use std::alloc::Global;
use std::marker::Model;

/// An open ticket with the receipts of its puts. Contracts see its chunk, and which receipts it has. It cannot be dropped.
pub struct OpenTicket<R: Receipt> {
    ticket: Ticket,
    listing: Option<Listing<R>>,
    row: Option<R>,
}

impl<R: Receipt> Model for OpenTicket<R> {
    ghost use Rattle.ing_world.specs.Worlds.{OpenState};

    ghost Value = { OpenState };

    ghost use Rattle.std.specs.Coded.{codes};
    ghost use Rattle.ing_world.specs.Coded.{open_code};

    ghost coded = { open_code (Prim.hlevel (codes)) (Prim.hlevel (codes)) };

    ghost use Rattle.std.specs.Prelude.{is_some};

    ghost view = { λ o. record {
      flown = o.ticket.claimed;
      book = o.ticket.share.book;
      has_chunk = is_some o.listing;
      has_row = is_some o.row;
    } };

    ghost use Rattle.ing_world.specs.Receipts.{AreReceipts};

    ghost invariant = { λ o. AreReceipts R.bytes R.name o.ticket.claimed o.listing o.row };
}

impl<R: Receipt> OpenTicket<R> {
    /// A ticket without receipts.
    pub fn new(ticket: Ticket) -> OpenTicket<R>
        ensures { result ≡ opened ticket.claimed ticket.share.book }
    {
        OpenTicket {
            ticket,
            listing: None,
            row: None,
        }
    }

    /// Whether it has both receipts.
    pub fn is_ready(&self) -> bool
        ensures { result ≡ (self.now.has_chunk && self.now.has_row) }
    {
        self.listing.is_some() && self.row.is_some()
    }

    /// Puts one of its objects into a store, and keeps the receipt.
    pub fn put<S: StoreEnd<Receipt = R>>(
        &mut self,
        alloc: Global,
        end: &mut S,
        object: Object,
    ) -> Result<(), StoreFault>
        ensures kept { OnOk result (self.new ≡ with_object object self.old) }
        ensures err { OnErr result (self.new ≡ self.old) }
    {
        match object {
            Object::Chunk => self.listing = Some(self.ticket.upload_chunk(alloc, end)?),
            Object::Row => self.row = Some(self.ticket.upload_row(alloc, end)?),
        }
        Ok(())
    }

    /// Puts one of its objects into a store whose put fails, whether it stores the object or not.
    pub fn put_in_vain<S: StoreEnd<Receipt = R>>(
        &self,
        alloc: Global,
        end: &mut S,
        object: Object,
    ) {
        match object {
            Object::Chunk => {
                let _ = self.ticket.upload_chunk(alloc, end);
            }
            Object::Row => {
                let _ = self.ticket.upload_row(alloc, end);
            }
        }
    }

    /// Lists its chunk, which is in flight, as stored, and raises a share of the stored entries. Comes back where memory runs out.
    pub fn finish(self, shard: &mut Shard<R>, tally: &mut Share) -> Result<(), OpenTicket<R>>
        requires ready { (self.has_chunk && self.has_row) ≡ true }
        requires flies { IsInFlight self.flown shard.old }
        requires lent { self.book ≡ shard.old.books.flight.name }
        requires tally { tally.old.book ≡ shard.old.books.stored.name }
        ensures tally { tally.new.book ≡ tally.old.book }
        ensures step { let f = self.flown in
            OnOk result (Step (rules_for shard.old.settings) shard.old.state
            (Finish (key_in f) f.chunk.first f.flight (sha256 (chunk_text (object_in f))))
            events.Finished shard.new.state) }
        ensures others { OnOk result (OtherFlightsStay self.flown.flight shard.old shard.new) }
        ensures same { IsSameShard shard.old shard.new }
        ensures listed { shard.new.listed ≡ shard.old.listed }
        ensures back { IfErr result (λ back. back ≡ self) }
        ensures err { OnErr result (shard.new ≡ shard.old) }
    {
        let OpenTicket {
            ticket,
            listing,
            row,
        } = self;
        let (Some(listing), Some(row)) = (listing, row) else {
            unreachable!("it has both receipts");
        };
        match shard.finish(ticket, Flushed { listing, row }, tally) {
            Ok(_) => Ok(()),
            Err(FinishFault::NoMemory { ticket, flushed }) => Err(OpenTicket {
                ticket,
                listing: Some(flushed.listing),
                row: Some(flushed.row),
            }),
            Err(FinishFault::Stranger(_)) => {
                unreachable!("the chunk of an open ticket is in flight")
            }
        }
    }

    /// Puts its chunk back, where it is in flight.
    pub fn give_back(self, shard: &mut Shard<R>) -> Result<(), Stray>
        requires { self.book ≡ shard.old.books.flight.name }
        ensures step { OnOk result (Step (rules_for shard.old.settings) shard.old.state
            (GiveBack self.flown.flight) GivenBack shard.new.state) }
        ensures others { OnOk result (OtherFlightsStay self.flown.flight shard.old shard.new) }
        ensures stray { OnErr result (IsInFlight self.flown shard.old → ⊥) }
        ensures same { IsSameShard shard.old shard.new }
        ensures listed { shard.new.listed ≡ shard.old.listed }
    {
        let OpenTicket {
            ticket,
            listing: _,
            row: _,
        } = self;
        shard.give_back(ticket)
    }
}
