//! The way to the shards.
ghost use Rattle.std.specs.Prelude.{◌≡◌, ◌+◌, ◌<◌, ℕ, IfOk, IfErr, IfSome, OnOk, OnErr};
ghost use Rattle.ing_shard.specs.Books.{BookNames};
ghost use Rattle.ing_shard.specs.Flights.{Flown, entries_in};
ghost use Rattle.ing_flush.specs.Unfinished.{GivesBack};

use ing_shard::{Finished, Op, Stray, Ticket};
use ing_tally::Share;
use std::alloc::{AllocError, Global};
use std::sync::Wait;

/// Why a chunk was not listed as stored. All that was handed over comes back. It cannot be dropped: a ticket may be in it.
pub enum Unfinished<U> {
    /// Memory ran out.
    NoMemory {
        /// The ticket.
        ticket: Ticket,
        /// What its upload gave.
        uploaded: U,
    },
    /// The chunk is not in flight in its shard.
    Stranger {
        /// The ticket.
        stray: Stray,
        /// What its upload gave.
        uploaded: U,
    },
}

/// The way to shards that are numbered from 0, each of which has its books; U is what an upload gives. A call may wait for
/// whoever has the shard.
pub trait Door<U> {
    /// How many shards there are.
    ghost shards: { ℕ };

    /// The books of each.
    ghost books: { ℕ → BookNames };

    /// What an upload of a claimed chunk has to give.
    ghost takes: { Flown → U → Type 0 };

    /// Claims the oldest chunk of the operation's stream that waits; `None` where none does. `AllocError` where memory runs
    /// out.
    fn claim<W: Wait>(&self, rt: &W, alloc: Global, op: Op) -> Result<Option<Ticket>, AllocError>
        requires { op.shard < shards }
        ensures shard { IfOk result (λ o. IfSome o (λ ticket. ticket.claimed.shard ≡ op.shard)) }
        // The ticket has a share of the entries in flight of that shard.
        ensures share { IfOk result (λ o. IfSome o (λ ticket.
            ticket.share.book ≡ (books op.shard).flight)) }
        ensures some { IfOk result (λ o. IfSome o (λ ticket. 0 < entries_in ticket.claimed)) };

    /// Lists the chunk of a ticket as stored, and raises a share of the stored entries of its shard by as many as it has. What is
    /// refused comes back: `Stranger` where the chunk is not in flight there, `NoMemory` where memory ran out.
    fn finish<W: Wait>(
        &self,
        rt: &W,
        ticket: Ticket,
        uploaded: U,
        tally: &mut Share,
    ) -> Result<Finished, Unfinished<U>>
        requires shard { ticket.claimed.shard < shards }
        requires uploaded { takes ticket.claimed uploaded }
        requires ticket { ticket.share.book ≡ (books ticket.claimed.shard).flight }
        requires own { tally.old.book ≡ (books ticket.claimed.shard).stored }
        ensures told { OnOk result
            (tally.new ≡ record tally.old { amount = tally.old.amount + entries_in ticket.claimed }) }
        ensures back { IfErr result (GivesBack ticket.claimed ticket.share uploaded) }
        ensures err { OnErr result (tally.new ≡ tally.old) };

    /// Lets the chunk of a ticket wait again. A `Stray` where it is not in flight in its shard. Takes no memory.
    fn give_back<W: Wait>(&self, rt: &W, ticket: Ticket) -> Result<(), Stray>
        requires shard { ticket.claimed.shard < shards }
        requires ticket { ticket.share.book ≡ (books ticket.claimed.shard).flight }
        ensures back { IfErr result (λ stray. (stray.claimed ≡ ticket.claimed)
            × (stray.share ≡ ticket.share)) };
}
