//! The locks are the way to the shards.
ghost use Rattle.std.specs.Prelude.{◌≡◌, ◌+◌, ◌<◌, IfOk, IfErr, IfSome, OnOk, OnErr};
ghost use Rattle.ing_begun.specs.Flights.{IsUploaded, entries_in};
ghost use Rattle.ing_flush.specs.Unfinished.{GivesBack};

use crate::ingester::Ingester;
use crate::names::NodeName;
use ing_begun::{FinishFault, Finished, Flushed, Op, Stranger, Stray, Ticket};
use ing_flush::{Door, Unfinished};
use ing_store::Receipt;
use ing_tally::Share;
use ing_wal::LogDisk;
use std::alloc::{AllocError, Global};
use std::sync::Wait;

impl<N: NodeName, D: LogDisk, R: Receipt> Door<Flushed<R>> for Ingester<N, D, R> {
    ghost shards = { N.settings.shards };

    ghost books = { N.books };

    ghost takes = { λ f done. IsUploaded f done.listing (R.bytes done.row) (R.name done.row) };

    fn claim<W: Wait>(&self, rt: &W, alloc: Global, op: Op) -> Result<Option<Ticket>, AllocError>
        requires { op.shard < N.settings.shards }
        ensures shard { IfOk result (λ o. IfSome o (λ ticket. ticket.claimed.shard ≡ op.shard)) }
        ensures share { IfOk result (λ o. IfSome o (λ ticket.
            ticket.share.book ≡ (N.books op.shard).flight)) }
        ensures some { IfOk result (λ o. IfSome o (λ ticket. 0 < entries_in ticket.claimed)) }
    {
        self.shards[op.shard as usize]
            .lock(rt)
            .claim(op.shard, alloc, op.stream)
    }

    fn finish<W: Wait>(
        &self,
        rt: &W,
        ticket: Ticket,
        uploaded: Flushed<R>,
        tally: &mut Share,
    ) -> Result<Finished, Unfinished<Flushed<R>>>
        requires shard { ticket.claimed.shard < N.settings.shards }
        requires uploaded { IsUploaded ticket.claimed uploaded.listing (R.bytes uploaded.row) (R.name uploaded.row) }
        requires ticket { ticket.share.book ≡ (N.books ticket.claimed.shard).flight }
        requires own { tally.old.book ≡ (N.books ticket.claimed.shard).stored }
        ensures told { OnOk result
            (tally.new ≡ record tally.old { amount = tally.old.amount + entries_in ticket.claimed }) }
        ensures back { IfErr result (GivesBack ticket.claimed ticket.share uploaded) }
        ensures err { OnErr result (tally.new ≡ tally.old) }
    {
        let place = ticket.claimed().shard() as usize;
        let finished = self.shards[place]
            .lock(rt)
            .finish(self.alloc, ticket, uploaded, tally);
        match finished {
            Ok(finished) => Ok(finished),
            Err(FinishFault::NoMemory { ticket, flushed }) => Err(Unfinished::NoMemory {
                ticket,
                uploaded: flushed,
            }),
            Err(FinishFault::Stranger(stranger)) => {
                let Stranger { stray, flushed } = stranger;
                Err(Unfinished::Stranger {
                    stray,
                    uploaded: flushed,
                })
            }
        }
    }

    fn give_back<W: Wait>(&self, rt: &W, ticket: Ticket) -> Result<(), Stray>
        requires shard { ticket.claimed.shard < N.settings.shards }
        requires ticket { ticket.share.book ≡ (N.books ticket.claimed.shard).flight }
        ensures back { IfErr result (λ stray. (stray.claimed ≡ ticket.claimed)
            × (stray.share ≡ ticket.share)) }
    {
        let place = ticket.claimed().shard() as usize;
        self.shards[place].lock(rt).give_back(ticket)
    }
}
