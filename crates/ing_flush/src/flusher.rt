//! Who flushes.
ghost use Rattle.std.specs.Prelude.{◌≡◌, IfOk};
ghost use Rattle.ing_store.specs.StoreFaults.{IsCounted};
ghost use Rattle.ing_shard.specs.Flights.{IsUploaded};

use crate::gate::{Gate, GatedEnd};
use crate::tally::FlusherTally;
use ing_shard::{Flushed, Op, StreamNo, Ticket};
use ing_store::{StoreEnd, StoreFault};
use std::alloc::Global;

/// One worker that flushes: an end of the store, a gate before each put, and a share of the stored entries of each shard. It
/// cannot be dropped.
pub struct Flusher<S: StoreEnd, G: Gate> {
    pub(crate) end: GatedEnd<S, G>,
    pub(crate) tally: FlusherTally,
}

impl<S: StoreEnd, G: Gate> Flusher<S, G> {
    /// The flusher of this end and this gate, which counts in this tally.
    pub fn new(end: S, gate: G, tally: FlusherTally) -> Flusher<S, G>
        ensures end { result.end.end ≡ end }
        ensures gate { result.end.gate ≡ gate }
        ensures tally { result.tally ≡ tally }
    {
        let op = Op {
            shard: 0,
            stream: StreamNo::new(0),
        };
        Flusher {
            end: GatedEnd { end, gate, op },
            tally,
        }
    }

    /// Uploads the chunk of a ticket, as `Ticket::upload`, for this operation: each put passes the gate.
    pub(crate) fn upload(
        &mut self,
        alloc: Global,
        ticket: &Ticket,
        op: Op,
    ) -> Result<Flushed<S::Receipt>, StoreFault>
        ensures uploaded { IfOk result (λ done. IsUploaded ticket.now.claimed done.listing
            (S.Receipt.bytes done.row) (S.Receipt.name done.row)) }
        ensures tally { self.new.tally ≡ self.old.tally }
        ensures count { IsCounted (S.failure_count self.old.end.end)
            (S.failure_count self.new.end.end) result }
        ensures sure { S.never_fails self.old.end.end → (S.never_fails self.new.end.end)
            × (S.failure_count self.new.end.end ≡ S.failure_count self.old.end.end) }
    {
        let GatedEnd { op: of, .. } = &mut self.end;
        *of = op;
        ticket.upload(alloc, &mut self.end)
    }

    /// Its end, its gate and its tally.
    pub fn into_parts(self) -> (S, G, FlusherTally)
        ensures { result ≡ (self.end.end, self.end.gate, self.tally) }
    {
        let Flusher { end, tally } = self;
        let GatedEnd { end, gate, op: _ } = end;
        (end, gate, tally)
    }
}

impl<S: StoreEnd + Drop, G: Gate + Drop> Flusher<S, G> {
    /// Its tally. The end and the gate are let go.
    pub fn into_tally(self) -> FlusherTally
        ensures { result ≡ self.tally }
    {
        let (_, _, tally) = self.into_parts();
        tally
    }
}
