//! Claimed chunks, and the tickets for them.
ghost use Rattle.std.specs.Prelude.{◌≡◌, ◌<◌, ◌^◌, IfOk, length};
ghost use Rattle.ing_chunk.specs.Chunks.{IsWhole};
ghost use Rattle.ing_labels.specs.Canonical.{canonical_of};
ghost use Rattle.ing_refusals.specs.declared.refusal.Refusal.TheVariants as refusal;
ghost use Rattle.ing_store.specs.StoreFaults.{IsCounted};
ghost use Rattle.ing_shard.specs.Flights.{IsChunkUploaded, IsRowUploaded, IsUploaded, entries_in};

use ing_checkpoint::{Flushed, upload, upload_chunk, upload_row};
use ing_chunk::Chunk;
use ing_labels::Labels;
use ing_parts::Listing;
use ing_refusals::Refusal;
use ing_rows::Tenant;
use ing_store::{Receipt, StoreEnd, StoreFault};
use ing_tally::{Share, Stranded};
use std::alloc::Global;
use std::marker::Model;
use std::sync::Arc;

/// A sealed chunk that was claimed: its shard, the number of its flight, and whose stream it is of. The chunk is the one that
/// the shard has, not a copy.
#[derive(Drop)]
pub struct ClaimedChunk {
    pub(crate) shard: u32,
    pub(crate) flight: u64,
    /// Where the claim left it among the sealed chunks of its stream: there it is looked for first.
    pub(crate) left: usize,
    pub(crate) tenant: Tenant,
    pub(crate) labels: Labels,
    pub(crate) chunk: Arc<Chunk>,
}

impl Model for ClaimedChunk {
    ghost use Rattle.ing_shard.specs.Flights.{Flown};

    ghost Value = { Flown };

    ghost use Rattle.std.specs.Coded.{codes};
    ghost use Rattle.ing_shard.specs.Coded.{flown_code};

    ghost coded = { flown_code (Prim.hlevel (codes)) };

    ghost view = { λ claimed. record {
      shard = claimed.shard;
      flight = claimed.flight;
      tenant = claimed.tenant;
      labels = claimed.labels;
      chunk = claimed.chunk.value;
    } };

    ghost use Rattle.ing_chunk.specs.Chunks.{IsWhole};

    ghost invariant = { λ claimed. IsWhole claimed.chunk.value };
}

impl ClaimedChunk {
    /// The number of its shard.
    pub fn shard(&self) -> u32
        ensures { result ≡ self.now.shard }
    {
        self.shard
    }

    /// Whose stream it is of.
    pub fn tenant(&self) -> &Tenant
        ensures { result.now ≡ self.now.tenant }
    {
        &self.tenant
    }

    /// The labels of its stream.
    pub fn labels(&self) -> &Labels
        ensures { result.now ≡ self.now.labels }
    {
        &self.labels
    }

    /// The chunk, with all its entries.
    pub fn chunk(&self) -> &Chunk
        ensures value { result.now ≡ self.now.chunk }
        ensures whole { IsWhole result.now }
    {
        &self.chunk
    }

    /// As `Ticket::upload`: threads can share the claimed chunk, while a ticket is one thread's. Its stream's canonical name has
    /// fewer than 2^32 bytes, as that of each ticket.
    pub fn upload<S: StoreEnd>(
        &self,
        alloc: Global,
        end: &mut S,
    ) -> Result<Flushed<S::Receipt>, StoreFault>
        requires { length (canonical_of self.now.labels) < 2 ^ 32 }
        ensures uploaded { IfOk result (λ done. IsUploaded self.now done.listing
            (S.Receipt.bytes done.row) (S.Receipt.name done.row)) }
        ensures count { IsCounted (S.failure_count end.old) (S.failure_count end.new) result }
        ensures sure { S.never_fails end.old → (S.never_fails end.new)
            × (S.failure_count end.new ≡ S.failure_count end.old) }
    {
        upload(alloc, end, &self.tenant, &self.labels, &self.chunk)
    }
}

/// The right to say what became of a claimed chunk: it is stored, or it is given back. It cannot be dropped, since it holds a
/// share of the entries in flight, of as many as the chunk has. The canonical name of the chunk's stream has fewer than 2^32
/// bytes, so that the chunk and its index row can be written.
pub struct Ticket {
    pub(crate) claimed: ClaimedChunk,
    pub(crate) share: Share,
    ghost short: { length (canonical_of claimed.labels) < 2 ^ 32 },
    ghost counted: { share.amount ≡ entries_in claimed },
}

/// What may be dropped, and a ticket beside it. The two impls would overlap if a ticket could be dropped, which the check
/// refuses: so it notices where `Ticket` comes to derive `Drop`.
trait IsDroppedOrSpent {}

impl<T: Drop> IsDroppedOrSpent for T {}

impl IsDroppedOrSpent for Ticket {}

/// A ticket for a chunk that is not in flight in the shard that it was handed to. Its share counts as out for ever.
#[derive(Drop)]
pub struct Stray {
    /// The chunk of the ticket.
    pub claimed: ClaimedChunk,
    /// Its share.
    pub(crate) share: Stranded,
}

impl Stray {
    /// Which refusal it is. Takes no memory.
    pub fn refusal(&self) -> Refusal
        ensures { result ≡ refusal.Stranger }
    {
        Refusal::Stranger
    }
}

/// A ticket for a chunk that is not in flight in the shard that it was handed to, with what was uploaded of the chunk.
#[derive(Drop)]
pub struct Stranger<R: Receipt> {
    /// The ticket.
    pub stray: Stray,
    /// The listing and the receipt of the index row.
    pub flushed: Flushed<R>,
}

/// What listing a chunk as stored left.
#[derive(Clone, Copy, Debug, PartialEq, Eq)]
pub struct Finished {
    /// Whether the listing outlives a crash: never of a shard without a log.
    pub durable: bool,
}

impl Ticket {
    /// The chunk that it is for.
    pub fn claimed(&self) -> &ClaimedChunk
        ensures { result.now ≡ self.now.claimed }
    {
        &self.claimed
    }

    /// Puts the whole chunk into a store, and then its index row, and gives what the shard lists of it and the receipt of
    /// the row. `NoMemory` where memory ran out, and any other fault only where the end has failed; a fault leaves open what of
    /// both is stored. (Own.)
    pub fn upload<S: StoreEnd>(
        &self,
        alloc: Global,
        end: &mut S,
    ) -> Result<Flushed<S::Receipt>, StoreFault>
        ensures uploaded { IfOk result (λ done. IsUploaded self.now.claimed done.listing
            (S.Receipt.bytes done.row) (S.Receipt.name done.row)) }
        ensures count { IsCounted (S.failure_count end.old) (S.failure_count end.new) result }
        ensures sure { S.never_fails end.old → (S.never_fails end.new)
            × (S.failure_count end.new ≡ S.failure_count end.old) }
    {
        self.claimed.upload(alloc, end)
    }

    /// Puts the whole chunk into a store, without its index row, and gives what the shard lists of it. `NoMemory` where memory
    /// ran out, and any other fault only where the end has failed; a fault leaves open whether the chunk is stored. (Own.)
    pub fn upload_chunk<S: StoreEnd>(
        &self,
        alloc: Global,
        end: &mut S,
    ) -> Result<Listing<S::Receipt>, StoreFault>
        ensures uploaded { IfOk result (λ listing. IsChunkUploaded self.now.claimed listing) }
        ensures count { IsCounted (S.failure_count end.old) (S.failure_count end.new) result }
        ensures sure { S.never_fails end.old → (S.never_fails end.new)
            × (S.failure_count end.new ≡ S.failure_count end.old) }
    {
        let claimed = &self.claimed;
        upload_chunk(alloc, end, &claimed.tenant, &claimed.labels, &claimed.chunk)
    }

    /// Puts the index row of the chunk into a store, whether the chunk stands there or not, and gives the receipt of the
    /// row. The chunk is written out for its key. `NoMemory` where memory ran out, and any other fault only where the end has
    /// failed; a fault leaves open whether the row is stored. (Own.)
    pub fn upload_row<S: StoreEnd>(
        &self,
        alloc: Global,
        end: &mut S,
    ) -> Result<S::Receipt, StoreFault>
        ensures uploaded { IfOk result (λ row. IsRowUploaded self.now.claimed
            (S.Receipt.bytes row) (S.Receipt.name row)) }
        ensures count { IsCounted (S.failure_count end.old) (S.failure_count end.new) result }
        ensures sure { S.never_fails end.old → (S.never_fails end.new)
            × (S.failure_count end.new ≡ S.failure_count end.old) }
    {
        let claimed = &self.claimed;
        upload_row(alloc, end, &claimed.tenant, &claimed.labels, &claimed.chunk)
    }
}

/// Why a chunk was not listed as stored. All that was handed over comes back. It cannot be dropped: a ticket may be in it.
pub enum FinishFault<R: Receipt> {
    /// Memory ran out.
    NoMemory {
        /// The ticket.
        ticket: Ticket,
        /// The listing and the receipt of the index row.
        flushed: Flushed<R>,
    },
    /// The chunk is not in flight in the shard.
    Stranger(Stranger<R>),
}

impl<R: Receipt> FinishFault<R> {
    ghost use Rattle.std.specs.Prelude.{◌≡◌};
    ghost use Rattle.ing_shard.specs.FinishFaults.{finish_refusal_of};

    /// Which refusal it is. Takes no memory.
    pub fn refusal(&self) -> Refusal
        ensures { result ≡ finish_refusal_of self.now }
    {
        match self {
            FinishFault::NoMemory { .. } => Refusal::NoMemory,
            FinishFault::Stranger(_) => Refusal::Stranger,
        }
    }
}
