//! What is done in one shard over a store in memory.
use crate::flushes::stores_after;
use crate::owned::Owned;
use crate::queries::{fetches, shares_closed_blocks};
use crate::refused::goes_through;
use crate::settling::settles;
use crate::strangers::refuses_both;
use ing_store::{Fuse, MemoryReceipt, MemoryStore};
use std::alloc::Global;
use std::process::Abort;
use std::sync::Wait;
use std::test::Fail;

/// Blocks of two entries with lines of four bytes, chunks of four.
const SMALL: &str = "chunk_block_size = 40\nchunk_target_size = 80\n";

/// The same, and chunks are idle after 10 nanoseconds.
const SOON_IDLE: &str =
    "chunk_block_size = 40\nchunk_target_size = 80\nchunk_idle_period = \"10ns\"\n";

/// What is done there.
#[derive(Clone, Copy)]
pub(crate) enum Task {
    /// A chunk is stored after an upload that fails at this fuse.
    StoresAfter(Fuse),
    /// Stored chunks are fetched where they may matter.
    Fetches,
    /// Closed blocks are shared.
    SharesBlocks,
    /// Calls are refused memory.
    GoesThrough,
    /// Tickets of another shard are refused.
    RefusesTickets,
    /// What is noted is compared.
    Settles,
}

impl Task {
    /// The shard's tenant, settings and number.
    fn shard(self) -> (&'static str, &'static str, u32) {
        match self {
            Task::StoresAfter(_) | Task::Settles => ("t", "", 0),
            Task::Fetches | Task::SharesBlocks => ("t", SMALL, 0),
            Task::GoesThrough => ("t", SOON_IDLE, 0),
            Task::RefusesTickets => ("v", "shards = 2\n", 1),
        }
    }
}

fn done<'a, R: Wait + Abort>(
    rt: &'a R,
    alloc: Global,
    store: &'a MemoryStore,
    one: &mut Owned<MemoryReceipt<'a>>,
    task: Task,
) -> Result<(), Fail> {
    match task {
        Task::StoresAfter(fuse) => stores_after(rt, alloc, store, one, fuse),
        Task::Fetches => fetches(rt, alloc, one, store),
        Task::SharesBlocks => shares_closed_blocks(rt, alloc, one),
        Task::GoesThrough => goes_through(rt, alloc, store, one),
        Task::RefusesTickets => refuses_both(rt, alloc, store, one),
        Task::Settles => settles(rt, alloc, store, one),
    }
}

/// Does this in a shard and a store of its own. It alone owns them.
pub(crate) fn do_in_shard<R: Wait + Abort>(rt: &R, alloc: Global, task: Task) -> Result<(), Fail> {
    let store = MemoryStore::new(alloc)?;
    let (tenant, settings, number) = task.shard();
    let mut one = Owned::fresh(alloc, tenant, settings, number)?;
    let tried = done(rt, alloc, &store, &mut one, task);
    one.put_away();
    tried
}
