//! Chunks of a shard on their way into a store in memory. One allocation at most is refused in a run of these tests: what was
//! refused has changed nothing, and the same call then succeeds.
use crate::owned::Owned;
use crate::tasks::{Task, do_in_shard};
use ing_store::{Fuse, MemoryReceipt, MemoryStore, StoreEnd, StoreFault};
use std::alloc::Global;
use std::process::Abort;
use std::sync::Wait;
use std::test::Fail;

/// The name of the chunk of tenant `t` with labels `{a="1"}`: number 1 at stamp 3 with `yz` and number 0 at stamp 5 with `x`,
/// in one block.
pub(crate) const CHUNK_NAME: &str =
    "c-da6461fbb296c0e60293e1886b7e49407d464aa75ee4518b0a3c65b0636add9f";

/// The name of its row.
pub(crate) const ROW_NAME: &str =
    "r-23908dbe68dd19f9-da6461fbb296c0e60293e1886b7e49407d464aa75ee4518b0a3c65b0636add9f";

/// How many of the chunk and its row are found; the row is not there without the chunk.
fn standing<R: Wait + Abort>(rt: &R, alloc: Global, store: &MemoryStore) -> Result<usize, Fail> {
    let mut end = store.end(rt, Fuse::None);
    let chunk = end.find(alloc, CHUNK_NAME)?.is_some();
    let row = end.find(alloc, ROW_NAME)?.is_some();
    assert!(rt; chunk || !row);
    Ok(usize::from(chunk) + usize::from(row))
}

/// The end with this fuse fails at the upload of the chunk, which then waits as before.
fn fails_first<'a, R: Wait + Abort>(
    rt: &'a R,
    alloc: Global,
    store: &'a MemoryStore,
    one: &mut Owned<MemoryReceipt<'a>>,
    fuse: Fuse,
) -> Result<(), Fail> {
    let waiting = one.counts();
    let fault = one.upload_fault(rt, alloc, &mut store.end(rt, fuse))?;
    assert!(rt; fault == Some(StoreFault::Failed));
    assert!(rt; one.counts() == waiting);
    Ok(())
}

/// By an end that does not fail the chunk is then stored once: how often memory was refused, and what is left of such writes.
fn store_then<'a, R: Wait + Abort>(
    rt: &'a R,
    alloc: Global,
    store: &'a MemoryStore,
    one: &mut Owned<MemoryReceipt<'a>>,
) -> Result<usize, Fail> {
    let mut refused = store.written().saturating_sub(standing(rt, alloc, store)?);
    one.store_next(rt, alloc, &mut store.end(rt, Fuse::None), &mut refused)?;
    Ok(refused)
}

/// A chunk whose upload fails at this fuse is stored at the next try, and only what does not stand yet is written.
pub(crate) fn stores_after<'a, R: Wait + Abort>(
    rt: &'a R,
    alloc: Global,
    store: &'a MemoryStore,
    one: &mut Owned<MemoryReceipt<'a>>,
    fuse: Fuse,
) -> Result<(), Fail> {
    one.seal_one(alloc)?;
    fails_first(rt, alloc, store, one, fuse)?;
    let refused = store_then(rt, alloc, store, one)?;
    assert!(rt; one.shard.totals() == (2, 2));
    assert!(rt; standing(rt, alloc, store)? == 2);
    let written = store.written();
    assert!(rt; 2 <= written && written <= refused.saturating_add(2));
    Ok(())
}

#[test]
fn a_chunk_is_stored_once_after_a_failed_put(rt: HostRuntime) -> Result<(), Fail> {
    for fuse in [
        Fuse::Failed(0),
        Fuse::Failed(1),
        Fuse::StoredYetFailed(0),
        Fuse::StoredYetFailed(1),
        Fuse::FailedFrom(0),
        Fuse::FailedFrom(1),
    ] {
        do_in_shard(&rt, rt.alloc(), Task::StoresAfter(fuse))?;
    }
    Ok(())
}
