//! What is said of a stored chunk whose file is damaged.
use crate::flushes::CHUNK_NAME;
use crate::owned::Owned;
use crate::queries::{ALL, joined, lines};
use ing_codec::chunk_name;
use ing_labels::Selector;
use ing_parts::{Part, Snapshot};
use ing_store::{DigestReceipt, Receipt, StoreEnd};
use ing_world::{QueryFault, read_part};
use std::alloc::Global;
use std::process::Abort;
use std::test::Fail;
use test_files::{FilesEnd, Shelf};

/// Stores a chunk of two entries, and pushes one to another stream, which stays in memory.
fn store_one<R: Receipt, S: StoreEnd<Receipt = R>>(
    rt: &impl Abort,
    alloc: Global,
    one: &mut Owned<R>,
    end: &mut S,
) -> Result<(), Fail> {
    one.seal_one(alloc)?;
    one.store_next(rt, alloc, end, &mut 0)?;
    one.push(alloc, &[("a", "1"), ("b", "2")], &[(4, "memory")])??;
    Ok(())
}

/// The lines of one part that a snapshot shares.
fn part_line<S: StoreEnd>(
    alloc: Global,
    part: &Part<S::Receipt>,
    end: &mut S,
) -> Result<String, QueryFault> {
    let found = read_part(alloc, part, end)?;
    Ok(joined(alloc, &found)?)
}

/// The lines of each part that a snapshot shares, by their numbers.
fn part_lines<S: StoreEnd>(
    alloc: Global,
    snapshot: &Snapshot<'_, S::Receipt>,
    end: &mut S,
) -> Result<String, QueryFault> {
    let mut lines = String::new(alloc);
    for part in &snapshot.parts {
        lines.push_str(part_line(alloc, part, end)?.as_str())?;
    }
    Ok(lines)
}

/// The lines that are found part by part.
fn lines_by_part<R: Receipt, S: StoreEnd<Receipt = R>>(
    one: &Owned<R>,
    alloc: Global,
    selector: &Selector,
    end: &mut S,
) -> Result<String, QueryFault> {
    let snapshot = one.shard.snapshot(alloc, &one.tenant, selector, ALL)?;
    part_lines(alloc, &snapshot, end)
}

/// A query, and a read of each part, find these lines.
fn finds<R: Receipt, S: StoreEnd<Receipt = R>>(
    rt: &impl Abort,
    alloc: Global,
    one: &Owned<R>,
    selector: &Selector,
    end: &mut S,
) -> Result<(), Fail> {
    let found = lines(one, alloc, selector, ALL, end)?;
    assert!(rt; found.as_str() == "yzmemoryx");
    let by_part = lines_by_part(one, alloc, selector, end)?;
    assert!(rt; by_part.as_str() == "xyz");
    Ok(())
}

/// The answer is a fault that names the chunk.
fn names_chunk(
    rt: &impl Abort,
    alloc: Global,
    answer: Result<String, QueryFault>,
) -> Result<(), Fail> {
    let Err(QueryFault::StoreFault { key }) = answer else {
        return Err("a fault of the store".into());
    };
    let name = chunk_name(alloc, &key)?;
    assert!(rt; name.as_str() == CHUNK_NAME);
    Ok(())
}

/// Both are refused with the chunk's key, and nothing of what stands in memory is given in its place.
fn are_refused<R: Receipt, S: StoreEnd<Receipt = R>>(
    rt: &impl Abort,
    alloc: Global,
    one: &Owned<R>,
    selector: &Selector,
    end: &mut S,
) -> Result<(), Fail> {
    names_chunk(rt, alloc, lines(one, alloc, selector, ALL, end))?;
    names_chunk(rt, alloc, lines_by_part(one, alloc, selector, end))?;
    assert!(rt; end.failures() == 2);
    Ok(())
}

fn tells_damage(
    rt: &impl Abort,
    alloc: Global,
    one: &mut Owned<DigestReceipt>,
) -> Result<(), Fail> {
    let all = Selector::parse(alloc, "{a=\"1\"}")?;
    let mut end = FilesEnd::of(Shelf::new(alloc));
    store_one(rt, alloc, one, &mut end)?;
    finds(rt, alloc, one, &all, &mut end)?;
    end.files.damage();
    are_refused(rt, alloc, one, &all, &mut end)
}

#[test]
fn a_damaged_chunk_is_told(rt: HostRuntime) -> Result<(), Fail> {
    let mut one = Owned::fresh(rt.alloc(), "t", "", 0)?;
    let told = tells_damage(&rt, rt.alloc(), &mut one);
    one.put_away();
    told
}
