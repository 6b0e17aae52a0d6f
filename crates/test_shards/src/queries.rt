//! What queries find of a shard and a store in memory, where no contract says it: what a snapshot shares, and which stored chunks
//! are fetched.
use crate::owned::Owned;
use crate::tasks::{Task, do_in_shard};
use ing_labels::Selector;
use ing_parts::{Found, Question, Snapshot};
use ing_rows::{Cursor, Order};
use ing_store::{Fuse, MemoryReceipt, MemoryStore, Receipt, StoreEnd};
use ing_world::{QueryFault, run_query};
use std::alloc::{AllocError, Global};
use std::process::Abort;
use std::sync::Wait;
use std::test::Fail;

/// All entries of the streams with label `a`, the oldest first.
pub(crate) const ALL: Question<'static> = Question {
    start: 0,
    end: 0x8000_0000_0000_0000,
    order: Order::Forward,
    limit: 100,
    after: None,
};

/// Pushes lines of four bytes at these times to the stream `{a="1"}`, one at a time.
fn push_each<R: Receipt>(
    one: &mut Owned<R>,
    alloc: Global,
    lines: &[(u64, &str)],
) -> Result<(), Fail> {
    for line in lines {
        one.push(alloc, &[("a", "1")], &[*line])??;
    }
    Ok(())
}

/// The one snapshot that a question is answered from.
pub(crate) fn snapshots<R: Receipt>(
    one: &Owned<R>,
    alloc: Global,
    selector: &Selector,
    question: Question<'static>,
) -> Result<Vec<Snapshot<'static, R>>, AllocError> {
    let mut snapshots = Vec::new(alloc);
    snapshots.push(one.shard.snapshot(alloc, &one.tenant, selector, question)?)?;
    Ok(snapshots)
}

/// What is found.
pub(crate) fn found<R: Receipt, S: StoreEnd<Receipt = R>>(
    one: &Owned<R>,
    alloc: Global,
    selector: &Selector,
    question: Question<'static>,
    end: &mut S,
) -> Result<Vec<Found>, QueryFault> {
    run_query(
        alloc,
        snapshots(one, alloc, selector, question)?,
        end,
        question,
    )
}

/// The lines of what was found, one behind the other.
pub(crate) fn joined(alloc: Global, found: &[Found]) -> Result<String, AllocError> {
    let mut lines = String::new(alloc);
    for one in found {
        lines.push_str(one.entry.line.as_str())?;
    }
    Ok(lines)
}

/// The lines that are found.
pub(crate) fn lines<R: Receipt, S: StoreEnd<Receipt = R>>(
    one: &Owned<R>,
    alloc: Global,
    selector: &Selector,
    question: Question<'static>,
    end: &mut S,
) -> Result<String, QueryFault> {
    let found = found(one, alloc, selector, question, end)?;
    Ok(joined(alloc, &found)?)
}

/// How many blocks and chunks a snapshot shares, and the lines that it copies.
fn parts<R: Receipt>(
    alloc: Global,
    snapshot: Snapshot<'static, R>,
) -> Result<(usize, String), AllocError> {
    let count = snapshot.parts.len();
    let kept = snapshot.best.into_answer();
    Ok((count, joined(alloc, &kept)?))
}

/// How many blocks and chunks a snapshot shares, and the lines that it copies.
fn shared<R: Receipt>(
    one: &Owned<R>,
    alloc: Global,
    selector: &Selector,
    question: Question<'static>,
) -> Result<(usize, String), AllocError> {
    parts(
        alloc,
        one.shard.snapshot(alloc, &one.tenant, selector, question)?,
    )
}

/// A full chunk of two blocks, and one that grows, with a block and one entry in its head.
const ONE_AND_A_HALF: [(u64, &str); 7] = [
    (1, "aaaa"),
    (2, "bbbb"),
    (3, "cccc"),
    (4, "dddd"),
    (5, "eeee"),
    (6, "ffff"),
    (7, "gggg"),
];

/// A snapshot shares the closed blocks that the range meets, and copies entries of a head alone.
pub(crate) fn shares_closed_blocks<R: Receipt>(
    rt: &impl Abort,
    alloc: Global,
    one: &mut Owned<R>,
) -> Result<(), Fail> {
    push_each(one, alloc, &ONE_AND_A_HALF)?;
    let all = Selector::parse(alloc, "{a=\"1\"}")?;
    let (count, copied) = shared(one, alloc, &all, ALL)?;
    assert!(rt; count == 3 && copied.as_str() == "gggg");
    // One block alone meets this range.
    let narrow = Question {
        start: 3,
        end: 5,
        ..ALL
    };
    let (count, copied) = shared(one, alloc, &all, narrow)?;
    assert!(rt; count == 1 && copied.as_str() == "");
    Ok(())
}

#[test]
fn closed_blocks_are_shared(rt: HostRuntime) -> Result<(), Fail> {
    do_in_shard(&rt, rt.alloc(), Task::SharesBlocks)
}

/// From here on, the newest first where it is backward, so many.
fn from(start: u64, order: Order, limit: usize) -> Question<'static> {
    Question {
        start,
        order,
        limit,
        ..ALL
    }
}

/// What stands behind the entry of this stamp and number.
fn behind(stamp: u64, number: u64, order: Order, limit: usize) -> Question<'static> {
    Question {
        after: Some(Cursor {
            stamp,
            stream: "{a=\"1\"}",
            number,
        }),
        ..from(0, order, limit)
    }
}

/// What is asked, after how many calls the store fails, and the lines that are found then; none where it is called oftener.
type Row = (u64, Question<'static>, Option<&'static str>);

/// The rows of a shard with two stored chunks, from time 1 to 4 and from 4 to 7, and an entry at time 9 in memory.
fn rows() -> [Row; 14] {
    [
        // What is in memory is enough; so is the last chunk beside it; the first is wanted at its greatest stamp.
        (0, from(0, Order::Backward, 1), Some("iiii")),
        (1, from(0, Order::Backward, 4), Some("iiiihhhhggggffff")),
        (1, from(0, Order::Backward, 5), None),
        (2, from(0, Order::Backward, 5), Some("iiiihhhhggggffffeeee")),
        (0, from(0, Order::Forward, 1), None),
        (1, from(0, Order::Forward, 3), Some("aaaabbbbcccc")),
        (1, from(0, Order::Forward, 4), None),
        (2, from(0, Order::Forward, 4), Some("aaaabbbbccccdddd")),
        // A chunk that lies outside the range is not fetched.
        (1, from(5, Order::Forward, 100), Some("ffffgggghhhhiiii")),
        (0, from(8, Order::Forward, 100), Some("iiii")),
        // Two entries have time 4: a page goes on between them, and reads no chunk that lies before it.
        (2, behind(4, 3, Order::Forward, 3), Some("eeeeffffgggg")),
        (2, behind(4, 4, Order::Backward, 2), Some("ddddcccc")),
        (1, behind(9, 8, Order::Backward, 2), Some("hhhhgggg")),
        (0, behind(8, 0, Order::Forward, 2), Some("iiii")),
    ]
}

/// The lines that are found where the store fails from this call on; none where it was called oftener.
fn found_after<'a, R: Wait + Abort>(
    rt: &'a R,
    alloc: Global,
    one: &Owned<MemoryReceipt<'a>>,
    store: &'a MemoryStore,
    selector: &Selector,
    calls: u64,
    question: Question<'static>,
) -> Result<Option<String>, QueryFault> {
    let mut end = store.end(rt, Fuse::FailedFrom(calls));
    match lines(one, alloc, selector, question, &mut end) {
        Ok(found) => Ok(Some(found)),
        Err(QueryFault::StoreFault { key: _ }) => Ok(None),
        Err(fault) => Err(fault),
    }
}

fn are(found: &Option<String>, wanted: Option<&str>) -> bool {
    match (found, wanted) {
        (Some(found), Some(wanted)) => found.as_str() == wanted,
        (None, None) => true,
        _ => false,
    }
}

/// Two chunks, from time 1 to 4 and from 4 to 7, and an entry at time 9.
const TWO_AND_ONE: [(u64, &str); 9] = [
    (1, "aaaa"),
    (2, "bbbb"),
    (3, "cccc"),
    (4, "dddd"),
    (4, "eeee"),
    (5, "ffff"),
    (6, "gggg"),
    (7, "hhhh"),
    (9, "iiii"),
];

/// Pushes and stores the two chunks; the entry stays in memory.
fn store_two<'a, R: Wait + Abort>(
    one: &mut Owned<MemoryReceipt<'a>>,
    rt: &'a R,
    alloc: Global,
    store: &'a MemoryStore,
) -> Result<(), Fail> {
    push_each(one, alloc, &TWO_AND_ONE)?;
    for _chunk in 0..2 {
        one.store_next(rt, alloc, &mut store.end(rt, Fuse::None), &mut 0)?;
    }
    Ok(())
}

/// A stored chunk is fetched where it may matter.
pub(crate) fn fetches<'a, R: Wait + Abort>(
    rt: &'a R,
    alloc: Global,
    one: &mut Owned<MemoryReceipt<'a>>,
    store: &'a MemoryStore,
) -> Result<(), Fail> {
    store_two(one, rt, alloc, store)?;
    let all = Selector::parse(alloc, "{a=\"1\"}")?;
    for (calls, question, wanted) in rows() {
        let found = found_after(rt, alloc, one, store, &all, calls, question)?;
        assert!(rt; are(&found, wanted));
    }
    Ok(())
}

#[test]
fn a_stored_chunk_is_fetched_where_it_may_matter(rt: HostRuntime) -> Result<(), Fail> {
    do_in_shard(&rt, rt.alloc(), Task::Fetches)
}
