//! A shard beside notes that are its entries, or that are not.
use crate::owned::{LIMITS, Owned, entries_of};
use crate::tasks::{Task, do_in_shard};
use ing_diary::{Diary, Fronts, Mismatch, Unsettled, settle};
use ing_labels::Labels;
use ing_rows::{Tenant, Verdict};
use ing_store::{Fuse, MemoryReceipt, MemoryStore, StoreEnd};
use std::alloc::Global;
use std::process::Abort;
use std::sync::Wait;
use std::test::Fail;

/// Entries of the one stream that are noted, by stamp and line, and the number of the one that differs from the shard's.
const NOTES: [(&[(u64, &str)], Option<u64>); 6] = [
    (&[(5, "x"), (6, "y"), (7, "z")], None),
    (&[(5, "x"), (6, "other"), (7, "z")], Some(1)),
    (&[(5, "x"), (6, "y"), (8, "z")], Some(2)),
    (&[(5, "x"), (6, "y")], Some(2)),
    (&[(5, "x"), (6, "y"), (7, "z"), (8, "more")], Some(3)),
    (&[], Some(0)),
];

/// The same of what came behind the first two, with the number of the first that is noted.
const LATER: [(u64, &[(u64, &str)], Option<u64>); 5] = [
    (2, &[(7, "z")], None),
    (2, &[(7, "other")], Some(2)),
    (2, &[], Some(2)),
    (3, &[(7, "z")], Some(2)),
    (1, &[(6, "y"), (7, "z")], Some(1)),
];

/// A diary of entries of the stream, all accepted, from a number on.
fn noted(alloc: Global, tenant: &Tenant, first: u64, lines: &[(u64, &str)]) -> Result<Diary, Fail> {
    let labels = Labels::of_pairs(alloc, &[("a", "1")], &LIMITS)?;
    let mut verdicts = Vec::new(alloc);
    for place in 0..lines.len() as u64 {
        verdicts.push(Verdict::Accepted {
            number: first.saturating_add(place),
        })?;
    }
    let mut diary = Diary::new(alloc);
    diary.begin(alloc, tenant, &labels, &entries_of(alloc, lines)?)?;
    diary.note(&verdicts);
    Ok(diary)
}

/// What is said of what came to the shard behind these fronts, beside notes from a number on.
fn settled<S: StoreEnd>(
    alloc: Global,
    one: &Owned<S::Receipt>,
    end: &mut S,
    fronts: &Fronts,
    first: u64,
    lines: &[(u64, &str)],
) -> Result<Result<(), Unsettled>, Fail> {
    let diary = noted(alloc, &one.tenant, first, lines)?;
    let mut notes = Vec::new(alloc);
    diary.spread_into(&mut notes, 1, 0)?;
    Ok(settle(alloc, &one.shard, end, fronts, notes))
}

/// What is to be said of it.
fn wanted(alloc: Global, differs: Option<u64>) -> Result<Result<(), Unsettled>, Fail> {
    let Some(number) = differs else {
        return Ok(Ok(()));
    };
    Ok(Err(Unsettled::Differs(Mismatch {
        tenant: String::from_str(alloc, "t")?,
        stream: String::from_str(alloc, "{a=\"1\"}")?,
        number,
    })))
}

/// Whether the entries of a shard are those that were noted: an entry of another line or stamp, one that was not noted and one that is
/// not there are named by their numbers.
#[test]
fn what_is_noted_is_compared(rt: HostRuntime) -> Result<(), Fail> {
    do_in_shard(&rt, rt.alloc(), Task::Settles)
}

/// Of three entries of a stream two are stored and one is not: each list of notes is found to be theirs, or which of them differs. Behind
/// the two only what came later is compared, and no object is read.
pub(crate) fn settles<'a, R: Wait + Abort>(
    rt: &'a R,
    alloc: Global,
    store: &'a MemoryStore,
    one: &mut Owned<MemoryReceipt<'a>>,
) -> Result<(), Fail> {
    let mut end = store.end(rt, Fuse::None);
    let from_first = Fronts::of_shard(alloc, &one.shard)?;
    one.push(alloc, &[("a", "1")], &[(5, "x"), (6, "y")])??;
    one.seal_all(alloc)?;
    one.store_next(rt, alloc, &mut end, &mut 0)?;
    let from_third = Fronts::of_shard(alloc, &one.shard)?;
    one.push(alloc, &[("a", "1")], &[(7, "z")])??;
    for (lines, differs) in &NOTES {
        assert!(rt;
            settled(alloc, one, &mut end, &from_first, 0, lines)? == wanted(alloc, *differs)?
        );
    }
    let mut dead = store.dead_end(rt, 0);
    for (first, lines, differs) in &LATER {
        assert!(rt;
            settled(alloc, one, &mut dead, &from_third, *first, lines)? == wanted(alloc, *differs)?
        );
    }
    Ok(())
}
