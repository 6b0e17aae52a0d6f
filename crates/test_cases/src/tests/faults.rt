//! Runs over a log and a store of which each call fails in turn: each time the report adds up.
use super::{FLUSH, PUSHES, SWEEP};
use ing_limits::Settings;
use ing_program::{Ending, Ends, NoTicker, run_over};
use ing_store::{Fuse, MemoryStore};
use ing_wal::MemoryLog;
use serde_json::Value;
use std::alloc::Global;
use std::sync::Wait;
use std::test::Fail;
use std::thread::Threads;

/// Each is done over the log, the store or both.
const LINES: [&str; 8] = [
    PUSHES, SWEEP, FLUSH, CHECKPOINT, LATER, FLUSH, CHECKPOINT, QUERY,
];

const CHECKPOINT: &str = "{\"cmd\":\"checkpoint\"}\n";

/// An entry that stands behind one of `PUSHES`.
const LATER: &str =
    "{\"cmd\":\"push\",\"tenant\":\"t\",\"now\":\"2\",\"streams\":[{\"stream\":{\"a\":\"1\"},\"values\":[[\"2\",\"later\"]]}]}\n";

const QUERY: &str = "{\"cmd\":\"query\",\"tenant\":\"t\",\"query\":\"{a=\\\"1\\\"}\"}\n";

/// More calls than such a run makes, of a log or of an end of a store.
const CALLS: u64 = 40;

/// How a run on these lines ends whose shard is made again from this log, whose worker puts into the store by an end that fails as the
/// first of these fuses says, and whose own end, by which queries read, fails as the second says; and what it has written by then.
fn run_failing<H: AllocGlobal + Threads + Wait + Sync>(
    rt: &H,
    log: MemoryLog,
    flusher: Fuse,
    reading: Fuse,
) -> Result<(Result<(), Ending>, String), Fail> {
    let alloc = rt.alloc();
    let settings = Settings::from_toml(alloc, "")?;
    if settings.shards() != 1 {
        return Err("one shard".into());
    }
    let mut input = String::new(alloc);
    for line in LINES {
        input.push_str(line)?;
    }
    let store = MemoryStore::new(alloc)?;
    let others = vec![in alloc; store.end(rt, flusher)]?;
    let mut ends = Ends::of(store.end(rt, reading), others);
    let finders = vec![in alloc; store.end(rt, Fuse::None)]?;
    let logs = vec![in alloc; log]?;
    let mut reader = input.as_bytes();
    let mut writer = Vec::new(alloc);
    let ended = run_over(
        rt,
        alloc,
        &mut reader,
        &mut writer,
        &mut ends,
        &mut NoTicker,
        settings,
        logs,
        finders,
    );
    let written = String::from_utf8(writer).ok().ok_or("the output is text")?;
    Ok((ended, written))
}

/// Whether as many entries are reported accepted as verdicts said, each stored or kept.
fn adds_up(alloc: Global, written: &str) -> Result<bool, Fail> {
    let report = written.lines().last().ok_or("a report")?;
    let report = Value::from_str(alloc, report).ok().ok_or("a report")?;
    let told = written.matches("\"verdicts\":[{\"accepted\":").count() as u64;
    let number = |place: &str| report.pointer(place)?.as_u64();
    let accepted = number("/report/0/accepted");
    let stored = number("/report/0/stored").ok_or("a number")?;
    let kept = number("/report/0/kept").ok_or("a number")?;
    Ok(accepted == Some(told) && stored.checked_add(kept) == accepted)
}

#[test]
fn the_report_adds_up_whichever_call_of_the_log_fails(rt: HostRuntime) -> Result<(), Fail> {
    for call in 0..CALLS {
        for kept in [0, 20] {
            let log = MemoryLog::fused(rt.alloc(), call, kept);
            let (ended, written) = run_failing(&rt, log, Fuse::None, Fuse::None)?;
            assert_eq!(rt; ended, Ok(()));
            assert!(rt; adds_up(rt.alloc(), written.as_str())?);
        }
    }
    Ok(())
}

#[test]
fn the_report_adds_up_whichever_call_of_the_store_fails(rt: HostRuntime) -> Result<(), Fail> {
    for call in 0..CALLS {
        for fuse in [
            Fuse::Failed(call),
            Fuse::StoredYetFailed(call),
            Fuse::FailedFrom(call),
        ] {
            for (flusher, reading) in [(fuse, Fuse::None), (Fuse::None, fuse)] {
                let log = MemoryLog::new(rt.alloc());
                let (ended, written) = run_failing(&rt, log, flusher, reading)?;
                assert_eq!(rt; ended, Ok(()));
                assert!(rt; adds_up(rt.alloc(), written.as_str())?);
            }
        }
    }
    Ok(())
}
