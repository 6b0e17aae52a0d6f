//! Flushes over ends that fail: what a failed upload leaves in memory, and what a later one stores.
use super::{FLUSH, SWEEP, run_aside_over, run_over};
use ing_store::Fuse;
use std::alloc::{AllocError, Global};
use std::process::Abort;
use std::sync::Wait;
use std::test::Fail;
use std::thread::Threads;

/// A query for all entries, the first first.
const QUERY: &str =
    "{\"cmd\":\"query\",\"tenant\":\"acme\",\"query\":\"{job=\\\"x\\\"}\",\"direction\":\"forward\"}\n";

/// A flush of what sweeps have queued.
const UNFORCED: &str = "{\"cmd\":\"flush\",\"forced\":false}\n";

/// How many uploads of a flush failed, how many chunks were sealed for it, and how many were stored.
type Counts = (u64, u64, u64);

/// How many entries are kept in memory, and how many are stored.
type Entries = (u64, u64);

/// What uploads: the run itself, or a worker beside it.
#[derive(Clone, Copy, Debug, PartialEq, Eq)]
enum Uploader {
    Run,
    Worker,
}

/// What a session reads, and what it has to write.
#[derive(Drop)]
struct Talk {
    input: String,
    output: String,
    accepted: u64,
}

impl Talk {
    fn new(alloc: Global) -> Talk {
        Talk {
            input: String::new(alloc),
            output: String::new(alloc),
            accepted: 0,
        }
    }

    /// An entry `hello` of tenant `acme` with the label `job`, and this label `app`, which is new.
    fn push(&mut self, alloc: Global, app: &str) -> Result<(), AllocError> {
        let push = format!(in alloc;
            "{{\"cmd\":\"push\",\"tenant\":\"acme\",\"now\":\"1000\",\"streams\":[{{\"stream\":{{\"app\":\"{app}\",\"job\":\"x\"}},\"values\":[[\"1000\",\"hello\"]]}}]}}\n"
        )?;
        let reply = format!(in alloc;
            "{{\"push\":[{{\"durable\":false,\"stream\":\"{{app=\\\"{app}\\\", job=\\\"x\\\"}}\",\"verdicts\":[{{\"accepted\":0}}]}}]}}\n"
        )?;
        self.input.push_str(push.as_str())?;
        self.output.push_str(reply.as_str())?;
        self.accepted = self.accepted.saturating_add(1);
        Ok(())
    }

    /// A sweep of one stream at which its chunk is due; the chunk waits from then on.
    fn sweep(&mut self, alloc: Global, sealed: u64) -> Result<(), AllocError> {
        let reply = format!(in alloc; "{{\"sweep\":{{\"queued\":1,\"sealed\":{sealed}}}}}\n")?;
        self.input.push_str(SWEEP)?;
        self.output.push_str(reply.as_str())?;
        Ok(())
    }

    fn flush(&mut self, alloc: Global, flush: &str, counts: Counts) -> Result<(), AllocError> {
        let (failed, sealed, stored) = counts;
        let reply = format!(in alloc;
            "{{\"flush\":{{\"failed\":{failed},\"sealed\":{sealed},\"stored\":{stored}}}}}\n"
        )?;
        self.input.push_str(flush)?;
        self.output.push_str(reply.as_str())?;
        Ok(())
    }

    /// So many streams have their entry in a block, and so many in the store.
    fn gauges(&mut self, alloc: Global, entries: Entries) -> Result<(), AllocError> {
        let (kept, stored) = entries;
        let kept_bytes = kept.saturating_mul(21);
        let stored_bytes = stored.saturating_mul(21);
        let reply = format!(in alloc;
            "{{\"gauges\":[{{\"block\":{{\"bytes\":\"{kept_bytes}\",\"entries\":{kept}}},\"flight\":{{\"bytes\":\"0\",\"entries\":0}},\"head\":{{\"bytes\":\"0\",\"entries\":0}},\"stored\":{{\"bytes\":\"{stored_bytes}\",\"entries\":{stored}}},\"streams\":{kept}}}]}}\n"
        )?;
        self.input
            .push_str("{\"cmd\":\"gauges\",\"tenant\":\"acme\"}\n")?;
        self.output.push_str(reply.as_str())?;
        Ok(())
    }

    /// A query finds the entry of each of these, which are in byte order.
    fn query(&mut self, alloc: Global, apps: &[&str]) -> Result<(), AllocError> {
        self.input.push_str(QUERY)?;
        self.output.push_str("{\"query\":{\"entries\":[")?;
        let mut comma = "";
        for app in apps {
            let entry = format!(in alloc;
                "{comma}{{\"line\":\"hello\",\"stamp\":\"1000\",\"stream\":\"{{app=\\\"{app}\\\", job=\\\"x\\\"}}\"}}"
            )?;
            self.output.push_str(entry.as_str())?;
            comma = ",";
        }
        let front = format!(in alloc; "],\"fronts\":[{}]}}}}\n", apps.len())?;
        self.output.push_str(front.as_str())?;
        Ok(())
    }

    /// It goes so over an end of which these calls fail, and such entries are reported.
    fn holds_over<R: AllocGlobal + Threads + Wait + Sync + Abort>(
        &mut self,
        rt: &R,
        uploader: Uploader,
        fuse: Fuse,
        entries: Entries,
    ) -> Result<(), Fail> {
        let accepted = self.accepted;
        let (kept, stored) = entries;
        let report = format!(in rt.alloc();
            "{{\"report\":[{{\"accepted\":{accepted},\"kept\":{kept},\"recovered\":0,\"stored\":{stored}}}]}}\n"
        )?;
        self.output.push_str(report.as_str())?;
        let mut reader = self.input.as_bytes();
        let mut writer = Vec::new(rt.alloc());
        let ended = match uploader {
            Uploader::Run => run_over(rt, fuse, &mut reader, &mut writer)?,
            Uploader::Worker => run_aside_over(rt, fuse, &mut reader, &mut writer)?,
        };
        assert_eq!(rt; ended, Ok(()), "over {fuse:?}");
        let written = String::from_utf8(writer).ok().ok_or("the output is text")?;
        assert_eq!(rt; written.as_str(), self.output.as_str(), "over {fuse:?}");
        Ok(())
    }
}

/// Each of these streams gets an entry, and two flushes then count so; the gauges follow each. Where a worker uploads, so that a query
/// reads by another end, each entry is found after each.
fn flushes_twice<R: AllocGlobal + Threads + Wait + Sync + Abort>(
    rt: &R,
    uploader: Uploader,
    fuse: Fuse,
    apps: &[&str],
    flushes: [Counts; 2],
    entries: Entries,
) -> Result<(), Fail> {
    let mut talk = Talk::new(rt.alloc());
    for app in apps {
        talk.push(rt.alloc(), app)?;
    }
    let mut stored = 0u64;
    for counts in flushes {
        talk.flush(rt.alloc(), FLUSH, counts)?;
        stored = stored.saturating_add(counts.2);
        let kept = talk.accepted.saturating_sub(stored);
        talk.gauges(rt.alloc(), (kept, stored))?;
        if uploader == Uploader::Worker {
            talk.query(rt.alloc(), apps)?;
        }
    }
    talk.holds_over(rt, uploader, fuse, entries)
}

#[test]
fn what_failed_is_stored_by_the_next_flush(rt: HostRuntime) -> Result<(), Fail> {
    let next = [(1, 1, 0), (0, 0, 1)];
    for (fuse, flushes) in [
        (Fuse::Failed(0), next),
        (Fuse::StoredYetFailed(0), next),
        // The chunk is put, and its index row is not.
        (Fuse::Failed(1), next),
        (Fuse::StoredYetFailed(1), next),
        // No upload makes a third call.
        (Fuse::Failed(2), [(0, 1, 1), (0, 0, 0)]),
    ] {
        flushes_twice(&rt, Uploader::Run, fuse, &["web"], flushes, (0, 1))?;
    }
    Ok(())
}

/// Of three streams each call of the first flush fails in turn, of which an upload makes two; and then all.
#[test]
fn a_failed_upload_holds_up_no_other(rt: HostRuntime) -> Result<(), Fail> {
    let apps = ["db", "mail", "web"];
    for uploader in [Uploader::Run, Uploader::Worker] {
        for call in 0..7u64 {
            let flushes = if call < 6 {
                [(1, 3, 2), (0, 0, 1)]
            } else {
                [(0, 3, 3), (0, 0, 0)]
            };
            for fuse in [Fuse::Failed(call), Fuse::StoredYetFailed(call)] {
                flushes_twice(&rt, uploader, fuse, &apps, flushes, (0, 3))?;
            }
        }
        let failed = [(3, 3, 0), (3, 0, 0)];
        flushes_twice(&rt, uploader, Fuse::FailedFrom(0), &apps, failed, (3, 0))?;
    }
    Ok(())
}

/// Both sweeps queue an operation for the one chunk. Where its upload fails, the same flush does not try it again.
#[test]
fn unforced_flush_works_off_what_sweeps_queued(rt: HostRuntime) -> Result<(), Fail> {
    for (fuse, counts, entries) in [
        (Fuse::None, (0, 0, 1), (0, 1)),
        (Fuse::Failed(0), (1, 0, 0), (1, 0)),
        (Fuse::FailedFrom(0), (1, 0, 0), (1, 0)),
    ] {
        let mut talk = Talk::new(rt.alloc());
        talk.push(rt.alloc(), "web")?;
        talk.flush(rt.alloc(), UNFORCED, (0, 0, 0))?;
        talk.sweep(rt.alloc(), 1)?;
        talk.sweep(rt.alloc(), 0)?;
        talk.flush(rt.alloc(), UNFORCED, counts)?;
        // Nothing is queued any more, though a chunk may wait.
        talk.flush(rt.alloc(), UNFORCED, (0, 0, 0))?;
        talk.holds_over(&rt, Uploader::Run, fuse, entries)?;
    }
    Ok(())
}
