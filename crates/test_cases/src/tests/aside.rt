//! Uploads of one flush go side by side: each waits for the other.
use super::{FLUSH, PUSHES};
use ing_limits::Settings;
use ing_program::{Ends, NoTicker, run};
use ing_store::{Receipt, StoreEnd, StoreFault};
use std::alloc::Global;
use std::borrow::CowSlice;
use std::io::Read;
use std::sync::atomic::{AtomicU64, Ordering};
use std::test::Fail;
use std::thread;
use std::thread::Threads;
use std::time::{Clock, Duration};

/// How often one looks whether the other has come, a millisecond apart.
const TURNS: u32 = 10_000;

/// How many ends have come to their first put, and how many of these saw another come.
#[derive(Drop)]
struct Meeting {
    come: AtomicU64,
    met: AtomicU64,
}

/// An object, which its receipt owns.
#[derive(Drop)]
struct Object {
    name: String,
    bytes: Vec<u8>,
}

impl Receipt for Object {
    ghost use Rattle.std.specs.Prelude.{string_bytes};

    ghost name = { λ object. string_bytes object.name };

    ghost bytes = { λ object. object.bytes.items };
}

/// An end whose first put waits until another end has come to its own.
#[derive(Drop)]
struct MeetingEnd<'a, C: Clock> {
    clock: &'a C,
    meeting: &'a Meeting,
    has_come: bool,
}

impl<'a, C: Clock> MeetingEnd<'a, C> {
    /// An end that has not come yet.
    fn of(clock: &'a C, meeting: &'a Meeting) -> MeetingEnd<'a, C> {
        MeetingEnd {
            clock,
            meeting,
            has_come: false,
        }
    }

    /// Waits for the other, once.
    fn meet(&mut self) {
        if self.has_come {
            return;
        }
        self.has_come = true;
        self.meeting.come.fetch_add(1, Ordering::SeqCst);
        for _ in 0..TURNS {
            if self.meeting.come.load(Ordering::SeqCst) > 1 {
                self.meeting.met.fetch_add(1, Ordering::SeqCst);
                return;
            }
            thread::sleep(self.clock, Duration::from_millis(1));
        }
    }
}

impl<'a, C: Clock> StoreEnd for MeetingEnd<'a, C> {
    ghost use Rattle.std.specs.Prelude.{⊤};

    type Receipt = Object;

    ghost failure_count = { λ _. 0 };

    ghost never_fails = { λ _. ⊤ };

    ghost is_honest = { ⊤ };

    fn failures(&self) -> u64 {
        0
    }

    fn put(&mut self, alloc: Global, name: &str, bytes: &[u8]) -> Result<Object, StoreFault> {
        self.meet();
        Ok(Object {
            name: String::from_str(alloc, name)?,
            bytes: bytes.to_vec(alloc)?,
        })
    }

    fn get<'r>(
        &mut self,
        alloc: Global,
        receipt: &'r Object,
    ) -> Result<CowSlice<'r, u8, Global>, StoreFault> {
        Ok(CowSlice::Borrowed(receipt.bytes.as_slice()))
    }

    /// Claims nothing.
    fn find(&mut self, alloc: Global, name: &str) -> Result<Option<Object>, StoreFault> {
        Ok(None)
    }

    /// Claims nothing.
    fn found(
        &mut self,
        alloc: Global,
        name: &str,
    ) -> Result<Option<(Object, Vec<u8>)>, StoreFault> {
        Ok(None)
    }
}

/// How many of two uploads of one flush, each by an end of its own, see the other come.
fn met<H: AllocGlobal + Clock + Threads + Sync>(rt: &H) -> Result<u64, Fail> {
    let alloc = rt.alloc();
    let settings = Settings::from_toml(alloc, "")?;
    let meeting = Meeting {
        come: AtomicU64::new(0),
        met: AtomicU64::new(0),
    };
    let others = vec![in alloc; MeetingEnd::of(rt, &meeting), MeetingEnd::of(rt, &meeting)]?;
    let mut ends = Ends::of(MeetingEnd::of(rt, &meeting), others);
    let mut reader = PUSHES.as_bytes().chain(FLUSH.as_bytes());
    let mut writer = Vec::new(alloc);
    let ended = run(
        rt,
        alloc,
        &mut reader,
        &mut writer,
        &mut ends,
        &mut NoTicker,
        settings,
    );
    if ended.is_err() {
        return Err("a run to its end".into());
    }
    Ok(meeting.met.load(Ordering::SeqCst))
}

#[test]
fn two_uploads_of_a_flush_overlap(rt: HostRuntime) -> Result<(), Fail> {
    assert_eq!(rt; met(&rt)?, 2);
    Ok(())
}
