//! The periods of a clock, and what is done at the end of each.
use crate::lengths::Lengths;
use ing_lanes::Tick;
use ing_limits::Settings;
use std::alloc::{AllocError, Global};
use std::io;
use std::io::{Error, ErrorKind};
use std::rt::Files;
use std::time::{Clock, Duration, Instant, SystemTime, UNIX_EPOCH};

/// What is done next.
#[derive(Clone, Copy, PartialEq, Eq)]
enum Next {
    /// Nothing: a period begins.
    Period,
    /// A sweep, at the end of the period that began then.
    Sweep { began: Instant },
    Flush,
    Checkpoint,
}

/// The periods of a clock, each a `flush_check_period` long. At its end follow a sweep at that time, a flush of what sweeps have queued, and
/// where a log has grown a checkpoint; the next begins when these are done.
#[derive(Drop)]
pub(crate) struct Periods<'a, C: Clock, R: Files> {
    clock: &'a C,
    /// There are none where it is zero.
    length: Duration,
    next: Next,
    logs: Lengths<'a, R>,
    /// Whether the logs are replaced at the end of this period, or were before the first.
    is_replaced: bool,
}

impl<'a, C: Clock, R: Files> Periods<'a, C, R> {
    /// None yet. The logs lie in the folder, if there is one.
    pub(crate) fn of(
        alloc: Global,
        clock: &'a C,
        files: &'a R,
        folder: Option<&'a str>,
    ) -> Periods<'a, C, R> {
        Periods {
            clock,
            length: Duration::ZERO,
            next: Next::Period,
            logs: Lengths::of(alloc, files, folder),
            is_replaced: true,
        }
    }

    /// From now on they are those of these settings. It fails only where memory runs out.
    pub(crate) fn begin(&mut self, settings: &Settings) -> Result<(), AllocError> {
        self.length = Duration::from_nanos(settings.flush_check_period());
        if self.are_none() {
            return Ok(());
        }
        self.logs.begin(settings)
    }

    /// Whether nothing is ever done.
    pub(crate) fn are_none(&self) -> bool {
        self.length.is_zero()
    }

    /// How long it is until something is to be done, asked when what was said before is done. It fails where the clock cannot be read.
    pub(crate) fn rest(&mut self) -> io::Result<Duration> {
        match self.next {
            Next::Period => {
                let began = Instant::now(self.clock)?;
                if self.is_replaced {
                    self.logs.note();
                }
                self.is_replaced = false;
                self.next = Next::Sweep { began };
                Ok(self.length)
            }
            Next::Sweep { began } => {
                let passed = began.elapsed(self.clock)?;
                Ok(self.length.saturating_sub(passed))
            }
            Next::Flush | Next::Checkpoint => Ok(Duration::ZERO),
        }
    }

    /// What is to be done now, if anything is. It fails where the clock cannot be read, or shows no time that a sweep can have.
    pub(crate) fn next(&mut self) -> io::Result<Option<Tick>> {
        if self.are_none() || !self.rest()?.is_zero() {
            return Ok(None);
        }
        let (tick, next) = match self.next {
            Next::Flush if self.is_replaced => (Tick::Flush, Next::Checkpoint),
            Next::Flush => (Tick::Flush, Next::Period),
            Next::Checkpoint => (Tick::Checkpoint, Next::Period),
            Next::Period | Next::Sweep { began: _ } => {
                let sweep = self.sweep()?;
                self.is_replaced = self.logs.have_grown();
                (sweep, Next::Flush)
            }
        };
        self.next = next;
        Ok(Some(tick))
    }

    /// The same, or nothing where that fails.
    pub(crate) fn due(&mut self) -> Option<Tick> {
        self.next().ok().flatten()
    }

    /// A sweep at this time.
    fn sweep(&self) -> io::Result<Tick> {
        match sweep_at(SystemTime::now(self.clock)?) {
            Some(sweep) => Ok(sweep),
            None => Err(Error::from(ErrorKind::InvalidData)),
        }
    }
}

/// A sweep at a time, or `None` where that is before 1970, or no stamp.
fn sweep_at(time: SystemTime) -> Option<Tick> {
    let since = time.duration_since(UNIX_EPOCH).ok()?;
    Tick::sweep_at(u64::try_from(since.as_nanos()).ok()?)
}
