//! What the clock says in the place of a client, as a channel beside others.
use crate::periods::Periods;
use ing_lanes::Tick;
use ing_limits::Settings;
use std::alloc::{AllocError, Global};
use std::io::{Cursor, Read};
use std::rt::Files;
use std::sync::atomic::{AtomicU64, Ordering};
use std::time::{Clock, Duration};
use std::{io, thread};

/// How many milliseconds a sleep has at most, behind which one looks whether a channel is left.
const NAP: u64 = 20;

/// An input that says something by itself at the end of each period.
pub trait Ticking: Read {
    /// From now on the periods are those of the settings, and so many channels are to be served beside it. It fails only where memory
    /// runs out.
    fn begin(&mut self, settings: &Settings, channels: u64) -> Result<(), AllocError>;
}

/// A clock as an input: at the end of each `flush_check_period` it gives the commands of a sweep at that time, in nanoseconds since 1970,
/// of a flush of what sweeps have queued, and where a log has grown of a checkpoint. A period begins when what was given before is read
/// on, and so was obeyed. The input ends when no channel is left, 20 milliseconds later at most.
#[derive(Drop)]
pub struct Ticks<'a, C: Clock, R: Files> {
    alloc: Global,
    clock: &'a C,
    /// How many channels are left.
    left: &'a AtomicU64,
    periods: Periods<'a, C, R>,
    /// What is being read.
    said: Cursor<String>,
}

impl<'a, C: Clock, R: Files> Ticks<'a, C, R> {
    /// Those of this clock, which says nothing yet, beside the logs in a folder; the number is that of the channels that are left.
    pub fn new(
        alloc: Global,
        clock: &'a C,
        left: &'a AtomicU64,
        files: &'a R,
        folder: &'a str,
    ) -> Ticks<'a, C, R> {
        Ticks {
            alloc,
            clock,
            left,
            periods: Periods::of(alloc, clock, files, Some(folder)),
            said: Cursor::new(String::new(alloc)),
        }
    }

    /// Waits until something is to be done, and gives that; or until no channel is left.
    fn wait(&mut self) -> io::Result<Option<Tick>> {
        for _ in 0..u64::MAX {
            if self.periods.are_none() || self.left.load(Ordering::SeqCst) == 0 {
                break;
            }
            if let Some(tick) = self.periods.next()? {
                return Ok(Some(tick));
            }
            let nap = Duration::from_millis(NAP);
            thread::sleep(self.clock, self.periods.rest()?.min(nap));
        }
        Ok(None)
    }
}

/// The line by which a client would command it.
fn line_of(alloc: Global, tick: Tick) -> Result<String, AllocError> {
    match tick {
        Tick::Sweep { now } => {
            let now = now.nanoseconds();
            format!(in alloc; "{{\"cmd\":\"sweep\",\"now\":\"{now}\"}}\n")
        }
        Tick::Flush => String::from_str(alloc, "{\"cmd\":\"flush\",\"forced\":false}\n"),
        Tick::Checkpoint => String::from_str(alloc, "{\"cmd\":\"checkpoint\"}\n"),
    }
}

impl<'a, C: Clock, R: Files> Ticking for Ticks<'a, C, R> {
    fn begin(&mut self, settings: &Settings, channels: u64) -> Result<(), AllocError> {
        self.left.store(channels, Ordering::SeqCst);
        self.periods.begin(settings)
    }
}

impl<'a, C: Clock, R: Files> Read for Ticks<'a, C, R> {
    fn read(&mut self, buf: &mut [u8]) -> io::Result<usize> {
        let count = self.said.read(buf)?;
        if count > 0 || buf.is_empty() {
            return Ok(count);
        }
        match self.wait()? {
            Some(tick) => {
                self.said = Cursor::new(line_of(self.alloc, tick)?);
                self.said.read(buf)
            }
            None => Ok(0),
        }
    }
}
