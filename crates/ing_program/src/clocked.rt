//! The clock beside one input.
use crate::feed::Feed;
use crate::periods::Periods;
use ing_lanes::{NoTicker, Tick, Ticker};
use ing_limits::Settings;
use std::alloc::{AllocError, Global};
use std::rt::Files;
use std::sync::Wait;
use std::time::Clock;

/// A clock beside an input, whose periods are those of the settings.
pub trait Clocked: Ticker {
    ghost use Rattle.std.specs.Prelude.{◌≡◌};

    /// From now on its periods are those of these settings. It fails only where memory runs out.
    fn set_periods(&mut self, settings: &Settings) -> Result<(), AllocError>
        ensures { Self.said self.new ≡ Self.said self.old };
}

impl Clocked for NoTicker {
    fn set_periods(&mut self, _settings: &Settings) -> Result<(), AllocError> {
        Ok(())
    }
}

/// The clock of an input: at the end of each `flush_check_period` it says a sweep at that time, a flush of what sweeps have queued, and where
/// a log has grown a checkpoint. A period begins when what was said before is done. Where the clock cannot be read, or shows a time before
/// 1970, it says nothing, and is read again before the next line.
#[derive(Drop)]
pub struct InputClock<'a, H: Clock + Wait, R: Files> {
    rt: &'a H,
    /// The input, where a thread reads it ahead: else nothing can be waited for.
    feed: Option<&'a Feed>,
    periods: Periods<'a, H, R>,
}

impl<'a, H: Clock + Wait, R: Files> InputClock<'a, H, R> {
    /// That beside an input, which says nothing yet; `feed` where a thread reads it ahead. The logs lie in the folder, if there is one.
    pub fn new(
        alloc: Global,
        rt: &'a H,
        feed: Option<&'a Feed>,
        files: &'a R,
        folder: Option<&'a str>,
    ) -> InputClock<'a, H, R> {
        InputClock {
            rt,
            feed,
            periods: Periods::of(alloc, rt, files, folder),
        }
    }
}

impl<'a, H: Clock + Wait, R: Files> Ticker for InputClock<'a, H, R> {
    fn next_tick(&mut self, at_hand: bool) -> Option<Tick> {
        let due = self.periods.due();
        if due.is_some() || at_hand || self.periods.are_none() {
            return due;
        }
        let feed = self.feed?;
        let rest = self.periods.rest().ok()?;
        // A line that has come goes before a period that only now began: periods of nanoseconds would leave it no time.
        if feed.wait(self.rt, rest) {
            return None;
        }
        self.periods.due()
    }
}

impl<'a, H: Clock + Wait, R: Files> Clocked for InputClock<'a, H, R> {
    fn set_periods(&mut self, settings: &Settings) -> Result<(), AllocError> {
        self.periods.begin(settings)?;
        match self.feed {
            Some(feed) if !self.periods.are_none() => feed.begin(self.rt),
            _ => Ok(()),
        }
    }
}
