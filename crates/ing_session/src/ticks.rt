//! What a clock says between the lines of an input.
use ing_rows::Stamp;

/// What is done between two lines, because a clock says so.
#[derive(Clone, Copy, Debug, PartialEq, Eq)]
pub enum Tick {
    /// A sweep at this time.
    Sweep { now: Stamp },
    /// A flush of what sweeps have queued.
    Flush,
    /// A checkpoint of each shard.
    Checkpoint,
}

impl Tick {
    ghost use Rattle.std.specs.Prelude.{◌<◌, ◌^◌};
    ghost use Rattle.std.specs.Option.{SomeIff};

    /// A sweep at so many nanoseconds since 1970, or `None` from 2^63 on. Takes no memory.
    pub fn sweep_at(nanoseconds: u64) -> Option<Tick>
        ensures { SomeIff result (nanoseconds < 2 ^ 63) (Tick.Sweep nanoseconds) }
    {
        let now = Stamp::of_nanoseconds(nanoseconds)?;
        Some(Tick::Sweep { now })
    }
}

/// A clock beside an input.
pub trait Ticker {
    ghost use Rattle.std.specs.Prelude.{List, Option, None};
    ghost use Rattle.ing_session.specs.declared.ticks.Tick.{Tick};
    ghost use Rattle.ing_session.specs.Ticks.{GoesOnSaying};

    /// What it has said so far, where that is known.
    ghost said: { Self → Option (List Tick) } = { λ _. None };

    /// What is to be done before a further line is taken, if anything is. Where nothing was read ahead, so that nothing is at hand, it may
    /// wait until there is something to be done or to be read. (Own.)
    fn next_tick(&mut self, at_hand: bool) -> Option<Tick>
        ensures { GoesOnSaying (said self.old) (said self.new) result };
}

/// No clock: it says nothing.
#[derive(Clone, Copy, Debug, PartialEq, Eq)]
pub struct NoTicker;

impl Ticker for NoTicker {
    ghost use Rattle.std.specs.Prelude.{Some, []};

    ghost said = { λ _. Some [] };

    fn next_tick(&mut self, _at_hand: bool) -> Option<Tick> {
        None
    }
}
