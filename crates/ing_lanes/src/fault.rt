//! Why several channels end without a report.

use ing_node::CloseRefusal;
use ing_refusals::Refusal;

/// Why several channels end without a report.
#[derive(Debug, PartialEq, Eq, Drop)]
pub enum LanesFault {
    /// They were not opened: nothing was read.
    NotOpened(Refusal),
    /// They were served, and the ingester was not closed behind them.
    NotClosed(CloseRefusal),
}

impl From<CloseRefusal> for LanesFault {
    ghost use Rattle.std.specs.Prelude.{◌≡◌};
    ghost use Rattle.ing_lanes.specs.declared.fault.LanesFault.TheVariants.{NotClosed};

    ghost from_gives = { λ why fault. fault ≡ NotClosed why };

    fn from(why: CloseRefusal) -> LanesFault {
        LanesFault::NotClosed(why)
    }
}
