//! The command that sweeps.
ghost use Rattle.serde_json.specs.View.{view};
ghost use Rattle.ing_refusals.specs.Results.{Returns};
ghost use Rattle.ing_commands.specs.SweepCommands.{sweep_of};
ghost use Rattle.ing_commands.specs.Views.{sweep_view};

use crate::fault::LineFault;
use crate::shape::text_at;
use ing_rows::Stamp;
use serde_json::Value;

/// A sweep, which seals the chunks that are due (Loki documentation: ingester configuration,
/// chunk_idle_period and max_chunk_age).
#[derive(Clone, Copy, Debug)]
pub struct Sweep {
    /// When it is made.
    pub now: Stamp,
}

/// The sweep that a value with its command says. `BadCommand` where `now` is missing or no text, and
/// then `BadStamp` where it is no stamp. Other members are ignored. Takes no memory. (Own.)
#[tactic(auto, unfolding(crate::specs::SweepCommands::sweep_of))]
pub fn sweep_of(value: &Value) -> Result<Sweep, LineFault>
    ensures { Returns sweep_view result (sweep_of (view value.now)) }
{
    let now = Stamp::of_text(text_at(value, "now")?)?;
    Ok(Sweep { now })
}
