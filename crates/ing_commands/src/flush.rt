//! The command that flushes.
ghost use Rattle.serde_json.specs.View.{view};
ghost use Rattle.ing_refusals.specs.Results.{Returns};
ghost use Rattle.ing_commands.specs.FlushCommands.{flush_of};
ghost use Rattle.ing_commands.specs.Views.{flush_view};

use crate::fault::LineFault;
use crate::shape::flag_at;
use serde_json::Value;

/// A flush, which uploads the sealed chunks that operations were queued for (Loki documentation: HTTP API, `/flush`).
#[derive(Clone, Copy, Debug)]
pub struct Flush {
    /// Whether each growing chunk is sealed first.
    pub forced: bool,
}

/// The flush that a value with its command says. `BadCommand` where `forced` is neither true nor false; it is forced where
/// there is no such member. Other members are ignored. Takes no memory. (Own.)
#[tactic(auto, unfolding(crate::specs::FlushCommands::flush_of))]
pub fn flush_of(value: &Value) -> Result<Flush, LineFault>
    ensures { Returns flush_view result (flush_of (view value.now)) }
{
    let forced = flag_at(value, "forced", true)?;
    Ok(Flush { forced })
}
