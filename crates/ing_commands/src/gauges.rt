//! The command that asks for the gauges of a tenant.
ghost use Rattle.serde_json.specs.View.{view};
ghost use Rattle.ing_refusals.specs.Results.{Gives};
ghost use Rattle.ing_commands.specs.GaugesCommands.{gauges_of};
ghost use Rattle.ing_commands.specs.Views.{gauges_view};

use crate::fault::LineFault;
use crate::shape::text_at;
use ing_rows::Tenant;
use serde_json::Value;
use std::alloc::Global;

/// A question for the gauges of a tenant (own).
#[derive(Debug, Drop)]
pub struct GaugesOf {
    /// Whose they are.
    pub tenant: Tenant,
}

/// What a value with its command asks for. `BadCommand` where `tenant` is missing or no text, and then `BadTenant` where it is
/// no tenant id. Other members are ignored. (Own.)
#[tactic(auto, unfolding(crate::specs::GaugesCommands::gauges_of))]
pub fn gauges_of(alloc: Global, value: &Value) -> Result<GaugesOf, LineFault>
    ensures { Gives LineFault.NoMemory gauges_view result (gauges_of (view value.now)) }
{
    let tenant = Tenant::of_text(alloc, text_at(value, "tenant")?)?;
    Ok(GaugesOf { tenant })
}
