//! The commands that ask for catalogs of streams: their names, and their labels.
ghost use Rattle.std.specs.Prelude.{option_map};
ghost use Rattle.serde_json.specs.View.{view};
ghost use Rattle.ing_refusals.specs.Results.{Gives};
ghost use Rattle.ing_rows.specs.Facets.{facet_view};
ghost use Rattle.ing_commands.specs.CatalogCommands.{catalog_for, labels_of, series_of};
ghost use Rattle.ing_commands.specs.Views.{catalog_view};

use crate::fault::LineFault;
use crate::shape::{maybe_text_at, text_at};
use ing_rows::{Facet, Tenant};
use serde_json::Value;
use std::alloc::Global;

/// A question for a catalog of streams (Loki documentation: HTTP API, list series, list labels, list the values of a label).
#[derive(Debug, Drop)]
pub struct Catalog<'a> {
    /// Whose streams are listed.
    pub tenant: Tenant,
    /// The text of a selector, where not all of them are.
    pub text: Option<&'a str>,
    /// What of them is listed.
    pub facet: Facet<'a>,
}

/// The question for names of streams that a value with its command says. `BadCommand` where `tenant` is missing or no text, or `query`
/// is there and no text, and then `BadTenant` where the tenant is no tenant id. Other members are ignored. (Loki documentation: HTTP
/// API, list series; the command's form is own.)
#[tactic(auto, unfolding(crate::specs::CatalogCommands::series_of))]
pub fn series_of(alloc: Global, value: &Value) -> Result<Catalog<'_>, LineFault>
    ensures { Gives LineFault.NoMemory catalog_view result (series_of (view value.now)) }
{
    let tenant = text_at(value, "tenant")?;
    let text = maybe_text_at(value, "query")?;
    catalog_for(alloc, tenant, text, Facet::Series)
}

/// The question for the names of labels, or for the values of the one that `name` names. The faults are those of `series_of`, and
/// `BadCommand` where `name` is there and no text. (Loki documentation: HTTP API, list labels, list the values of a label; the command's
/// form is own.)
#[tactic(auto, unfolding(crate::specs::CatalogCommands::labels_of))]
pub fn labels_of(alloc: Global, value: &Value) -> Result<Catalog<'_>, LineFault>
    ensures { Gives LineFault.NoMemory catalog_view result (labels_of (view value.now)) }
{
    let tenant = text_at(value, "tenant")?;
    let text = maybe_text_at(value, "query")?;
    match maybe_text_at(value, "name")? {
        Some(name) => catalog_for(alloc, tenant, text, Facet::Values(name)),
        None => catalog_for(alloc, tenant, text, Facet::Labels),
    }
}

/// The catalog of these texts; `BadTenant` where the first is no tenant id.
fn catalog_for<'a>(
    alloc: Global,
    tenant: &str,
    text: Option<&'a str>,
    facet: Facet<'a>,
) -> Result<Catalog<'a>, LineFault>
    ensures { Gives LineFault.NoMemory catalog_view result
        (catalog_for tenant.now (option_map (λ t. t.now) text.entry) (facet_view facet.entry)) }
{
    let tenant = Tenant::of_text(alloc, tenant)?;
    Ok(Catalog {
        tenant,
        text,
        facet,
    })
}
