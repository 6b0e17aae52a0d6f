//! The unknown names and the bad values of a settings file.
ghost use Rattle.std.specs.Prelude.{◌≡◌, ◌++◌, IfOk, MatchOption, codes, option_map};
ghost use Rattle.std.specs.String.{string_bytes};
ghost use Rattle.toml.specs.Data.{no_members};
ghost use Rattle.toml.specs.View.{view, table_view};
ghost use Rattle.ing_limits.specs.Settings as settings;

use crate::keys::{Level, fits, kind_of};
use std::alloc::{AllocError, Global};
use toml::{Table, Value};

/// What can be wrong with a setting.
#[derive(Clone, Copy)]
pub enum Flaw {
    /// Its name is unknown.
    Unknown,
    /// Its value is bad.
    Bad,
}

/// Whether a key with its value has the flaw.
fn has_flaw(flaw: Flaw, level: Level, key: &str, value: &Value) -> bool
    ensures { result ≡ settings.has_flaw flaw level (key.now, view value.now) }
{
    match flaw {
        Flaw::Unknown => kind_of(level, key).is_none(),
        Flaw::Bad => match kind_of(level, key) {
            Some(kind) => !fits(kind, value),
            None => false,
        },
    }
}

/// The one of the two names that comes first in byte order.
fn lesser(least: Option<String>, name: String) -> Option<String>
    ensures { option_map string_bytes result
        ≡ settings.lesser (option_map string_bytes least) (string_bytes name) }
{
    match least {
        None => Some(name),
        Some(least) => {
            if name < least {
                Some(name)
            } else {
                Some(least)
            }
        }
    }
}

/// A name behind a prefix.
fn dotted(alloc: Global, prefix: &str, key: &str) -> Result<String, AllocError>
    ensures { IfOk result (λ name. string_bytes name ≡ prefix.now ++ key.now) }
{
    let mut name = String::from_str(alloc, prefix)?;
    name.push_str(key)?;
    Ok(name)
}

/// The first in byte order of a name and the dotted names of a table's keys with the flaw.
fn least_of_table(
    alloc: Global,
    least: Option<String>,
    flaw: Flaw,
    level: Level,
    prefix: &str,
    table: &Table,
) -> Result<Option<String>, AllocError>
    ensures { let entries = settings.entries_of (table_view table.now) in
        let names = settings.flawed_names flaw level prefix.now entries in
        IfOk result (λ name. option_map string_bytes name
        ≡ settings.least_with (option_map string_bytes least) names) }
{
    let mut found = least;
    for (key, value) in table {
        if has_flaw(flaw, level, key.as_str(), value) {
            found = lesser(found, dotted(alloc, prefix, key.as_str())?);
        }
    }
    Ok(found)
}

/// The prefix of a tenant's keys, as `tenants.acme.`.
fn tenant_prefix(alloc: Global, tenant: &str) -> Result<String, AllocError>
    ensures { IfOk result (λ prefix. string_bytes prefix ≡ (codes "tenants." ++ tenant.now) ++ codes ".") }
{
    let mut prefix = dotted(alloc, "tenants.", tenant)?;
    prefix.push_str(".")?;
    Ok(prefix)
}

/// The first in byte order of a name and the dotted names with the flaw in the tables of the tenants.
fn least_of_tenants(
    alloc: Global,
    least: Option<String>,
    flaw: Flaw,
    tenants: &Table,
) -> Result<Option<String>, AllocError>
    ensures { let entries = settings.entries_of (table_view tenants.now) in
        IfOk result (λ name. option_map string_bytes name
        ≡ settings.least_with (option_map string_bytes least) (settings.tenants_flawed flaw entries)) }
{
    let mut found = least;
    for (tenant, value) in tenants {
        if let Some(table) = value.as_table() {
            let prefix = tenant_prefix(alloc, tenant.as_str())?;
            found = least_of_table(alloc, found, flaw, Level::Tenant, prefix.as_str(), table)?;
        }
    }
    Ok(found)
}

/// The table `tenants`.
pub(crate) fn tenants_in(table: &Table) -> Option<&Table>
    ensures { let members = settings.members_at (codes "tenants") (table_view table.now) in
        MatchOption result (members ≡ no_members) (λ tenants. members ≡ table_view tenants.now) }
{
    match table.get("tenants") {
        Some(value) => value.as_table(),
        None => None,
    }
}

/// The first in byte order of all dotted names with the flaw.
pub(crate) fn first_flawed(
    alloc: Global,
    flaw: Flaw,
    table: &Table,
) -> Result<Option<String>, AllocError>
    ensures { IfOk result (λ name. option_map string_bytes name
        ≡ settings.least_of (settings.all_flawed flaw (table_view table.now))) }
{
    let found = least_of_table(alloc, None, flaw, Level::Top, "", table)?;
    let Some(tenants) = tenants_in(table) else {
        return Ok(found);
    };
    let found = least_of_table(alloc, found, flaw, Level::Tenants, "tenants.", tenants)?;
    least_of_tenants(alloc, found, flaw, tenants)
}
