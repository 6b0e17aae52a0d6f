//! `ingestctl settings`.
use crate::given::settings_text;
use crate::output::put;
use crate::status::Status;
use anyhow::{Context, Result, bail};
use clap::ArgMatches;
use ctl_explain::{SettingsRefusal, rules_in_force, setting_hint, settings_in_force};
use ing_limits::Settings;
use ing_rows::Tenant;
use std::io::Write;

/// Writes the settings in force, or those for a tenant, or why the file is refused.
pub fn show_settings<O: Write>(
    rt: &HostRuntime,
    given: &ArgMatches<'_>,
    output: &mut O,
) -> Result<Status> {
    let text = settings_text(rt, given.get_str("file"))?;
    let shown = match given.get_str("tenant") {
        Some(name) => shown_for(rt, text.as_str(), name)?,
        None => settings_in_force(rt.alloc(), text.as_str()),
    };
    match shown {
        Ok(shown) => {
            put(output, shown.as_str())?;
            Ok(Status::Right)
        }
        Err(SettingsRefusal::NoMemory) => bail!("out of memory"),
        Err(refusal) => {
            let hint = match &refusal {
                SettingsRefusal::Refused(fault) => setting_hint(rt.alloc(), text.as_str(), fault)?,
                _ => String::new(rt.alloc()),
            };
            put(
                output,
                format!(in rt.alloc(); "{refusal}{hint}\n")?.as_str(),
            )?;
            Ok(Status::Wrong)
        }
    }
}

/// The settings in force for a tenant.
fn shown_for(rt: &HostRuntime, text: &str, name: &str) -> Result<Result<String, SettingsRefusal>> {
    let tenant = Tenant::of_text(rt.alloc(), name).context("--tenant is no tenant id")?;
    if let Err(refusal) = settings_in_force(rt.alloc(), text) {
        return Ok(Err(refusal));
    }
    let settings = Settings::from_toml(rt.alloc(), text)?;
    Ok(Ok(rules_in_force(rt.alloc(), &settings, &tenant)?))
}
