//! What the argument words of a command give.
use anyhow::{Context, Result, bail};
use clap::ArgMatches;
use ing_limits::Settings;
use ing_rows::{RowFault, Stamp, Tenant};
use std::fs;
use std::time::{SystemTime, UNIX_EPOCH};

/// What is told of a text that is no tenant id.
const NO_TENANT: &str = "a tenant id has 1 to 150 letters, digits and any of !-_.*'()";

/// The tenant of `--tenant`.
pub fn tenant(rt: &HostRuntime, given: &ArgMatches<'_>) -> Result<Tenant> {
    let text = given.get_str("tenant").context("--tenant")?;
    match Tenant::of_text(rt.alloc(), text) {
        Ok(tenant) => Ok(tenant),
        Err(RowFault::NoMemory) => bail!("out of memory"),
        Err(_) => bail!("--tenant: {text}: {NO_TENANT}"),
    }
}

/// The time of `--now`, or this moment.
pub fn now(rt: &HostRuntime, given: &ArgMatches<'_>) -> Result<Stamp> {
    match given.get_str("now") {
        Some(text) => match Stamp::of_text(text) {
            Ok(now) => Ok(now),
            Err(_) => bail!("--now: {text}: nanoseconds since 1970 are wanted"),
        },
        None => {
            let since = SystemTime::now(rt)?.duration_since(UNIX_EPOCH)?;
            let nanoseconds = u64::try_from(since.as_nanos()).context("the clock")?;
            Stamp::of_nanoseconds(nanoseconds).context("the clock shows no stamp")
        }
    }
}

/// The text of the settings file at a path, an empty one without a path.
pub fn settings_text(rt: &HostRuntime, path: Option<&str>) -> Result<String> {
    match path {
        Some(path) => Ok(fs::read_to_string(rt, path).context(path)?),
        None => Ok(String::new(rt.alloc())),
    }
}

/// The settings of that text.
pub fn settings(rt: &HostRuntime, path: Option<&str>) -> Result<Settings> {
    let text = settings_text(rt, path)?;
    Ok(Settings::from_toml(rt.alloc(), text.as_str())?)
}
