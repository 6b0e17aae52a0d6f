//! `ingestctl refusals`.
use crate::output::put;
use crate::status::Status;
use anyhow::{Result, bail};
use clap::ArgMatches;
use ctl_explain::{page_for, pages};
use std::io::Write;

/// Writes what a refusal means, or all.
pub fn show_refusals<O: Write>(
    rt: &HostRuntime,
    given: &ArgMatches<'_>,
    output: &mut O,
) -> Result<Status> {
    let alloc = rt.alloc();
    let Some(word) = given.get_str("which") else {
        for page in pages() {
            put(output, format!(in alloc; "{page}\n")?.as_str())?;
        }
        return Ok(Status::Right);
    };
    match page_for(word) {
        Some(page) => put(output, format!(in alloc; "{page}")?.as_str())?,
        None => bail!("no refusal has the number or the name {word}"),
    }
    Ok(Status::Right)
}
