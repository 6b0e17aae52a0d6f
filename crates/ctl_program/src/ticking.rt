//! `ingestctl tick`.
use crate::given::now;
use crate::output::put;
use crate::status::Status;
use anyhow::Result;
use clap::ArgMatches;
use std::io::Write;

/// Writes the commands that are due from time to time: a sweep at this time, a flush of what is due, and a checkpoint where it is
/// asked for.
pub fn tick<O: Write>(rt: &HostRuntime, given: &ArgMatches<'_>, output: &mut O) -> Result<Status> {
    let now = now(rt, given)?.nanoseconds();
    let mut text = format!(in rt.alloc();
        "{{\"cmd\":\"sweep\",\"now\":\"{now}\"}}\n{{\"cmd\":\"flush\",\"forced\":false}}\n"
    )?;
    if given.get_flag("checkpoint") {
        text.push_str("{\"cmd\":\"checkpoint\"}\n")?;
    }
    put(output, text.as_str())?;
    Ok(Status::Right)
}
