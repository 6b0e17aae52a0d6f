//! `ingestctl explain`.
use crate::given::settings;
use crate::output::put;
use crate::paging::value_of;
use crate::status::Status;
use anyhow::Result;
use clap::ArgMatches;
use ctl_explain::{explain, notes_of, stream_notes_of};
use std::alloc::Global;
use std::io::{BufRead, Write};

/// Writes for each line of the input that is refused its number and why, and notes on members that its command does not have.
pub fn explain_lines<I: BufRead, O: Write>(
    rt: &HostRuntime,
    given: &ArgMatches<'_>,
    input: &mut I,
    output: &mut O,
) -> Result<Status> {
    let alloc = rt.alloc();
    let settings = settings(rt, given.get_str("settings"))?;
    let mut line = Vec::new(alloc);
    let mut is_right = true;
    for number in 1..u64::MAX {
        line.clear();
        if input.read_until(b'\n', &mut line)? == 0 {
            break;
        }
        if line.last() == Some(&b'\n') {
            let _ = line.pop();
        }
        let explained = explain(alloc, &settings, &line)?;
        if explained.is_refused() {
            put(
                output,
                format!(in alloc; "line {number}: {explained}\n")?.as_str(),
            )?;
            is_right = false;
        }
        note(alloc, number, &line, output)?;
    }
    Ok(Status::of(is_right))
}

/// Writes a note on each member of a line that its command, or a stream of its push, does not have.
fn note<O: Write>(alloc: Global, number: u64, line: &[u8], output: &mut O) -> Result<()> {
    let Some(value) = value_of(alloc, line)? else {
        return Ok(());
    };
    for note in notes_of(alloc, &value)? {
        put(
            output,
            format!(in alloc; "line {number}: note: {note}\n")?.as_str(),
        )?;
    }
    for note in stream_notes_of(alloc, &value)? {
        put(
            output,
            format!(in alloc; "line {number}: note: {note}\n")?.as_str(),
        )?;
    }
    Ok(())
}
