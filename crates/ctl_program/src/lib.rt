//! A person's side of `ingestd`, as a program: argument words, an input, an output and a place for errors.
#![tactic(auto)]

mod arguments;
mod checking;
mod explaining;
mod exporting;
mod feeding;
mod given;
mod in_force;
mod labelling;
mod loading;
mod looking;
mod mending;
mod output;
mod paging;
mod progress;
mod querying;
mod refusals;
mod showing;
mod status;
mod ticking;
mod wrapping;

use anyhow::Result;
use arguments::command;
use clap::ArgMatches;
pub use ing_folder::hold_streams;
use output::put;
pub use status::Status;
use std::io::{BufRead, Write};

/// Does what the argument words say, of which the first is the program's name: reads from files and `input`, writes to `output`, and
/// tells on `errors` what is wrong. `Unread` where it could not be done, with one line on `errors` that says why. (Own.)
pub fn run<I: BufRead, O: Write, E: Write>(
    rt: &HostRuntime,
    words: &[String],
    input: &mut I,
    output: &mut O,
    errors: &mut E,
) -> Status {
    match run_words(rt, words, input, output, errors) {
        Ok(status) => status,
        Err(error) => {
            if let Ok(text) = format!(in rt.alloc(); "ingestctl: {error:#}\n") {
                let _ = errors.write_all(text.as_bytes());
            }
            Status::Unread
        }
    }
}

fn run_words<I: BufRead, O: Write, E: Write>(
    rt: &HostRuntime,
    words: &[String],
    input: &mut I,
    output: &mut O,
    errors: &mut E,
) -> Result<Status> {
    match command(rt.alloc())?.try_get_matches_from(words) {
        Ok(matches) => run_chosen(rt, &matches, input, output, errors),
        Err(error) => {
            let text = format!(in rt.alloc(); "{error}")?;
            if error.use_stderr() {
                put(errors, text.as_str())?;
                return Ok(Status::Unread);
            }
            put(output, text.as_str())?;
            Ok(Status::Right)
        }
    }
}

/// Does what the subcommand says.
fn run_chosen<I: BufRead, O: Write, E: Write>(
    rt: &HostRuntime,
    matches: &ArgMatches<'_>,
    input: &mut I,
    output: &mut O,
    errors: &mut E,
) -> Result<Status> {
    match matches.subcommand() {
        Some(("load", given)) => loading::load(rt, given, input, output, errors),
        Some(("wrap", given)) => wrapping::wrap(rt, given, input, output, errors),
        Some(("explain", given)) => explaining::explain_lines(rt, given, input, output),
        Some(("settings", given)) => in_force::show_settings(rt, given, output),
        Some(("show", given)) => showing::show_files(rt, given, output),
        Some(("check", given)) => checking::check_folder(rt, given, output),
        Some(("mend", given)) => mending::mend_folder(rt, given, output),
        Some(("export", given)) => exporting::export_folder(rt, given, output, errors),
        Some(("refusals", given)) => refusals::show_refusals(rt, given, output),
        Some(("tick", given)) => ticking::tick(rt, given, output),
        Some(("query", given)) => querying::query(rt, given, output),
        Some(("entries", given)) => paging::write_entries(rt, given, input, output),
        Some(("next", given)) => paging::write_next(rt, given, input, output, errors),
        _ => Ok(Status::Unread),
    }
}
