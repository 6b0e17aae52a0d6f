//! `ingestctl wrap`.
use crate::feeding::fed;
use crate::given::{now, tenant};
use crate::output::put;
use crate::status::Status;
use anyhow::Result;
use clap::ArgMatches;
use ctl_feed::{Wrapped, wrap_input};
use ing_refusals::Refusal;
use std::io::{BufRead, Write};

/// What is told of a line that is no body.
const BODY: &str =
    ": a body is a line {\"streams\":[{\"stream\":{\"NAME\":\"VALUE\"},\"values\":[[\"STAMP\",\"LINE\"]]}]}";

/// Writes the push command of each body, one a line of the input, and tells by its line what is refused.
pub fn wrap<I: BufRead, O: Write, E: Write>(
    rt: &HostRuntime,
    given: &ArgMatches<'_>,
    input: &mut I,
    output: &mut O,
    errors: &mut E,
) -> Result<Status> {
    let alloc = rt.alloc();
    let tenant = tenant(rt, given)?;
    let mut before = 0u64;
    for _ in 0..u64::MAX {
        match fed(wrap_input(alloc, input, output, &tenant, now(rt, given)?))? {
            Wrapped::All => break,
            Wrapped::Refused { line, fault } => {
                before = before.saturating_add(line);
                let (code, name) = (fault.refusal().number(), fault.refusal().name());
                let hint = match fault.refusal() {
                    Refusal::BadCommand => BODY,
                    _ => "",
                };
                put(
                    errors,
                    format!(in alloc; "line {before}: {code} {name}{hint}\n")?.as_str(),
                )?;
            }
        }
    }
    Ok(Status::of(before == 0))
}
