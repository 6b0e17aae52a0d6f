//! `ingestctl query`.
use crate::given::{now, settings};
use crate::output::put;
use crate::status::Status;
use anyhow::{Context, Result, bail};
use clap::ArgMatches;
use ctl_explain::{Explained, explain};
use ing_commands::{Command, command_of};
use ing_rows::Stamp;
use jiff::Timestamp;
use serde_json::{Map, Number, Value, put as put_member};
use std::alloc::AllocError;
use std::io::Write;

/// The members of a query that are texts, by the names of their words.
const TEXTS: [&str; 3] = ["tenant", "query", "direction"];

/// The units of a duration, with their seconds.
const UNITS: [(char, u64); 5] = [
    ('s', 1),
    ('m', 60),
    ('h', 3_600),
    ('d', 86_400),
    ('w', 604_800),
];

/// What is told of a text that is no duration.
const NO_DURATION: &str = "--since wants a number and s, m, h, d or w, as 90m";

/// What is told of a text that is no selector.
const NO_SELECTOR: &str =
    "a selector is as {job=\"app\",host!=\"b\"}, with one = and a value at least";

/// What is told of a text that is no time.
const NO_TIME: &str =
    "nanoseconds since 1970 are wanted, or a time with its zone, as 2026-01-01T00:00:00Z";

/// The first number of nanoseconds that is no stamp: an end may be it.
const STAMP_END: &str = "9223372036854775808";

/// How many entries one answer has at most.
const MOST: u64 = 5000;

/// Writes the line of a query, or fails with the refusal that it would have.
pub fn query<O: Write>(rt: &HostRuntime, given: &ArgMatches<'_>, output: &mut O) -> Result<Status> {
    let alloc = rt.alloc();
    let value = Value::Object(members(rt, given)?);
    let mut line = value.to_vec(alloc)?;
    let explained = explain(alloc, &settings(rt, None)?, &line)?;
    if explained.is_refused() {
        match &explained {
            Explained::Query(_) => bail!("{explained}: {NO_SELECTOR}"),
            _ => bail!("{explained}"),
        }
    }
    if let Ok(Command::Query(query)) = command_of(alloc, &value) {
        if query.start >= query.end {
            bail!("the start is not before the end, so no entry is asked for");
        }
    }
    line.push(b'\n').map_err(AllocError::from)?;
    output.write_all(&line)?;
    Ok(Status::Right)
}

/// The members of a query.
fn members(rt: &HostRuntime, given: &ArgMatches<'_>) -> Result<Map<String, Value>> {
    let alloc = rt.alloc();
    let mut members = Map::new(alloc);
    put_member(
        &mut members,
        alloc,
        "cmd",
        Value::try_from_str(alloc, "query")?,
    )?;
    for name in TEXTS {
        if let Some(text) = given.get_str(name) {
            put_member(&mut members, alloc, name, Value::try_from_str(alloc, text)?)?;
        }
    }
    for name in ["start", "end"] {
        if let Some(text) = given.get_str(name) {
            put_member(&mut members, alloc, name, moment(rt, name, text)?)?;
        }
    }
    if let Some(text) = given.get_str("since") {
        let start = now(rt, given)?
            .nanoseconds()
            .saturating_sub(duration_in(text)?);
        let digits = start.to_string(alloc)?;
        put_member(&mut members, alloc, "start", Value::String(digits))?;
    }
    if let Some(text) = given.get_str("limit") {
        let limit = Value::Number(Number::from(limit_in(text)?));
        put_member(&mut members, alloc, "limit", limit)?;
    }
    if given.get_flag("pages") {
        put_member(&mut members, alloc, "pages", Value::Bool(true))?;
    }
    Ok(members)
}

/// How many entries are asked for.
fn limit_in(text: &str) -> Result<u64> {
    match text.parse::<u64>() {
        Ok(limit) if limit > 0 && limit <= MOST => Ok(limit),
        _ => bail!("--limit: {text}: a number from 1 to {MOST} is wanted"),
    }
}

/// The stamp of a time of RFC 3339 in digits; that of digits as it is.
fn moment(rt: &HostRuntime, name: &str, text: &str) -> Result<Value> {
    let alloc = rt.alloc();
    if let Some(stamp) = instant_in(text) {
        return Ok(Value::String(stamp.nanoseconds().to_string(alloc)?));
    }
    if text != STAMP_END && Stamp::of_text(text).is_err() {
        bail!("--{name}: {text}: {NO_TIME}");
    }
    Ok(Value::try_from_str(alloc, text)?)
}

/// The instant that a text is.
fn instant_in(text: &str) -> Option<Stamp> {
    let instant = text.parse::<Timestamp>().ok()?;
    Stamp::of_nanoseconds(u64::try_from(instant.as_nanosecond()).ok()?)
}

/// The nanoseconds of a number and a unit, as `90m`.
fn duration_in(text: &str) -> Result<u64> {
    for (unit, seconds) in &UNITS {
        if let Some(digits) = text.strip_suffix(*unit) {
            let count = digits.parse::<u64>().context(NO_DURATION)?;
            return Ok(count.saturating_mul(*seconds).saturating_mul(1_000_000_000));
        }
    }
    bail!("{NO_DURATION}")
}
