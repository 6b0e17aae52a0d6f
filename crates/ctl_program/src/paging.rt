//! `ingestctl entries` and `ingestctl next`: all entries of a query, page by page.
use crate::output::put;
use crate::status::Status;
use anyhow::{Context, Result, bail};
use clap::ArgMatches;
use ctl_pages::{ReplyFault, Told, Wanted, may_answer, next_of, page_of};
use ing_commands::{Command, LineFault, Query, command_of, read_value};
use ing_rows::{Cursor, Order};
use serde_json::{Number, Value, json};
use std::alloc::{AllocError, Global};
use std::fs;
use std::io::{BufRead, Write};

/// What a reply is called that comes from standard input.
const INPUT: &str = "standard input";

/// What is told of a reply to another command.
const NO_ANSWER: &str = "no reply to a query";

/// What is told of a full page of a query that asks for no pages.
const NO_PAGES: &str = "ask with \"pages\":true, to be told where the next page begins";

/// Writes the entries of a reply to a query, each as its line or as a JSON object.
pub fn write_entries<I: BufRead, O: Write>(
    rt: &HostRuntime,
    given: &ArgMatches<'_>,
    input: &mut I,
    output: &mut O,
) -> Result<Status> {
    let alloc = rt.alloc();
    let source = given.get_str("reply");
    let reply = reply_at(rt, source, input)?;
    let is_raw = given.get_str("output") != Some("jsonl");
    for told in &page_in(alloc, source, &reply)? {
        let mut text = if is_raw {
            told.line.as_str().as_bytes().to_vec(alloc)?
        } else {
            entry_value(alloc, told)?.to_vec(alloc)?
        };
        text.push(b'\n').map_err(AllocError::from)?;
        output.write_all(&text)?;
    }
    Ok(Status::Right)
}

/// Writes the query behind a page, or tells that it was the last one.
pub fn write_next<I: BufRead, O: Write, E: Write>(
    rt: &HostRuntime,
    given: &ArgMatches<'_>,
    input: &mut I,
    output: &mut O,
    errors: &mut E,
) -> Result<Status> {
    let alloc = rt.alloc();
    let path = given.get_str("asked").context("ASKED")?;
    let Some(asked) = value_of(alloc, &fs::read(rt, path).context(path)?)? else {
        bail!("{path}: no query: it is no JSON object in one line");
    };
    let query = match command_of(alloc, &asked) {
        Ok(Command::Query(query)) => query,
        Err(LineFault::NoMemory) => bail!("out of memory"),
        _ => bail!("{path}: no query that ingestd takes"),
    };
    let source = given.get_str("reply");
    let reply = reply_at(rt, source, input)?;
    let page = page_in(alloc, source, &reply)?;
    let next = next_in(source, &reply)?;
    if !may_answer(wanted_of(&query), &page, next) {
        bail!("the reply does not answer {path}: it has other entries, or tells another end");
    }
    match next {
        Some(place) => {
            let mut line = query_value(alloc, &query, place)?.to_vec(alloc)?;
            line.push(b'\n').map_err(AllocError::from)?;
            output.write_all(&line)?;
        }
        None if page.len() < query.limit => put(errors, "ingestctl: that was the last page\n")?,
        None => bail!("{path}: {NO_PAGES}"),
    }
    Ok(Status::Right)
}

/// Which entries a query wants.
fn wanted_of<'a>(query: &Query<'a>) -> Wanted<'a> {
    Wanted {
        start: query.start,
        end: query.end,
        limit: query.limit,
        order: query.order,
        after: query.after,
        pages: query.pages,
    }
}

/// The command of a query that wants the same behind this place.
fn query_value(alloc: Global, query: &Query<'_>, place: Cursor<'_>) -> Result<Value, AllocError> {
    let direction = match query.order {
        Order::Forward => "forward",
        Order::Backward => "backward",
    };
    json!(in alloc; {
        "after": place_value(alloc, place)?,
        "cmd": "query",
        "direction": direction,
        "end": query.end.to_string(alloc)?,
        "limit": Value::Number(Number::from(query.limit as u64)),
        "pages": query.pages,
        "query": query.text,
        "start": query.start.to_string(alloc)?,
        "tenant": query.tenant.as_str()
    })
}

/// A place as a query has it.
fn place_value(alloc: Global, place: Cursor<'_>) -> Result<Value, AllocError> {
    json!(in alloc; {
        "number": Value::Number(Number::from(place.number)),
        "stamp": place.stamp.to_string(alloc)?,
        "stream": place.stream
    })
}

/// An entry as an answer has it.
fn entry_value(alloc: Global, told: &Told) -> Result<Value, AllocError> {
    json!(in alloc; {
        "line": told.line.as_str(),
        "stamp": told.stamp.nanoseconds().to_string(alloc)?,
        "stream": told.stream.as_str()
    })
}

/// The reply in a file, or in the input, unless it is a refusal.
fn reply_at<I: BufRead>(rt: &HostRuntime, path: Option<&str>, input: &mut I) -> Result<Value> {
    let alloc = rt.alloc();
    let name = path.unwrap_or(INPUT);
    let bytes = match path {
        Some(path) => fs::read(rt, path).context(path)?,
        None => {
            let mut bytes = Vec::new(alloc);
            input.read_to_end(&mut bytes)?;
            bytes
        }
    };
    if bytes.is_empty() {
        bail!("{name}: no reply: it is empty");
    }
    let Some(reply) = value_of(alloc, &bytes)? else {
        bail!("{name}: no reply: it is not one line of JSON");
    };
    if let Some(error) = reply.get("error").and_then(Value::as_str) {
        bail!("{name}: the query was refused: {error}");
    }
    Ok(reply)
}

/// The entries of the reply in a file, or in the input.
fn page_in(alloc: Global, path: Option<&str>, reply: &Value) -> Result<Vec<Told>> {
    match page_of(alloc, reply) {
        Ok(page) => Ok(page),
        Err(ReplyFault::NoAnswer) => bail!("{}: {NO_ANSWER}", path.unwrap_or(INPUT)),
        Err(ReplyFault::NoMemory) => bail!("out of memory"),
    }
}

/// The place behind which the next page begins, where that reply tells one.
fn next_in<'a>(path: Option<&str>, reply: &'a Value) -> Result<Option<Cursor<'a>>> {
    match next_of(reply) {
        Ok(next) => Ok(next),
        Err(_) => bail!("{}: {NO_ANSWER}", path.unwrap_or(INPUT)),
    }
}

/// The JSON object in this line, if it is one.
pub fn value_of(alloc: Global, line: &[u8]) -> Result<Option<Value>> {
    match read_value(alloc, line) {
        Ok(value) => Ok(Some(value)),
        Err(LineFault::NoMemory) => bail!("out of memory"),
        Err(_) => Ok(None),
    }
}
