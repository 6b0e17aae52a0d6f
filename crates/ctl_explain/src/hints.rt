//! What is told of a setting that is refused. No clause speaks of it.
use crate::nearest::nearest;
use ing_limits::SettingsFault;
use std::alloc::{AllocError, Global};

/// A setting: its name, what it may be, and whether a tenant may have its own.
type Setting = (&'static str, &'static str, bool);

/// What a duration is.
const DURATION: &str = "a duration, as \"30m\" or \"1h30m\"";

/// The settings there are, but for the tables of tenants (docs/COMMANDS.md, "Settings").
static SETTINGS: [Setting; 16] = [
    ("shards", "an integer from 1 to 64", false),
    ("flushers", "an integer from 1 to 32", false),
    ("flush_queue_length", "an integer from 1 to 65536", false),
    ("flush_check_period", DURATION, false),
    (
        "checkpoint_log_size",
        "an integer from 0 to 1099511627776",
        false,
    ),
    ("diaries", "true or false", false),
    ("chunk_block_size", "an integer from 1 to 1073741824", false),
    (
        "chunk_target_size",
        "an integer from 1 to 1073741824",
        false,
    ),
    ("chunk_idle_period", DURATION, false),
    ("max_chunk_age", DURATION, false),
    ("max_label_names", "an integer from 1 to 64", true),
    ("max_label_name_length", "an integer from 1 to 1024", true),
    ("max_label_value_length", "an integer from 1 to 2048", true),
    ("max_line_size", "an integer from 1 to 262144", true),
    (
        "max_streams_per_tenant",
        "an integer from 1 to 4294967295",
        true,
    ),
    ("max_entries_per_push", "an integer from 1 to 10000", true),
];

/// What helps with a setting of a text that is refused, as `, line 1: an integer from 1 to 64` or
/// `, line 3: max_line_size?`; nothing where nothing is known. It fails only where memory runs out. (Own.)
pub fn setting_hint(
    alloc: Global,
    text: &str,
    fault: &SettingsFault,
) -> Result<String, AllocError> {
    let (name, hint) = match fault {
        SettingsFault::UnknownSetting { name } => (name.as_str(), meant_by(alloc, name.as_str())?),
        SettingsFault::BadSetting { name } => (name.as_str(), range_of(name.as_str())),
        _ => return Ok(String::new(alloc)),
    };
    let end = match hint {
        Some(Hint::Range(range)) => format!(in alloc; ": {range}")?,
        Some(Hint::Name(name)) => format!(in alloc; ": {name}?")?,
        Some(Hint::OfAll) => String::from_str(alloc, ": of all tenants together, not of one")?,
        None => String::new(alloc),
    };
    match line_of(alloc, text, name)? {
        Some(line) => format!(in alloc; ", line {line}{end}"),
        None => Ok(end),
    }
}

/// What helps with a setting.
enum Hint {
    /// What it may be.
    Range(&'static str),
    /// The name that may be meant.
    Name(&'static str),
    /// It is one of all tenants together.
    OfAll,
}

/// The last part of a dotted name, and whether a tenant's table has it.
fn last_part(name: &str) -> (&str, bool) {
    match name.rsplit_once('.') {
        Some((_, last)) => (last, true),
        None => (name, false),
    }
}

/// What a setting may be.
fn range_of(name: &str) -> Option<Hint> {
    let (last, _) = last_part(name);
    let setting = SETTINGS.iter().find(|setting| setting.0 == last)?;
    Some(Hint::Range(setting.1))
}

/// Which setting may be meant.
fn meant_by(alloc: Global, name: &str) -> Result<Option<Hint>, AllocError> {
    let (last, is_rule) = last_part(name);
    let mut names = Vec::new(alloc);
    for setting in &SETTINGS {
        if is_rule && setting.0 == last {
            return Ok(Some(Hint::OfAll));
        }
        if setting.2 || !is_rule {
            names.push(setting.0)?;
        }
    }
    Ok(nearest(alloc, last, &names)?.map(Hint::Name))
}

/// The line of a dotted name in a TOML text, from 1, where its table and its key stand in lines of their own.
fn line_of(alloc: Global, text: &str, name: &str) -> Result<Option<u64>, AllocError> {
    let mut table = String::new(alloc);
    let mut number = 0u64;
    for line in text.lines() {
        number = number.saturating_add(1);
        let line = line.trim();
        if let Some((header, _)) = line.strip_prefix('[').and_then(|rest| rest.split_once(']')) {
            table.clear();
            push_key(&mut table, header)?;
            if table.as_str() == name {
                return Ok(Some(number));
            }
            table.push_str(".")?;
        } else if let Some((key, _)) = line.split_once('=') {
            let mut full = String::from_str(alloc, table.as_str())?;
            push_key(&mut full, key)?;
            if full.as_str() == name {
                return Ok(Some(number));
            }
        }
    }
    Ok(None)
}

/// Puts a key without its spaces and quotes behind a text.
fn push_key(text: &mut String, key: &str) -> Result<(), AllocError> {
    for letter in key.chars() {
        if !matches!(letter, ' ' | '\t' | '"' | '\'') {
            text.push(letter)?;
        }
    }
    Ok(())
}
