//! What several shards tell, summed.
use anyhow::{Context, Result};
use serde_json::Value;
use std::alloc::Global;

/// Where a reply has a member for each shard, and what is summed there.
const SUMMED: [(&str, &[&str]); 4] = [
    (
        "/gauges",
        &[
            "/block/bytes",
            "/block/entries",
            "/flight/bytes",
            "/flight/entries",
            "/head/bytes",
            "/head/entries",
            "/stored/bytes",
            "/stored/entries",
            "/streams",
        ],
    ),
    ("/board", &["/accepted", "/stored"]),
    ("/report", &["/accepted", "/kept", "/recovered", "/stored"]),
    ("/query/fronts", &[""]),
];

/// Whether the lines of one shard are those of several, where what these tell is summed over the shards.
pub fn are_summed(alloc: Global, one: &[u8], several: &[u8]) -> Result<bool> {
    let one = str::from_utf8(one).ok().context("text")?;
    let several = str::from_utf8(several).ok().context("text")?;
    let mut lines = several.lines();
    for line in one.lines() {
        let Some(other) = lines.next() else {
            return Ok(false);
        };
        if line != other && !is_summed(alloc, line, other)? {
            return Ok(false);
        }
    }
    Ok(lines.next().is_none())
}

/// Whether a reply of one shard is that of several, summed.
fn is_summed(alloc: Global, one: &str, several: &str) -> Result<bool> {
    let one = Value::from_str(alloc, one)?;
    let several = Value::from_str(alloc, several)?;
    if !is_same(alloc, &one, &several, "/query/entries")?
        || !is_same(alloc, &one, &several, "/query/next")?
    {
        return Ok(false);
    }
    let mut found = false;
    for (place, parts) in SUMMED {
        if let (Some(one), Some(several)) = (one.pointer(place), several.pointer(place)) {
            found = true;
            for part in parts {
                if sum_at(one, part).is_none() || sum_at(one, part) != sum_at(several, part) {
                    return Ok(false);
                }
            }
        }
    }
    Ok(found)
}

/// Whether both have the same member at a place, or none.
fn is_same(alloc: Global, one: &Value, several: &Value, place: &str) -> Result<bool> {
    Ok(text_at(alloc, one, place)? == text_at(alloc, several, place)?)
}

/// The text of a member, or none.
fn text_at(alloc: Global, value: &Value, place: &str) -> Result<Option<String>> {
    match value.pointer(place) {
        Some(member) => Ok(Some(member.to_string(alloc)?)),
        None => Ok(None),
    }
}

/// The sum of a part over all members of a list, each a number or the text of one.
fn sum_at(list: &Value, part: &str) -> Option<u64> {
    let mut sum = 0u64;
    for member in list.as_array()? {
        let value = member.pointer(part)?;
        let number = match value.as_str() {
            Some(text) => text.parse::<u64>().ok()?,
            None => value.as_u64()?,
        };
        sum = sum.checked_add(number)?;
    }
    Some(sum)
}
