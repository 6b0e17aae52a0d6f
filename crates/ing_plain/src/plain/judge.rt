//! How the slow program judges an entry: by looking through all rows.
ghost use Rattle.std.specs.Prelude.{◌≡◌, ◌+◌, ◌&&◌, ◌==◌, All, List, length, reverse, false};
ghost use Rattle.std.specs.Option.{option_map};
ghost use Rattle.ing_rows.specs.Rows as model;
ghost use Rattle.ing_rows.specs.Verdicts.{verdict_of, is_entry};
ghost use Rattle.ing_rows.specs.Rows.{stream};
ghost use Rattle.ing_plain.specs.Plain.{AreCounted};

use super::row::PlainRow;
use ing_rows::{Entry, Rules, Tenant, Verdict, window_limit};

/// The verdict of the model for an entry after these rows.
pub fn judge(
    rows: &[PlainRow],
    rules: &Rules,
    tenant: &Tenant,
    name: &str,
    entry: &Entry,
) -> Verdict
    requires counted { AreCounted (reverse rows.now) }
    requires unstored { All (λ r. model.is_stored r.place ≡ false) (reverse rows.now) }
    ensures { let s = stream tenant.now name.now in
        result ≡ verdict_of (reverse rows.now) rules.now s entry.now }
{
    if entry.line.len() as u64 > rules.max_line_size {
        return Verdict::LineTooLong;
    }
    let count = count_of(rows, tenant, name);
    let limit = window_limit(highest_of(rows, tenant, name), rules.max_chunk_age);
    if count > 0 && entry.stamp.nanoseconds() < limit {
        return Verdict::TooFarBehind { limit };
    }
    if is_last(rows, tenant, name, entry) {
        return Verdict::Duplicate;
    }
    if count == 0 {
        let live = live_streams(rows, tenant) as u64;
        if live >= rules.max_streams_per_tenant {
            return Verdict::TooManyStreams { live };
        }
    }
    Verdict::Accepted {
        number: count as u64,
    }
}

/// How many entries a stream has had accepted.
pub fn count_of(rows: &[PlainRow], tenant: &Tenant, name: &str) -> usize
    ensures count { result ≡ model.count_of (reverse rows.now) (stream tenant.now name.now) }
{
    let mut count: usize = 0;
    for row in rows {
        if row.is_of(tenant, name) {
            count += 1;
        }
    }
    count
}

fn highest_of(rows: &[PlainRow], tenant: &Tenant, name: &str) -> u64
    ensures { result ≡ model.highest_of (reverse rows.now) (stream tenant.now name.now) }
{
    let mut highest: u64 = 0;
    for row in rows {
        if row.is_of(tenant, name) {
            highest = row.entry.stamp.nanoseconds().max(highest);
        }
    }
    highest
}

fn last_of<'a>(rows: &'a [PlainRow], tenant: &Tenant, name: &str) -> Option<&'a PlainRow>
    ensures { let s = stream tenant.now name.now in
        option_map (λ r. r.now) result ≡ model.last_of (reverse rows.now) s }
{
    let mut last: Option<&PlainRow> = None;
    for row in rows {
        if row.is_of(tenant, name) {
            last = later(row, last);
        }
    }
    last
}

fn later<'a>(row: &'a PlainRow, last: Option<&'a PlainRow>) -> Option<&'a PlainRow>
    ensures { option_map (λ r. r.now) result
        ≡ model.later row.now (option_map (λ r. r.now) last.entry) }
{
    match last {
        Some(other) if other.number >= row.number => last,
        _ => Some(row),
    }
}

fn is_last(rows: &[PlainRow], tenant: &Tenant, name: &str, entry: &Entry) -> bool
    ensures { let last = model.last_of (reverse rows.now) (stream tenant.now name.now) in
        result ≡ is_entry entry.now (option_map (λ r. r.entry) last) }
{
    match last_of(rows, tenant, name) {
        Some(last) => {
            last.entry.stamp == entry.stamp && last.entry.line.as_str() == entry.line.as_str()
        }
        None => false,
    }
}

/// How many streams of the tenant are live: each has one entry of number 0.
pub fn live_streams(rows: &[PlainRow], tenant: &Tenant) -> usize
    requires counted { AreCounted (reverse rows.now) }
    requires unstored { All (λ r. model.is_stored r.place ≡ false) (reverse rows.now) }
    ensures { result ≡ length (model.live_streams (reverse rows.now) tenant.now) }
{
    let mut live: usize = 0;
    for row in rows {
        if row.is_first_of(tenant) {
            live += 1;
        }
    }
    live
}

/// How many streams have a row: each has one entry of number 0.
pub fn streams(rows: &[PlainRow]) -> usize
    requires { AreCounted (reverse rows.now) }
    ensures { result ≡ length (model.streams_of (reverse rows.now)) }
{
    let mut streams: usize = 0;
    for row in rows {
        if row.is_first() {
            streams += 1;
        }
    }
    streams
}

/// How many chunks a stream has.
pub fn chunks_of(rows: &[PlainRow], tenant: &Tenant, name: &str) -> usize
    ensures { result ≡ length (model.chunk_starts (stream tenant.now name.now) (reverse rows.now)) }
{
    let mut chunks: usize = 0;
    for row in rows {
        if row.is_chunk_start(tenant, name) {
            chunks += 1;
        }
    }
    chunks
}
