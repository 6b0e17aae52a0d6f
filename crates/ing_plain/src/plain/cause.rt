//! Why the slow program seals chunks.
ghost use Rattle.std.specs.Prelude.{◌≡◌, reverse};
ghost use Rattle.ing_rows.specs.Rows as model;
ghost use Rattle.ing_rows.specs.Rows.{rows_of_chunk};
ghost use Rattle.ing_rows.specs.Steps as steps;
ghost use Rattle.ing_plain.specs.Plain.{reason_for, least_with};

use super::mark::PlainMark;
use super::row::PlainRow;
use ing_rows::{Rules, SealReason};

/// What growing chunks are sealed for.
#[derive(Clone, Copy, Debug)]
pub enum Cause {
    /// They are due by these rules at this time.
    Due { rules: Rules, now: u64 },
    /// Everything is sealed by command.
    Command,
}

impl Cause {
    /// The reason for which the chunk of a mark is sealed.
    pub fn reason(self, rows: &[PlainRow], mark: &PlainMark) -> Option<SealReason>
        ensures { result ≡ reason_for self (reverse rows.now) mark.now }
    {
        match self {
            Cause::Due { rules, now } => due(&rules, now, rows, mark),
            Cause::Command => Some(SealReason::Forced),
        }
    }
}

/// Why the chunk of a mark is due.
fn due(rules: &Rules, now: u64, rows: &[PlainRow], mark: &PlainMark) -> Option<SealReason>
    ensures { result ≡ steps.due_of rules.now now (reverse rows.now) mark.now }
{
    if now.saturating_sub(mark.last_update) > rules.chunk_idle_period {
        return Some(SealReason::Idle);
    }
    let age = greatest_stamp(rows, mark).saturating_sub(least_stamp(rows, mark));
    if age > rules.max_chunk_age {
        return Some(SealReason::MaxAge);
    }
    None
}

fn greatest_stamp(rows: &[PlainRow], mark: &PlainMark) -> u64
    ensures { let chunk = rows_of_chunk mark.now.stream mark.now.chunk (reverse rows.now) in
        result ≡ model.greatest_stamp chunk }
{
    let mut greatest: u64 = 0;
    for row in rows {
        if mark.has(row) {
            greatest = row.entry.stamp.nanoseconds().max(greatest);
        }
    }
    greatest
}

fn least_stamp(rows: &[PlainRow], mark: &PlainMark) -> u64
    ensures { let chunk = rows_of_chunk mark.now.stream mark.now.chunk (reverse rows.now) in
        result ≡ steps.least_stamp chunk }
{
    let mut least: Option<u64> = None;
    for row in rows {
        if mark.has(row) {
            least = Some(lower(row.entry.stamp.nanoseconds(), least));
        }
    }
    least.unwrap_or(0)
}

/// The lower of a stamp and another, if there is one.
fn lower(stamp: u64, least: Option<u64>) -> u64
    ensures { result ≡ least_with stamp least }
{
    match least {
        Some(other) => stamp.min(other),
        None => stamp,
    }
}
