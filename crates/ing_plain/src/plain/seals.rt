//! How the slow program seals growing chunks: by looking through all rows and marks for each row and each mark.
ghost use Rattle.std.specs.Prelude.{◌≡◌, ◌&&◌, map, reverse};
ghost use Rattle.ing_rows.specs.Rows.{is_head};
ghost use Rattle.ing_rows.specs.Steps as steps;
ghost use Rattle.ing_rows.specs.Steps.{moved, seal_mark};
ghost use Rattle.ing_rows.specs.Events.{sealed_count};
ghost use Rattle.ing_plain.specs.Plain.{reason_for};
ghost use Rattle.ing_rows.specs.declared.place.Place.TheVariants.{Block};

use super::cause::Cause;
use super::mark::PlainMark;
use super::row::PlainRow;

/// Closes the heads of the growing chunks that are sealed for the cause.
pub fn close_heads(rows: &mut [PlainRow], marks: &[PlainMark], cause: Cause)
    ensures { let why = reason_for cause (reverse rows.old) in
        rows.new ≡ moved
        (λ r. is_head r.place && steps.is_sealed_now why (reverse marks.now) r) Block rows.old }
{
    for i in 0..rows.len() {
        let all = &rows[..];
        let closes = is_closed_now(all, marks, &all[i], cause);
        if closes {
            rows[i].go_to_block();
        }
    }
}

/// Whether the row is in a head that is closed for the cause.
fn is_closed_now(rows: &[PlainRow], marks: &[PlainMark], row: &PlainRow, cause: Cause) -> bool
    ensures { let why = reason_for cause (reverse rows.now) in
        result
        ≡ (is_head row.now.place && steps.is_sealed_now why (reverse marks.now) row.now) }
{
    row.is_in_any_head() && is_sealed_now(rows, marks, row, cause)
}

/// Whether the chunk of the row is sealed for the cause: the newest mark of it says so.
fn is_sealed_now(rows: &[PlainRow], marks: &[PlainMark], row: &PlainRow, cause: Cause) -> bool
    ensures { let why = reason_for cause (reverse rows.now) in
        result ≡ steps.is_sealed_now why (reverse marks.now) row.now }
{
    let mut sealed = false;
    for mark in marks {
        if mark.has(row) {
            sealed = mark.new_reason(rows, cause).is_some();
        }
    }
    sealed
}

/// The growing chunks that are sealed for the cause take no more entries. Says how many these are.
pub fn seal_marks(marks: &mut [PlainMark], rows: &[PlainRow], cause: Cause) -> u64
    ensures marks { marks.new ≡ map (seal_mark (reason_for cause (reverse rows.now))) marks.old }
    ensures count { let why = reason_for cause (reverse rows.now) in
        result ≡ sealed_count why (reverse marks.old) }
{
    let mut count: u64 = 0;
    for mark in marks.iter_mut() {
        if mark.seal_for(rows, cause) {
            count += 1;
        }
    }
    count
}
