//! What is asked for, and whether a reply may answer it.
ghost use Rattle.std.specs.Prelude.{◌≡◌, ◌&&◌, option_map};
ghost use Rattle.std.specs.List.{list_all};
ghost use Rattle.ing_rows.specs.Cursors.{cursor_view};
ghost use Rattle.ctl_pages.specs.Pages.{is_behind, is_from, is_place_of, may_answer, may_be_behind, may_be_wanted, place_cmp, precedes, stream_cmp, tells_end, wanted_view};

use crate::told::Told;
use ing_rows::{Cursor, Order};
use std::cmp::Ordering;

/// Which entries of a selector are asked for (own).
#[derive(Clone, Copy, Debug)]
pub struct Wanted<'a> {
    /// The least stamp, in nanoseconds.
    pub start: u64,
    /// What each stamp is below, in nanoseconds.
    pub end: u64,
    /// How many entries at most.
    pub limit: usize,
    /// Which of them come first.
    pub order: Order,
    /// What they stand behind in that order, where a page goes on.
    pub after: Option<Cursor<'a>>,
    /// Whether a full page, of as many entries, tells where the next begins.
    pub pages: bool,
}

/// Whether a page, and what is told of where the next begins, may answer what was wanted. It has
/// no more entries, each of a stamp in the range; none stands, by stamp and stream, before the
/// place behind which they are wanted; and exactly where pages are asked for and it is full, the
/// place of its last entry is told, behind that. No answer is refused (`answers_may_answer`).
/// Takes no memory. (Own.)
pub fn may_answer(wanted: Wanted<'_>, page: &[Told], next: Option<Cursor<'_>>) -> bool
    ensures { result ≡ may_answer (wanted_view wanted.entry) page.now
        (option_map cursor_view next.entry) }
{
    page.len() <= wanted.limit && are_wanted(wanted, page) && tells_end(wanted, page, next)
}

/// Whether each entry may be one that is wanted.
fn are_wanted(wanted: Wanted<'_>, page: &[Told]) -> bool
    ensures { result ≡ list_all (may_be_wanted (wanted_view wanted.entry)) page.now }
{
    page.iter().all(|told| may_be_wanted(wanted, told))
}

/// Whether an entry may be one that is wanted.
fn may_be_wanted(wanted: Wanted<'_>, told: &Told) -> bool
    ensures { result ≡ may_be_wanted (wanted_view wanted.entry) told.now }
{
    let stamp = told.stamp.nanoseconds();
    wanted.start <= stamp && stamp < wanted.end && may_be_behind(wanted.order, wanted.after, told)
}

/// Whether an entry may stand behind a place, where there is one.
fn may_be_behind(order: Order, after: Option<Cursor<'_>>, told: &Told) -> bool
    ensures { result ≡ may_be_behind order (option_map cursor_view after.entry) told.now }
{
    match after {
        None => true,
        Some(place) => is_from(order, place, told),
    }
}

/// Whether an entry has the stamp and the stream of a place, or stands behind it by these.
fn is_from(order: Order, place: Cursor<'_>, told: &Told) -> bool
    ensures { result ≡ is_from order (cursor_view place.entry) told.now }
{
    let compared = compare_streams(place, told);
    match order {
        Order::Forward => compared.is_le(),
        Order::Backward => compared.is_ge(),
    }
}

/// How a place stands to an entry by stamp, then by stream.
fn compare_streams(place: Cursor<'_>, told: &Told) -> Ordering
    ensures { result ≡ stream_cmp (cursor_view place.entry) told.now }
{
    (place.stamp, place.stream).cmp(&(told.stamp.nanoseconds(), told.stream.as_str()))
}

/// Whether of a page exactly that is told of where the next begins that an answer tells.
fn tells_end(wanted: Wanted<'_>, page: &[Told], next: Option<Cursor<'_>>) -> bool
    ensures { result ≡ tells_end (wanted_view wanted.entry) page.now
        (option_map cursor_view next.entry) }
{
    let is_full = wanted.pages && page.len() == wanted.limit;
    match next {
        None => !is_full,
        Some(place) => {
            is_full
                && is_place_of(place, page.last())
                && is_behind(wanted.order, wanted.after, place)
        }
    }
}

/// Whether a place is that of an entry, whatever its number.
fn is_place_of(place: Cursor<'_>, last: Option<&Told>) -> bool
    ensures { result ≡ is_place_of (cursor_view place.entry)
        (option_map (λ told. told.now) last.entry) }
{
    match last {
        None => false,
        Some(told) => {
            place.stamp == told.stamp.nanoseconds() && place.stream == told.stream.as_str()
        }
    }
}

/// Whether a place stands behind another, where there is one.
fn is_behind(order: Order, after: Option<Cursor<'_>>, place: Cursor<'_>) -> bool
    ensures { result ≡ is_behind order (option_map cursor_view after.entry)
        (cursor_view place.entry) }
{
    match after {
        None => true,
        Some(from) => precedes(order, from, place),
    }
}

/// Whether one place stands before another.
fn precedes(order: Order, one: Cursor<'_>, other: Cursor<'_>) -> bool
    ensures { result ≡ precedes order (cursor_view one.entry) (cursor_view other.entry) }
{
    match order {
        Order::Forward => compare_places(one, other).is_lt(),
        Order::Backward => compare_places(other, one).is_lt(),
    }
}

/// How one place stands to another by stamp, then by stream, then by number.
fn compare_places(one: Cursor<'_>, other: Cursor<'_>) -> Ordering
    ensures { result ≡ place_cmp (cursor_view one.entry) (cursor_view other.entry) }
{
    (one.stamp, one.stream, one.number).cmp(&(other.stamp, other.stream, other.number))
}
