//! What a query asks, and what it gives of an entry, with its stream's name.
ghost use Rattle.std.specs.Prelude.{◌≡◌, IfOk};
ghost use Rattle.ing_labels.specs.Canonical.{canonical_of};
ghost use Rattle.std.specs.Cmp.Lexicographic.{slice_cmp};
ghost use Rattle.std.specs.Ordering.{is_lt, nat_cmp, ordering_then};
ghost use Rattle.ing_rows.specs.Cursors.{cursor_view};
ghost use Rattle.ing_parts.specs.declared.found.Found.{Found};
ghost use Rattle.ing_rows.specs.declared.entry.Entry.{Entry};
ghost use Rattle.ing_parts.specs.Answers as answers;
ghost use Rattle.ing_parts.specs.Parts.{found_there, is_within};
ghost use Rattle.ing_parts.specs.Questions.{question_view};

use ing_labels::Labels;
use ing_rows::{Cursor, Entry, Order};
use std::alloc::AllocError;
use std::cmp::Ordering;
use std::marker::Model;

/// An entry that was found: the canonical name of its stream, how many entries of the stream were accepted before it, and
/// its stamp and line (own).
#[derive(Drop)]
pub struct Found {
    /// The canonical name of its stream.
    pub name: StreamName,
    /// How many entries of its stream were accepted before it.
    pub number: u64,
    /// Its stamp and its line.
    pub entry: Entry,
}

impl Found {
    /// By what an answer has it before another: its stamp, then its name, then its number.
    #[inline]
    pub(crate) fn key(&self) -> (u64, &StreamName, u64)
        ensures stamp { result.0 ≡ self.now.entry.stamp }
        ensures name { result.1.now ≡ self.now.name }
        ensures number { result.2 ≡ self.now.number }
    {
        (self.entry.stamp.nanoseconds(), &self.name, self.number)
    }
}

/// The canonical name of a stream, which several owners share: its labels hold it.
#[derive(Drop)]
pub struct StreamName {
    labels: Labels,
}

impl Model for StreamName {
    ghost use Rattle.std.specs.Prelude.{List, ℕ};
    ghost use Rattle.ing_labels.specs.Canonical.{canonical_of};

    ghost Value = { List ℕ };

    ghost view = { λ name. canonical_of name.labels };
}

impl StreamName {
    /// The canonical name of the stream with these labels. Copies no text. (Loki documentation: labels; the name is own.)
    pub fn of_labels(labels: &Labels) -> Result<StreamName, AllocError>
        ensures { IfOk result (λ name. name ≡ canonical_of labels.now) }
    {
        Ok(StreamName {
            labels: labels.clone()?,
        })
    }

    /// Its text.
    pub fn as_str(&self) -> &str
        ensures { result.now ≡ self.now }
    {
        self.labels.name()
    }

    /// A second owner of it. Copies no text.
    pub fn share(&self) -> Result<StreamName, AllocError>
        ensures { IfOk result (λ name. name ≡ self.now) }
    {
        StreamName::of_labels(&self.labels)
    }
}

/// What is asked of entries (Loki documentation: HTTP API, query range; the cursor is own).
#[derive(Clone, Copy, Debug)]
pub struct Question<'a> {
    /// The least stamp that is wanted, in nanoseconds.
    pub start: u64,
    /// What each stamp that is wanted is below, in nanoseconds.
    pub end: u64,
    /// The order of the answer.
    pub order: Order,
    /// How many entries the answer may have.
    pub limit: usize,
    /// What each entry that is wanted stands behind in that order, where a page goes on.
    pub after: Option<Cursor<'a>>,
}

impl<'a> Question<'a> {
    /// The same question, with no more stamps than its cursor leaves: so what lies before a page is passed over as what lies out of
    /// the range. Constant.
    pub fn narrowed(self) -> Question<'a>
        ensures same { (f : Found) →
            is_within (question_view result) f ≡ is_within (question_view self.entry) f }
        ensures order { result.order ≡ self.entry.order }
        ensures limit { result.limit ≡ self.entry.limit }
    {
        let Some(cursor) = self.after else {
            return self;
        };
        match self.order {
            Order::Forward => {
                if self.start < cursor.stamp {
                    return Question {
                        start: cursor.stamp,
                        ..self
                    };
                }
            }
            Order::Backward => {
                if cursor.stamp < self.end {
                    return Question {
                        end: cursor.stamp + 1,
                        ..self
                    };
                }
            }
        }
        self
    }

    /// Whether an entry of this stamp, name and number is wanted. Constant, but for names of one stamp.
    #[inline]
    pub fn wants(&self, stamp: u64, name: &StreamName, number: u64) -> bool
        ensures { (entry : Entry) → entry.stamp ≡ stamp → result ≡ is_within (question_view self.now)
            (record { name = name.now; number = number; entry = entry }) }
    {
        if stamp < self.start || self.end <= stamp {
            return false;
        }
        match self.after {
            None => true,
            Some(cursor) => goes_behind(self.order, cursor, stamp, name, number),
        }
    }
}

/// How one name and number stand to others.
#[inline(never)]
fn compare_ties(one_name: &str, one_number: u64, other_name: &str, other_number: u64) -> Ordering
    ensures { result ≡ ordering_then (slice_cmp nat_cmp one_name.now other_name.now)
        (nat_cmp one_number other_number) }
{
    (one_name, one_number).cmp(&(other_name, other_number))
}

/// How one stamp, name and number stand to others. Few stamps are the same, so names are compared out of line.
#[inline(always)]
fn compare_keys(one: (u64, &StreamName, u64), other: (u64, &StreamName, u64)) -> Ordering
    ensures { let from = one.entry in let to = other.entry in
        result ≡ ordering_then (nat_cmp from.0 to.0)
        (ordering_then (slice_cmp nat_cmp from.1.now to.1.now) (nat_cmp from.2 to.2)) }
{
    match one.0.cmp(&other.0) {
        Ordering::Equal => compare_ties(one.1.as_str(), one.2, other.1.as_str(), other.2),
        unequal => unequal,
    }
}

/// The same of names as they are spelt.
fn compare_places(one: (u64, &str, u64), other: (u64, &str, u64)) -> Ordering
    ensures { let from = one.entry in let to = other.entry in
        result ≡ ordering_then (nat_cmp from.0 to.0)
        (ordering_then (slice_cmp nat_cmp from.1.now to.1.now) (nat_cmp from.2 to.2)) }
{
    match one.0.cmp(&other.0) {
        Ordering::Equal => compare_ties(one.1, one.2, other.1, other.2),
        unequal => unequal,
    }
}

/// How one stands to another in an answer.
#[inline]
pub(crate) fn compare(order: Order, one: &Found, other: &Found) -> Ordering
    ensures { is_lt result ≡ answers.precedes order one.now other.now }
{
    match order {
        Order::Forward => compare_keys(one.key(), other.key()),
        Order::Backward => compare_keys(other.key(), one.key()),
    }
}

/// Whether an answer has an entry of this stamp, name and number before another.
pub(crate) fn goes_before(
    order: Order,
    stamp: u64,
    name: &StreamName,
    number: u64,
    other: &Found,
) -> bool
    ensures { (entry : Entry) → entry.stamp ≡ stamp → result ≡ answers.precedes order
        (record { name = name.now; number = number; entry = entry }) other.now }
{
    let key = (stamp, name, number);
    match order {
        Order::Forward => compare_keys(key, other.key()).is_lt(),
        Order::Backward => compare_keys(other.key(), key).is_lt(),
    }
}

/// Whether an answer has an entry of this stamp, name and number behind the place of a cursor.
fn goes_behind(order: Order, cursor: Cursor<'_>, stamp: u64, name: &StreamName, number: u64) -> bool
    ensures { (entry : Entry) → entry.stamp ≡ stamp →
        result ≡ answers.precedes order (found_there (cursor_view cursor.entry))
        (record { name = name.now; number = number; entry = entry }) }
{
    let place = (cursor.stamp, cursor.stream, cursor.number);
    let key = (stamp, name.as_str(), number);
    match order {
        Order::Forward => compare_places(place, key).is_lt(),
        Order::Backward => compare_places(key, place).is_lt(),
    }
}
