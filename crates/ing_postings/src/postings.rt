//! The label index: for each name and value, the places of the streams with that label, and the walk by which a selector picks some.
ghost use Rattle.std.specs.Prelude.{◌≡◌, ◌++◌, ◌-◌, ◌<◌, ℕ, [], ◌∷◌, IfOk, OnOk, OnErr, IfSome, IfNone, All, length, List, IsTrue, if◌then◌else◌, false, ◌^◌, ◌≤◌, ◌⊎◌, MatchOption, Any, filter, slice_index};
ghost use Rattle.std.specs.List.{slice_get, filter_map, list_all};
ghost use Rattle.std.specs.List.Sorted.{IsStrictlyIncreasing, IsNonDecreasing};
ghost use Rattle.std.specs.Option.{option_map};
ghost use Rattle.ing_labels.specs.Labels.{IsLabelSet};
ghost use Rattle.ing_postings.specs.Streams.{numbers_of, selected, posted, postings_of, is_pair, has_label, picks_at, is_in};
ghost use Rattle.std.specs.Str.{bytes_eq};
ghost use Rattle.std.specs.FinMap.{entries};
ghost use Rattle.ing_postings.specs.Index.{list_of, list_at, has_room_in, has_room, HasRooms, IsIndexOf, Narrows, IsNoLonger};
ghost use Rattle.ing_labels.specs.Selectors.{agrees, asks_for_value};

use ing_labels::{Labels, MatchOp, Matcher, Selector};
use std::alloc::{AllocError, Global};
use std::collections::BTreeMap;
use std::marker::Model;

/// The streams of an index by their labels. Contracts see the list of these streams, in the order of their
/// numbers.
#[derive(Debug, Drop)]
pub struct Postings {
    streams: Vec<Listed>,
    index: Index,
}

impl Model for Postings {
    ghost use Rattle.std.specs.Prelude.{List};
    ghost use Rattle.std.specs.Coded.{coded_list};
    ghost use Rattle.ing_postings.specs.declared.postings.Listed.{Listed};
    ghost use Rattle.ing_postings.specs.contracts.postings.Listed as listed;

    ghost Value = { List Listed };

    ghost coded = { coded_list listed.the_row.coded };

    ghost view = { λ postings. postings.streams.items };

    ghost use Rattle.ing_postings.specs.Held.{IsIndexed};

    ghost invariant = { IsIndexed };
}

impl Postings {
    /// No stream. Takes no memory.
    pub fn new(alloc: Global) -> Postings
        ensures { result ≡ [] }
    {
        Postings {
            streams: Vec::new(alloc),
            index: BTreeMap::new(alloc),
        }
    }

    /// The listed streams, in the order of their numbers. Takes no memory.
    pub fn streams(&self) -> &[Listed]
        ensures streams { result.now ≡ self.now }
        ensures rising { IsStrictlyIncreasing (numbers_of self.now) }
        ensures labels { All (λ s. IsLabelSet s.labels) self.now }
    {
        self.streams.as_slice()
    }

    /// The number of the last stream, or `None` where no stream is listed: what is above it may be added.
    /// Takes no memory.
    pub fn last(&self) -> Option<StreamNo>
        ensures value { result ≡
            option_map (λ s. s.number) (slice_get self.now (length self.now - 1)) }
        ensures empty { IfNone result (self.now ≡ []) }
        ensures above { IfSome result (λ last. (number : ℕ) → last < number →
            All (λ s. s.number < number) self.now) }
    {
        self.streams.last().map(|stream| stream.number)
    }

    /// Lists a stream, with a copy of its labels. The number is above all that are listed, for which `last`
    /// is the test. Fails only for want of memory, and then nothing changes.
    ///
    /// The time is in proportion to the labels and their texts, with two look-ups for each label, and does
    /// not grow with the streams but for these look-ups (own).
    pub fn add(&mut self, labels: &Labels, number: StreamNo) -> Result<(), AllocError>
        requires { All (λ s. s.number < number) self.old }
        ensures ok { OnOk result (self.new ≡ self.old ++
            record { number = number; labels = labels.now } ∷ []) }
        ensures err { OnErr result (self.new ≡ self.old) }
    {
        // All that takes memory comes first.
        let stream = Listed {
            number,
            labels: labels.clone()?,
        };
        self.streams.reserve(1)?;
        let alloc = *self.streams.allocator();
        make_rooms(&mut self.index, alloc, labels)?;

        post(&mut self.index, labels, self.streams.len());
        self.streams.push_reserved(stream);
        Ok(())
    }

    /// The posting list of a label: the numbers of the streams that have it, in rising order. Fails only for
    /// want of memory. The time is in proportion to the answer, after one look-up (own).
    pub fn posted(
        &self,
        alloc: Global,
        name: &str,
        value: &str,
    ) -> Result<Vec<StreamNo>, AllocError>
        ensures posted { IfOk result (λ found. found.items ≡
            posted name.now value.now (postings_of self.now)) }
        ensures rising { IfOk result (λ found. IsStrictlyIncreasing found.items) }
    {
        numbers_at(alloc, &self.streams, list_at(&self.index, name, value))
    }

    /// The numbers of the streams whose labels the selector matches, in rising order. Fails only for want of
    /// memory, and takes some for the places of the shortest list beside the answer.
    ///
    /// The walk goes over the shortest list of streams that an `=` matcher with a value names, and beside it
    /// over that of each other matcher with a value, in steps that double: so the time is in proportion to
    /// the shortest list times the matchers, and at most logarithmic in the others. Labels are looked at for
    /// matchers with an empty value alone. (Loki documentation: log stream selector; the walk is own.)
    pub fn select(&self, alloc: Global, selector: &Selector) -> Result<Vec<StreamNo>, AllocError>
        ensures found { IfOk result (λ found. found.items ≡
            numbers_of (selected selector.now self.now)) }
        ensures rising { IfOk result (λ found. IsStrictlyIncreasing found.items) }
    {
        let matchers = selector.matchers();
        let Some(places) = shortest_list(&self.index, matchers) else {
            unreachable!("each selector has an `=` matcher with a value")
        };
        if matchers.len() == 1 {
            return numbers_at(alloc, &self.streams, places);
        }
        let kept = kept_places(alloc, &self.index, &self.streams, places, matchers)?;
        numbers_at(alloc, &self.streams, &kept)
    }
}

/// The lists of the values of one name.
pub(crate) type Lists = BTreeMap<String, Vec<usize>>;

/// For each name its lists. A label that no stream has may have no list, or an empty one.
pub(crate) type Index = BTreeMap<String, Lists>;

/// The list of a name and a value.
pub(crate) fn list_at<'a>(index: &'a Index, name: &str, value: &str) -> &'a [usize]
    ensures { result.now ≡ list_at index.now name.now value.now }
{
    match index.get(name) {
        Some(lists) => list_of(lists, value),
        None => &[],
    }
}

/// The list of a value.
fn list_of<'a>(lists: &'a Lists, value: &str) -> &'a [usize]
    ensures { result.now ≡ list_of lists.now value.now }
{
    match lists.get(value) {
        Some(list) => list.as_slice(),
        None => &[],
    }
}

/// Makes room for one more place in the list of a value.
fn make_room_in(lists: &mut Lists, alloc: Global, value: &str) -> Result<(), AllocError>
    ensures same { (q : List ℕ) → list_of lists.new q ≡ list_of lists.old q }
    ensures kept { (q : List ℕ) → IsTrue (has_room_in lists.old q) →
        IsTrue (has_room_in lists.new q) }
    ensures room { OnOk result (IsTrue (has_room_in lists.new value.now)) }
{
    if let Some(list) = lists.get_mut(value) {
        return list.reserve(1);
    }
    let list = Vec::with_capacity(alloc, 1)?;
    lists.insert(String::from_str(alloc, value)?, list)?;
    Ok(())
}

/// Adds a place to the list of a value.
fn post_in(lists: &mut Lists, value: &str, place: usize)
    requires { IsTrue (has_room_in lists.old value.now) }
    ensures posted { (q : List ℕ) → list_of lists.new q ≡ list_of lists.old q ++
        (if bytes_eq value.now q then place ∷ [] else []) }
    ensures kept { (q : List ℕ) → bytes_eq value.now q ≡ false → IsTrue (has_room_in lists.old q) →
        IsTrue (has_room_in lists.new q) }
{
    if let Some(list) = lists.get_mut(value) {
        list.push_reserved(place);
    }
}

/// Makes room for one more place in the list of a name and a value.
fn make_room(index: &mut Index, alloc: Global, name: &str, value: &str) -> Result<(), AllocError>
    ensures same { (n v : List ℕ) → list_at index.new n v ≡ list_at index.old n v }
    ensures kept { (n v : List ℕ) → IsTrue (has_room index.old n v) →
        IsTrue (has_room index.new n v) }
    ensures room { OnOk result (IsTrue (has_room index.new name.now value.now)) }
{
    if let Some(lists) = index.get_mut(name) {
        return make_room_in(lists, alloc, value);
    }
    let mut lists = BTreeMap::new(alloc);
    make_room_in(&mut lists, alloc, value)?;
    index.insert(String::from_str(alloc, name)?, lists)?;
    Ok(())
}

/// Adds a place to the list of a name and a value.
fn post_one(index: &mut Index, name: &str, value: &str, place: usize)
    requires { IsTrue (has_room index.old name.now value.now) }
    ensures posted { (n v : List ℕ) → list_at index.new n v ≡ list_at index.old n v ++
        (if is_pair n v (name.now, value.now) then place ∷ [] else []) }
    ensures kept { (n v : List ℕ) → is_pair n v (name.now, value.now) ≡ false →
        IsTrue (has_room index.old n v) → IsTrue (has_room index.new n v) }
{
    if let Some(lists) = index.get_mut(name) {
        post_in(lists, value, place);
    }
}

/// Makes room for one more place in the list of each label.
pub(crate) fn make_rooms(
    index: &mut Index,
    alloc: Global,
    labels: &Labels,
) -> Result<(), AllocError>
    ensures same { (n v : List ℕ) → list_at index.new n v ≡ list_at index.old n v }
    ensures room { OnOk result (HasRooms index.new (entries labels.now)) }

    // Each `Labels` is a stream's.
    ensures label_set { IsLabelSet labels.now }
{
    for (name, value) in labels.pairs() {
        make_room(index, alloc, name, value)?;
    }
    Ok(())
}

/// Adds a place to the list of each label.
pub(crate) fn post(index: &mut Index, labels: &Labels, place: usize)
    requires { HasRooms index.old (entries labels.now) }
    ensures { (n v : List ℕ) → list_at index.new n v ≡ list_at index.old n v ++
        (if has_label n v labels.now then place ∷ [] else []) }
{
    for (name, value) in labels.pairs() {
        post_one(index, name, value, place);
    }
}

/// A listed stream.
#[derive(Debug, Drop)]
pub struct Listed {
    /// Its number.
    pub number: StreamNo,
    /// Its labels.
    pub labels: Labels,
}

/// The number of a stream of a shard. Streams are numbered from 0, in the order in which they were first
/// listed (own).
#[derive(Clone, Copy, Debug, PartialEq, Eq, PartialOrd, Ord, Hash)]
pub struct StreamNo {
    number: u64,
}

impl Model for StreamNo {
    ghost use Rattle.std.specs.Prelude.{ℕ};

    ghost Value = { ℕ };

    ghost view = { λ stream. stream.number };

    ghost inverse = { λ number. record { number = number } };
}

impl StreamNo {
    /// The stream of this number.
    pub fn new(number: u64) -> StreamNo
        ensures { result ≡ number }
    {
        StreamNo { number }
    }

    /// The number, from 0 on.
    pub fn number(self) -> u64
        ensures { result ≡ self }
    {
        self.number
    }
}

/// The shorter of a list and the shortest before it, if there was one.
fn shorter<'a>(before: Option<&'a [usize]>, list: &'a [usize]) -> &'a [usize]
    ensures one { MatchOption before.entry (result.now ≡ list.now) (λ l. (result.now ≡
        l.now) ⊎ (result.now ≡ list.now)) }
    ensures not_longer { length result.now ≤ length list.now }
    ensures shortest { IfSome before.entry (λ l. length result.now ≤ length l.now) }
{
    match before {
        Some(shortest) if shortest.len() <= list.len() => shortest,
        _ => list,
    }
}

/// The shortest of the lists that `=` matchers with a value name, where there is such a matcher.
pub(crate) fn shortest_list<'a>(index: &'a Index, matchers: &[Matcher]) -> Option<&'a [usize]>
    ensures named { IfSome result (λ list. Any (Narrows index.now list.now) matchers.now) }
    ensures shortest { IfSome result (λ list. All (IsNoLonger index.now list.now) matchers.now) }
    ensures none { IfNone result (All (λ m. asks_for_value m ≡ false) matchers.now) }
{
    let mut shortest = None;
    for matcher in matchers {
        if matcher.asks_for_value() {
            let list = list_at(index, matcher.name(), matcher.value());
            shortest = Some(shorter(shortest, list));
        }
    }
    shortest
}

/// Those of these places whose streams each matcher picks.
pub(crate) fn kept_places(
    alloc: Global,
    index: &Index,
    streams: &[Listed],
    places: &[usize],
    matchers: &[Matcher],
) -> Result<Vec<usize>, AllocError>
    requires indexed { IsIndexOf index.now streams.now }
    requires within { All (λ place. place < length streams.now) places.now }
    requires rising { IsStrictlyIncreasing places.now }
    ensures { IfOk result (λ kept. kept.items ≡
        filter (λ p. list_all (λ m. picks_at streams.now m p) matchers.now) places.now) }
{
    let mut kept = places.to_vec(alloc)?;
    for matcher in matchers {
        kept = kept_by(alloc, index, streams, &kept, matcher)?;
    }
    Ok(kept)
}

/// Those of these places whose streams a matcher picks. No label is looked at where the matcher has a value.
fn kept_by(
    alloc: Global,
    index: &Index,
    streams: &[Listed],
    places: &[usize],
    matcher: &Matcher,
) -> Result<Vec<usize>, AllocError>
    requires indexed { IsIndexOf index.now streams.now }
    requires within { All (λ place. place < length streams.now) places.now }
    requires rising { IsStrictlyIncreasing places.now }
    ensures { IfOk result (λ kept. kept.items ≡
        filter (picks_at streams.now matcher.now) places.now) }
{
    if matcher.value().is_empty() {
        return labelled(alloc, streams, places, matcher);
    }
    let list = list_at(index, matcher.name(), matcher.value());
    walked(alloc, places, list, matcher.op())
}

/// Those of these places of whose streams' labels a matcher holds.
fn labelled(
    alloc: Global,
    streams: &[Listed],
    places: &[usize],
    matcher: &Matcher,
) -> Result<Vec<usize>, AllocError>
    requires { All (λ place. place < length streams.now) places.now }
    ensures { IfOk result (λ kept. kept.items ≡
        filter (picks_at streams.now matcher.now) places.now) }
{
    let mut kept = Vec::new(alloc);
    for place in places {
        if matcher.holds(&streams[*place].labels) {
            kept.push(*place)?;
        }
    }
    Ok(kept)
}

/// Those of these places that stand in a list, or those that do not. Both rise, and are walked side by side.
fn walked(
    alloc: Global,
    places: &[usize],
    list: &[usize],
    op: MatchOp,
) -> Result<Vec<usize>, AllocError>
    requires places { IsNonDecreasing places.now }
    requires list { IsNonDecreasing list.now }
    ensures { IfOk result (λ kept. kept.items ≡
        filter (λ p. agrees op (is_in p list.now)) places.now) }
{
    let mut kept = Vec::with_capacity(alloc, places.len())?;
    let mut rest = list;
    for place in places {
        rest = from_place(rest, *place);
        let is_listed = begins_with(rest, *place);
        if picks(op, is_listed) {
            kept.push(*place)?;
        }
    }
    Ok(kept)
}

/// Whether an operator picks what is listed, or what is not.
fn picks(op: MatchOp, is_listed: bool) -> bool
    ensures { result ≡ agrees op is_listed }
{
    match op {
        MatchOp::Equals => is_listed,
        MatchOp::Differs => !is_listed,
    }
}

/// Whether a rising list with nothing below a place has it: then it is the first.
fn begins_with(list: &[usize], place: usize) -> bool
    requires rising { IsNonDecreasing list.now }
    requires above { All (λ p. place ≤ p) list.now }
    ensures { result ≡ is_in place list.now }
{
    match list {
        [first, ..] => *first == place,
        [] => false,
    }
}

/// A rising list without its front of places below one.
fn from_place(list: &[usize], place: usize) -> &[usize]
    requires { IsNonDecreasing list.now }
    ensures rising { IsNonDecreasing result.now }
    ensures above { All (λ p. place ≤ p) result.now }
    ensures rest { (q : ℕ) → place ≤ q → is_in q result.now ≡ is_in q list.now }
{
    let end = end_above(list, place);
    let at = list[..end].partition_point(|p| *p < place);
    &list[at..]
}

/// An end in a list behind which nothing is below a place, sought in steps that double.
fn end_above(list: &[usize], place: usize) -> usize
    requires { IsNonDecreasing list.now }
    ensures within { result ≤ length list.now }
    ensures above { result < length list.now → place ≤ slice_index list.now result }
{
    let mut end: usize = 1;
    while end < list.len() && list[end] < place {
        end = end.saturating_mul(2);
    }
    end.min(list.len())
}

/// The numbers of the streams at these places.
pub(crate) fn numbers_at(
    alloc: Global,
    streams: &[Listed],
    places: &[usize],
) -> Result<Vec<StreamNo>, AllocError>
    requires { All (λ place. place < length streams.now) places.now }
    ensures { IfOk result (λ found. found.items ≡
        numbers_of (filter_map (slice_get streams.now) places.now)) }
{
    let mut found = Vec::with_capacity(alloc, places.len())?;
    for place in places {
        found.push(streams[*place].number)?;
    }
    Ok(found)
}
