//! The canonical name of labels.
ghost use Rattle.std.specs.Prelude.{◌≡◌, ◌++◌, ◌∷◌, IfOk, OnOk, codes, if◌then◌else◌, ◌<◌, [], length, slice_index, slice_index_or};
ghost use Rattle.std.specs.List.{list_any};
ghost use Rattle.std.specs.String.{string_bytes};
ghost use Rattle.ing_labels.specs.Canonical.{is_escaped, written_value, written_pair, written_pairs};
ghost use Rattle.ing_labels.specs.Labels.{texts, with_values};
ghost use Rattle.ing_labels.specs.Pieces.{named_texts, pieces_from, IsCut};

use std::alloc::{AllocError, Global};
use std::marker::Model;

/// Whether a value has a byte that is escaped. Most have none, and are written at once.
fn has_escapes(value: &str) -> bool
    ensures { result ≡ list_any is_escaped value.now }
{
    value
        .as_bytes()
        .iter()
        .any(|b| *b == b'\\' || *b == b'"' || *b == b'\n')
}

/// Writes a value with its backslashes, quotes and line feeds escaped.
fn push_value(text: &mut String, value: &str) -> Result<(), AllocError>
    ensures { OnOk result (string_bytes text.new ≡
        string_bytes text.old ++ written_value value.now) }
{
    if !has_escapes(value) {
        return text.push_str(value);
    }
    for c in value.chars() {
        match c {
            '\\' => text.push_str("\\\\")?,
            '"' => text.push_str("\\\"")?,
            '\n' => text.push_str("\\n")?,
            _ => text.push(c)?,
        }
    }
    Ok(())
}

/// Writes a pair, as `a="x"`.
fn push_pair(text: &mut String, name: &str, value: &str) -> Result<(), AllocError>
    ensures { OnOk result (string_bytes text.new ≡ string_bytes text.old ++
        written_pair (name.now, value.now)) }
{
    text.push_str(name)?;
    text.push_str("=\"")?;
    push_value(text, value)?;
    text.push_str("\"")
}

/// Writes a pair, after a comma and a space unless it is the first.
fn push_next(text: &mut String, is_first: bool, name: &str, value: &str) -> Result<(), AllocError>
    ensures { let pair = written_pair (name.now, value.now) in
        OnOk result (string_bytes text.new ≡
        string_bytes text.old ++ (if is_first then pair else codes ", " ++ pair)) }
{
    if !is_first {
        text.push_str(", ")?;
    }
    push_pair(text, name, value)
}

/// The room that a canonical name without escapes takes, and after it the names and values once more.
fn room_for(pairs: &[(&str, &str)]) -> usize {
    let mut room: usize = 2;
    for (name, value) in pairs {
        let pair = name.len().saturating_add(value.len());
        room = room.saturating_add(pair.saturating_mul(2).saturating_add(5));
    }
    room
}

/// The canonical name of those pairs that have a value, in their order, with room for their names and
/// values after it.
pub(crate) fn canonical_text(alloc: Global, pairs: &[(&str, &str)]) -> Result<String, AllocError>
    ensures { IfOk result (λ s. string_bytes s ≡ written_pairs (with_values (texts pairs.now))) }
{
    let mut text = String::with_capacity(alloc, room_for(pairs))?;
    text.push_str("{")?;
    let mut is_first = true;
    for (name, value) in pairs {
        if !value.is_empty() {
            push_next(&mut text, is_first, name, value)?;
            is_first = false;
        }
    }
    text.push_str("}")?;
    Ok(text)
}

/// A canonical name, and after it the name and value of each pair that has a value.
pub(crate) fn packed(
    alloc: Global,
    name: String,
    pairs: &[(&str, &str)],
) -> Result<Pieces, AllocError>
    ensures { IfOk result (λ ps. ps ≡
        string_bytes name ∷ named_texts (with_values (texts pairs.now))) }
{
    let count = pairs.len().saturating_mul(2).saturating_add(1);
    let mut pieces = Pieces::of_first(alloc, name, count)?;
    for (name, value) in pairs {
        if !value.is_empty() {
            pieces.push(name)?;
            pieces.push(value)?;
        }
    }
    Ok(pieces)
}

/// Texts, held in one `String` with the place where each ends. Contracts see the list of their bytes.
#[derive(Debug, Drop)]
pub(crate) struct Pieces {
    text: String,
    ends: Vec<usize>,
}

impl Model for Pieces {
    ghost use Rattle.std.specs.Prelude.{ℕ, List};
    ghost use Rattle.std.specs.Coded.{coded_ℕ, coded_list};

    ghost Value = { List (List ℕ) };

    ghost coded = { coded_list (coded_list coded_ℕ) };

    ghost use Rattle.std.specs.String.{string_bytes};
    ghost use Rattle.ing_labels.specs.Pieces.{pieces_from, IsCut};

    ghost view = { λ a. pieces_from (string_bytes a.text) 0 a.ends.items };

    ghost invariant = { λ a. IsCut (string_bytes a.text) 0 a.ends.items };
}

impl Pieces {
    /// One text, and room for `count` in all. It stays in its memory.
    pub(crate) fn of_first(alloc: Global, text: String, count: usize) -> Result<Pieces, AllocError>
        ensures { IfOk result (λ pieces. pieces ≡ string_bytes text ∷ []) }
    {
        let mut ends = Vec::with_capacity(alloc, count)?;
        ends.push(text.len())?;
        Ok(Pieces { text, ends })
    }

    /// Adds a text.
    pub(crate) fn push(&mut self, piece: &str) -> Result<(), AllocError>
        ensures { OnOk result (self.new ≡ self.old ++ piece.now ∷ []) }
    {
        self.ends.reserve(1)?;
        self.text.push_str(piece)?;
        self.ends.push_reserved(self.text.as_str().len());
        Ok(())
    }

    /// How many texts these are.
    pub(crate) fn len(&self) -> usize
        ensures { result ≡ length self.now }
    {
        self.ends.as_slice().len()
    }

    /// The text at an index.
    pub(crate) fn get(&self, at: usize) -> &str
        requires { at < length self.now }
        ensures { result.now ≡ slice_index_or self.now at [] }
    {
        piece(self.text.as_str(), self.ends.as_slice(), at)
    }
}

/// What lies between two ends of a text.
fn piece<'a>(text: &'a str, ends: &[usize], at: usize) -> &'a str
    requires within { at < length ends.now }
    requires cut { IsCut text.now 0 ends.now }
    ensures { result.now ≡ slice_index_or (pieces_from text.now 0 ends.now) at [] }
{
    let from = start_of(ends, at);
    &text[from..ends[at]]
}

/// The end before the one at an index, or 0 where there is none.
fn start_of(ends: &[usize], at: usize) -> usize
    requires { at < length ends.now }
    ensures { result ≡ slice_index (0 ∷ ends.now) at }
{
    if at == 0 { 0 } else { ends[at - 1] }
}
