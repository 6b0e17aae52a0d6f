//! The tests of a list of label pairs, and the labels that it holds.
ghost use Rattle.std.specs.Prelude.{◌≡◌, IfOk, MatchOption, length, None};
ghost use Rattle.std.specs.FinMap.{entries, from_entries};
ghost use Rattle.std.specs.FinMap.Entries.{is_sorted};
ghost use Rattle.ing_labels.specs.Labels as labels;
ghost use Rattle.ing_labels.specs.Texts.{entry_texts};
ghost use Rattle.std.specs.List.{list_all};
ghost use Rattle.ing_labels.specs.Names as names;

use crate::fault::{LabelFault, LabelLimits};
use std::alloc::{AllocError, Global};
use std::collections::{BTreeMap, BTreeSet};

/// The place of the first pair whose name is no label name.
pub(crate) fn first_bad_name(pairs: &[(&str, &str)]) -> Option<usize>
    ensures { result ≡ labels.first_bad_name (labels.texts pairs.now) }
{
    pairs.iter().position(|(name, _)| !is_label_name(name))
}

/// Whether each name lies above the one before it, in byte order: then none stands twice.
pub(crate) fn names_rise(pairs: &[(&str, &str)]) -> bool
    ensures { result ≡ is_sorted labels.name_order (labels.texts pairs.now) }
{
    for at in 1..pairs.len() {
        if pairs[at - 1].0 >= pairs[at].0 {
            return false;
        }
    }
    true
}

/// The place of the first pair whose name a pair before it has.
pub(crate) fn first_repeated_name(
    alloc: Global,
    pairs: &[(&str, &str)],
) -> Result<Option<usize>, AllocError>
    ensures { IfOk result (λ at. at ≡ labels.first_repeated_name (labels.texts pairs.now)) }
{
    let mut seen = BTreeSet::new(alloc);
    for (at, (name, _)) in pairs.iter().enumerate() {
        if !seen.insert(*name)? {
            return Ok(Some(at));
        }
    }
    Ok(None)
}

/// The fault of pairs with label names that differ, if there is one.
pub(crate) fn kept_fault(pairs: &[(&str, &str)], limits: &LabelLimits) -> Option<LabelFault>
    ensures { let said = labels.kept_labels limits.now (labels.texts pairs.now) in
        let made = from_entries (labels.with_values (labels.texts pairs.now)) in
        MatchOption result (said ≡ Ok made) (λ e. said ≡ Err e) }
{
    let count = value_count(pairs);
    if count == 0 {
        return Some(LabelFault::NoLabels);
    }
    if count > limits.names {
        return Some(LabelFault::TooMany);
    }
    if let Some(at) = first_long_name(pairs, limits.name_bytes) {
        return Some(LabelFault::NameTooLong { at });
    }
    let at = first_long_value(pairs, limits.value_bytes)?;
    Some(LabelFault::ValueTooLong { at })
}

/// How many pairs have a value that is not empty.
fn value_count(pairs: &[(&str, &str)]) -> usize
    ensures { result ≡ length (labels.with_values (labels.texts pairs.now)) }
{
    pairs.iter().filter(|(_, value)| !value.is_empty()).count()
}

/// The place of the first pair with a value and with a name of more than `most` bytes.
fn first_long_name(pairs: &[(&str, &str)], most: usize) -> Option<usize>
    ensures { result ≡ labels.first_long_name most (labels.texts pairs.now) }
{
    pairs
        .iter()
        .position(|(name, value)| !value.is_empty() && name.len() > most)
}

/// The place of the first pair whose value has more than `most` bytes, and is not empty.
fn first_long_value(pairs: &[(&str, &str)], most: usize) -> Option<usize>
    ensures { result ≡ labels.first_long_value most (labels.texts pairs.now) }
{
    pairs
        .iter()
        .position(|(_, value)| !value.is_empty() && value.len() > most)
}

/// The values that are not empty, by name. Asks for pairs with different names.
pub(crate) fn values_by_name(
    alloc: Global,
    pairs: &[(&str, &str)],
) -> Result<BTreeMap<String, String>, AllocError>
    requires { labels.first_repeated_name (labels.texts pairs.now) ≡ None }
    ensures { IfOk result (λ m. entry_texts m.entries ≡
        entries (from_entries {R = labels.name_order} (labels.with_values
        (labels.texts pairs.now)))) }
{
    let mut values = BTreeMap::new(alloc);
    for (name, value) in pairs {
        if !value.is_empty() {
            let name = String::from_str(alloc, name)?;
            let value = String::from_str(alloc, value)?;
            values.insert(name, value)?;
        }
    }
    Ok(values)
}

/// The names and values of a map, in byte order of the names.
pub(crate) fn text_pairs(
    alloc: Global,
    values: &BTreeMap<String, String>,
) -> Result<Vec<(&str, &str)>, AllocError>
    ensures { IfOk result (λ pairs. labels.texts pairs.items ≡ entry_texts values.now.entries) }
{
    let mut pairs = Vec::with_capacity(alloc, values.len())?;
    for (name, value) in values {
        pairs.push((name.as_str(), value.as_str()))?;
    }
    Ok(pairs)
}

/// Whether a name may begin with this byte.
fn is_name_start(b: u8) -> bool
    ensures { result ≡ names.is_name_start b }
{
    b.is_ascii_lowercase() || b.is_ascii_uppercase() || b == b'_'
}

/// Whether this byte may stand in a name.
fn is_name_byte(b: u8) -> bool
    ensures { result ≡ names.is_name_byte b }
{
    is_name_start(b) || b.is_ascii_digit()
}

/// Whether these bytes may all stand in a name.
fn are_name_bytes(bytes: &[u8]) -> bool
    ensures { result ≡ list_all names.is_name_byte bytes.now }
{
    bytes.iter().all(|b| is_name_byte(*b))
}

/// Whether a text is a label name: one or more letters, digits and `_`, the first no digit. Loki
/// documentation: labels; that a colon is refused is a rule of this crate's own.
pub(crate) fn is_label_name(name: &str) -> bool
    ensures { result ≡ names.is_label_name name.now }
{
    match name.as_bytes() {
        [] => false,
        [first, rest @ ..] => is_name_start(*first) && are_name_bytes(rest),
    }
}
