//! The labels of one stream.
ghost use Rattle.std.specs.Prelude.{◌≡◌, ◌≢◌, ◌↔◌, ℕ, Some, None, IfOk, IfErr, IsErrOf, IsTrue};
ghost use Rattle.std.specs.String.{string_bytes};
ghost use Rattle.std.specs.FinMap.{from_sorted};
ghost use Rattle.std.specs.FinMap.Entries.{is_sorted};
ghost use Rattle.ing_labels.specs.Labels.{name_order, texts, with_values, AreLabels};
ghost use Rattle.std.specs.Iterator.{YieldsFirstBy, item_count};

use crate::canonical::{Pieces, canonical_text, packed};
use crate::canonical_reader::read_pairs;
use crate::checks::{
    first_bad_name, first_repeated_name, kept_fault, names_rise, text_pairs, values_by_name,
};
use crate::fault::{LabelFault, LabelLimits};
use crate::text_fault::TextFault;
use std::alloc::{AllocError, Global};
use std::marker::Model;
use std::sync::Arc;

/// The labels of one stream, seen as the map from the bytes of a name to the bytes of its value:
/// one label or more, each with a label name and a value that is not empty (Loki documentation:
/// labels).
#[derive(Debug, Drop)]
pub struct Labels {
    pieces: Arc<Pieces>,
}

impl Model for Labels {
    ghost use Rattle.std.specs.Prelude.{ℕ, List};
    ghost use Rattle.std.specs.Coded.{coded_ℕ, coded_list};
    ghost use Rattle.std.specs.FinMap as map;
    ghost use Rattle.ing_labels.specs.Labels.{LabelMap};

    ghost Value = { LabelMap };

    ghost coded = { map.code (coded_list coded_ℕ) (coded_list coded_ℕ) };

    ghost use Rattle.ing_labels.specs.Held.{held_map, IsHeld};

    ghost view = { held_map };

    ghost invariant = { IsHeld };
}

impl Labels {
    ghost use Rattle.ing_labels.specs.Labels.{labels_of, first_bad_name, IsLabelSet, HoldsPairs, KeepsLimits};
    ghost use Rattle.ing_labels.specs.declared.fault.LabelFault.{LabelFault};
    ghost use Rattle.ing_labels.specs.Canonical.{canonical_of};
    ghost use Rattle.ing_labels.specs.CanonicalTexts.{IsCanonicalFault};
    ghost use Rattle.ing_labels.specs.LabelValues.{label_value};
    ghost use Rattle.std.specs.FinMap.{entries};

    /// The labels of a list of pairs of a name and a value. A label with an empty value is the same as
    /// an absent one. `at` counts the pairs as given, also those with an empty value.
    ///
    /// The whole list is tested in this order:
    /// 1. `BadName`: a name that is no label name, also one with an empty value.
    /// 2. `TwiceNamed`: a name that an earlier pair has, whatever the values.
    /// 3. `NoLabels`: no pair has a value that is not empty.
    /// 4. `TooMany`: more than `limits.names` pairs have one.
    /// 5. `NameTooLong`: one of these has a name of more than `limits.name_bytes` bytes.
    /// 6. `ValueTooLong`: one of these has a value of more than `limits.value_bytes` bytes.
    ///
    /// `NoMemory` may stand in place of any other answer but `BadName`, and where the names rise strictly,
    /// in place of none of these: all is tested before memory is taken. Then the time is in proportion to
    /// the pairs and their texts, and else n log n in the pairs, times the length of a name. (Loki
    /// documentation: labels, and `limits_config` for the limits; the order of the tests is this crate's
    /// own.)
    pub fn of_pairs(
        alloc: Global,
        pairs: &[(&str, &str)],
        limits: &LabelLimits,
    ) -> Result<Labels, LabelFault>
        ensures labels { IfOk result (λ l. labels_of limits.now (texts pairs.now) ≡ Ok l) }
        ensures fault { IfErr result (λ e. e ≢ LabelFault.NoMemory →
            labels_of limits.now (texts pairs.now) ≡ Err e) }

        // What is found before memory is taken.
        ensures bad_name { (at : ℕ) → first_bad_name (texts pairs.now) ≡ Some at →
            IsErrOf result (LabelFault.BadName at) }
        ensures rising { IsTrue (is_sorted name_order (texts pairs.now)) → (e : LabelFault) →
            labels_of limits.now (texts pairs.now) ≡ Err e → IsErrOf result e }

        // What the map is, in words that do not follow the tests.
        ensures label_set { IfOk result IsLabelSet }
        ensures pairs { IfOk result (HoldsPairs (texts pairs.now)) }
        ensures limits { IfOk result (KeepsLimits limits.now) }
    {
        if let Some(at) = first_bad_name(pairs) {
            return Err(LabelFault::BadName { at });
        }
        if names_rise(pairs) {
            if let Some(fault) = kept_fault(pairs, limits) {
                return Err(fault);
            }
            return Ok(Labels::in_order(alloc, pairs)?);
        }
        Labels::of_unordered(alloc, pairs, limits)
    }

    /// The same, of pairs in any order that all have label names.
    fn of_unordered(
        alloc: Global,
        pairs: &[(&str, &str)],
        limits: &LabelLimits,
    ) -> Result<Labels, LabelFault>
        requires { first_bad_name (texts pairs.now) ≡ None }
        ensures labels { IfOk result (λ l. labels_of limits.now (texts pairs.now) ≡ Ok l) }
        ensures fault { IfErr result (λ e. e ≢ LabelFault.NoMemory →
            labels_of limits.now (texts pairs.now) ≡ Err e) }
    {
        if let Some(at) = first_repeated_name(alloc, pairs)? {
            return Err(LabelFault::TwiceNamed { at });
        }
        if let Some(fault) = kept_fault(pairs, limits) {
            return Err(fault);
        }
        let values = values_by_name(alloc, pairs)?;
        let ordered = text_pairs(alloc, &values)?;
        Ok(Labels::in_order(alloc, &ordered)?)
    }

    /// The labels of those pairs that have a value.
    fn in_order(alloc: Global, pairs: &[(&str, &str)]) -> Result<Labels, AllocError>
        requires { AreLabels (with_values (texts pairs.now)) }
        ensures { IfOk result (λ l. l ≡ from_sorted (with_values (texts pairs.now))) }
    {
        let name = canonical_text(alloc, pairs)?;
        let packed = packed(alloc, name, pairs)?;
        let pieces = Arc::new(alloc, packed)?;
        Ok(Labels { pieces })
    }

    /// The labels of a canonical name: exactly the texts that `name` gives are read, whatever their
    /// length. `NotCanonical`: the text is none; `at` is the length of its longest front, in bytes, with
    /// which some canonical name begins. `NoMemory` may stand in place of any other answer. (The form is
    /// that of Prometheus' label sets; that no other spelling is read is this crate's own rule.)
    pub fn parse_canonical(alloc: Global, text: &str) -> Result<Labels, TextFault>
        ensures text { IfOk result (λ l. text.now ≡ canonical_of l) }
        ensures label_set { IfOk result IsLabelSet }
        ensures fault { IfErr result (IsCanonicalFault text.now) }
    {
        let values = read_pairs(alloc, text)?;
        let pairs = text_pairs(alloc, &values)?;
        Ok(Labels::in_order(alloc, &pairs)?)
    }

    /// The value of a label: the empty text where the label is absent (Loki documentation: labels). The time
    /// is in proportion to the labels.
    pub fn value(&self, name: &str) -> &str
        ensures { result.now ≡ label_value self.now name.now }
    {
        for (label, value) in self.pairs() {
            if label == name {
                return value;
            }
        }
        ""
    }

    /// The names and values, in byte order of the names. Takes no memory; the walk takes time in proportion
    /// to the labels.
    pub fn pairs(&self) -> Pairs<'_>
        ensures pairs { result ≡ entries self.now }
        ensures label_set { IsLabelSet self.now }
    {
        Pairs::after_first(&self.pieces)
    }

    /// The canonical name, as `{a="x", b="y"}`: names in byte order, `, ` between pairs, and in a value a
    /// backslash, a quote and a line feed are written `\\`, `\"` and `\n` (Loki documentation: label sets
    /// as Prometheus writes them; the three escapes are this crate's own profile). It is held: lending it
    /// takes no memory and constant time.
    pub fn name(&self) -> &str
        ensures text { result.now ≡ canonical_of self.now }

        // Each `Labels` is one or more labels, with label names and values that are not empty.
        ensures label_set { IsLabelSet self.now }
    {
        self.pieces.get(0)
    }

    /// A copy of the canonical name.
    pub fn canonical(&self, alloc: Global) -> Result<String, AllocError>
        ensures text { IfOk result (λ s. string_bytes s ≡ canonical_of self.now) }
        ensures label_set { IsLabelSet self.now }
    {
        String::from_str(alloc, self.name())
    }
}

/// A copy has the same labels, and shares their texts: it takes constant time.
impl Clone for Labels {
    ghost is_clone = { λ labels copy. copy ≡ labels };

    fn clone(&self) -> Result<Labels, AllocError> {
        Ok(Labels {
            pieces: Arc::try_clone(&self.pieces)?,
        })
    }
}

/// The names and values of labels, in byte order of the names. Contracts see the list of those that are
/// left.
#[derive(Drop)]
pub struct Pairs<'a> {
    pieces: &'a Pieces,
    at: usize,
}

impl<'a> Model for Pairs<'a> {
    ghost use Rattle.std.specs.Prelude.{List, ◌≤◌, length, drop};
    ghost use Rattle.ing_labels.specs.Labels.{Pair};

    ghost Value = { List Pair };

    ghost use Rattle.ing_labels.specs.Pieces.{pairs_of};

    ghost view = { λ pairs. pairs_of (drop pairs.at pairs.pieces.now) };

    ghost invariant = { λ pairs. pairs.at ≤ length pairs.pieces.now };
}

impl<'a> Pairs<'a> {
    ghost use Rattle.std.specs.Prelude.{◌≡◌, ◌<◌, length, drop};
    ghost use Rattle.ing_labels.specs.Pieces.{pairs_of};

    /// The pairs of the texts after the first.
    pub(crate) fn after_first(pieces: &'a Pieces) -> Pairs<'a>
        requires { 0 < length pieces.now }
        ensures { result ≡ pairs_of (drop 1 pieces.now) }
    {
        Pairs { pieces, at: 1 }
    }
}

impl<'a> Iterator for Pairs<'a> {
    type Item = (&'a str, &'a str);

    ghost next_gives = { YieldsFirstBy (λ pair. (pair.0.now, pair.1.now)) (λ left. left) };

    ghost remaining = { item_count (λ left. left) };

    fn next(&mut self) -> Option<(&'a str, &'a str)> {
        let pieces: &'a Pieces = self.pieces;
        if pieces.len() - self.at < 2 {
            return None;
        }
        let at = self.at;
        self.at = at + 2;
        Some((pieces.get(at), pieces.get(at + 1)))
    }
}
