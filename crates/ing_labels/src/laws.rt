//! What the definitions say, as contracts of functions that do nothing.
ghost use Rattle.ing_labels.specs.Canonical.{CanonicalNamesAreExact, CanonicalNamesAreShort};
ghost use Rattle.ing_labels.specs.CanonicalTests.{CanonicalNamesAreDecided};
ghost use Rattle.ing_labels.specs.Selectors.{SelectorTextsAreExact};
ghost use Rattle.ing_labels.specs.Worked.{EmptyValuesAreAbsent, CanonicalEscapes, BadNameComesFirst, EmptyValueRepeats, NoValueNoLabels};

/// Two label maps, of label names, have equal canonical names exactly where they are equal.
pub fn canonical_names_are_exact()
    ensures { CanonicalNamesAreExact }
{}

/// The canonical name of labels that keep the limits has no more bytes than these allow.
pub fn canonical_names_are_short()
    ensures { CanonicalNamesAreShort }
{}

/// A text is tested for being a canonical name: the test says so of exactly the canonical names of labels.
pub fn canonical_names_are_decided()
    ensures { CanonicalNamesAreDecided }
{}

/// Two canonical names, byte by byte.
pub fn worked_canonical_names()
    ensures empty_values_are_absent { EmptyValuesAreAbsent }
    ensures canonical_escapes { CanonicalEscapes }
{}

/// Three refusals, with the index of the pair at fault.
pub fn worked_refusals()
    ensures bad_name_comes_first { BadNameComesFirst }
    ensures empty_value_repeats { EmptyValueRepeats }
    ensures no_value_no_labels { NoValueNoLabels }
{}

/// A text is the text of one list of matchers at most.
pub fn selector_texts_are_exact()
    ensures { SelectorTextsAreExact }
{}
