//! A canonical name read character by character.
ghost use Rattle.std.specs.Prelude.{◌≡◌, ◌++◌, length, IfOk, IfErr, MatchOption};
ghost use Rattle.std.specs.Char.{encode_utf8};
ghost use Rattle.std.specs.String.{string_bytes};
ghost use Rattle.ing_labels.specs.Texts.{entry_texts};
ghost use Rattle.ing_labels.specs.CanonicalTexts.{IsRead, IsCanonicalFault};
ghost use Rattle.ing_labels.specs.CanonicalReading as reading;
ghost use Rattle.ing_labels.specs.CanonicalReading.{reading_of, readings_of, step_char, Next, InName, InValue, Escaped, closed_of};

use crate::selector_reader::{is_in_name, starts_name, unescaped};
use crate::text_fault::TextFault;
use std::alloc::{AllocError, Global};
use std::collections::BTreeMap;

type Pairs = BTreeMap<String, String>;

/// What is read so far. `read` has the whole pairs.
#[derive(Drop)]
pub(crate) enum State {
    /// Nothing.
    Start,
    /// The opening brace, or a comma and a space.
    Next {
        read: Pairs,
    },
    /// A part of a name, and whether it lies above the last name whatever follows.
    InName {
        read: Pairs,
        name: String,
        is_above: bool,
    },
    /// A name and `=`.
    Compared {
        read: Pairs,
        name: String,
    },
    /// A name, `=`, a quote and a part of a value.
    InValue {
        read: Pairs,
        name: String,
        value: String,
    },
    /// The same, and a backslash.
    Escaped {
        read: Pairs,
        name: String,
        value: String,
    },
    /// A whole pair, the last of these.
    Matched {
        read: Pairs,
    },
    /// A comma.
    Comma {
        read: Pairs,
    },
    /// The closing brace.
    Closed {
        read: Pairs,
    },
}

/// Whether a name lies above the last one with the character `c` at this place, or can still do so:
/// `None` where it cannot.
fn above_with(is_above: bool, last: &str, place: usize, c: char) -> Option<bool>
    ensures { result ≡ reading.above_with is_above last.now place c }
{
    if is_above || place >= last.len() {
        return Some(true);
    }
    let before = last.as_bytes()[place] as char;
    if c == before {
        Some(false)
    } else if c > before {
        Some(true)
    } else {
        None
    }
}

/// The last name, or the empty text.
fn last_name(read: &Pairs) -> &str
    ensures { result.now ≡ reading.last_name (entry_texts read.now.entries) }
{
    match read.last_key_value() {
        Some((name, _)) => name.as_str(),
        None => "",
    }
}

/// A name with one character more.
fn longer_name(
    read: Pairs,
    mut name: String,
    is_above: bool,
    c: char,
) -> Result<Option<State>, AllocError>
    ensures { IfOk result (λ s. readings_of s ≡
        reading.in_name (entry_texts read.entries) (string_bytes name ++
        encode_utf8 c) (reading.above_with is_above (reading.last_name
        (entry_texts read.entries)) (length (string_bytes name)) c)) }
{
    let Some(is_above) = above_with(is_above, last_name(&read), name.len(), c) else {
        return Ok(None);
    };
    name.push(c)?;
    Ok(Some(State::InName {
        read,
        name,
        is_above,
    }))
}

/// What follows a part of a value.
fn in_value(
    mut read: Pairs,
    name: String,
    mut value: String,
    c: char,
) -> Result<Option<State>, AllocError>
    ensures { IfOk result (λ s. readings_of s ≡
        step_char (InValue (entry_texts read.entries) (string_bytes name)
        (string_bytes value)) c) }
{
    match c {
        '"' if value.as_str().is_empty() => Ok(None),
        '"' => {
            read.insert(name, value)?;
            Ok(Some(State::Matched { read }))
        }
        '\\' => Ok(Some(State::Escaped { read, name, value })),
        '\n' => Ok(None),
        _ => {
            value.push(c)?;
            Ok(Some(State::InValue { read, name, value }))
        }
    }
}

/// What follows a backslash in a value.
fn after_backslash(
    read: Pairs,
    name: String,
    mut value: String,
    c: char,
) -> Result<Option<State>, AllocError>
    ensures { IfOk result (λ s. readings_of s ≡
        step_char (Escaped (entry_texts read.entries) (string_bytes name)
        (string_bytes value)) c) }
{
    let Some(meant) = unescaped(c) else {
        return Ok(None);
    };
    value.push(meant)?;
    Ok(Some(State::InValue { read, name, value }))
}

impl State {
    /// What is read with the character `c` more, or `None` where it cannot follow.
    fn step(self, alloc: Global, c: char) -> Result<Option<State>, AllocError>
        ensures { IfOk result (λ s. readings_of s ≡ step_char (reading_of self) c) }
    {
        match self {
            State::Start if c == '{' => Ok(Some(State::Next {
                read: BTreeMap::new(alloc),
            })),
            State::Next { read } if starts_name(c) => {
                longer_name(read, String::new(alloc), false, c)
            }
            State::InName {
                read,
                name,
                is_above,
            } => {
                if is_in_name(c) {
                    return longer_name(read, name, is_above, c);
                }
                if is_above && c == '=' {
                    return Ok(Some(State::Compared { read, name }));
                }
                Ok(None)
            }
            State::Compared { read, name } if c == '"' => Ok(Some(State::InValue {
                read,
                name,
                value: String::new(alloc),
            })),
            State::InValue { read, name, value } => in_value(read, name, value, c),
            State::Escaped { read, name, value } => after_backslash(read, name, value, c),
            State::Matched { read } if c == ',' => Ok(Some(State::Comma { read })),
            State::Matched { read } if c == '}' => Ok(Some(State::Closed { read })),
            State::Comma { read } if c == ' ' => Ok(Some(State::Next { read })),
            _ => Ok(None),
        }
    }

    /// The pairs, where the canonical name is read whole.
    fn closed(self) -> Option<Pairs>
        ensures { MatchOption result (closed_of (reading_of self) ≡
            None) (λ m. closed_of (reading_of self) ≡ Some (entry_texts m.entries)) }
    {
        match self {
            State::Closed { read } => Some(read),
            _ => None,
        }
    }
}

/// The pairs of a canonical name.
pub(crate) fn read_pairs(alloc: Global, text: &str) -> Result<Pairs, TextFault>
    ensures pairs { IfOk result (λ m. IsRead text.now (entry_texts m.entries)) }
    ensures fault { IfErr result (IsCanonicalFault text.now) }
{
    let mut state = State::Start;
    let mut at: usize = 0;
    for c in text.chars() {
        match state.step(alloc, c)? {
            Some(next) => state = next,
            None => return Err(TextFault::NotCanonical { at }),
        }
        at += c.len_utf8();
    }
    match state.closed() {
        Some(read) => Ok(read),
        None => Err(TextFault::NotCanonical { at }),
    }
}
