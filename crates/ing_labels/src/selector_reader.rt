//! A selector text read character by character.
ghost use Rattle.std.specs.Prelude.{◌≡◌, IfOk, IfErr, MatchOption};
ghost use Rattle.std.specs.Char.{encode_utf8};
ghost use Rattle.std.specs.String.{string_bytes};
ghost use Rattle.ing_labels.specs.Names as names;
ghost use Rattle.ing_labels.specs.Selectors.{is_space, IsSelectorText};
ghost use Rattle.ing_labels.specs.TextFaults.{IsGrammarFault};
ghost use Rattle.ing_labels.specs.Reading as reading;
ghost use Rattle.ing_labels.specs.Reading.{reading_of, readings_of, step_char, Opened, InName, Compared, InValue, Escaped, Matched, Comma, closed_of};

use crate::selector::{MatchOp, Matcher};
use crate::text_fault::TextFault;
use std::alloc::{AllocError, Global};

/// What is read so far. `read` has the whole matchers.
#[derive(Drop)]
pub(crate) enum State {
    /// White space.
    Start,
    /// The opening brace.
    Opened,
    /// A part of a name.
    InName {
        read: Vec<Matcher>,
        name: String,
    },
    /// A name, and white space.
    Named {
        read: Vec<Matcher>,
        name: String,
    },
    /// A name and a `!`.
    Bang {
        read: Vec<Matcher>,
        name: String,
    },
    /// A name and an operator.
    Compared {
        read: Vec<Matcher>,
        name: String,
        op: MatchOp,
    },
    /// A name, an operator, a quote and a part of a value.
    InValue {
        read: Vec<Matcher>,
        name: String,
        op: MatchOp,
        value: String,
    },
    /// The same, and a backslash.
    Escaped {
        read: Vec<Matcher>,
        name: String,
        op: MatchOp,
        value: String,
    },
    /// A whole matcher, the last of these.
    Matched {
        read: Vec<Matcher>,
    },
    /// A comma.
    Comma {
        read: Vec<Matcher>,
    },
    /// The closing brace.
    Closed {
        read: Vec<Matcher>,
    },
}

/// Whether this is white space.
fn is_white(c: char) -> bool
    ensures { result ≡ is_space c }
{
    c == ' ' || c == '\t' || c == '\n' || c == '\r'
}

/// Whether a name may begin with this character.
pub(crate) fn starts_name(c: char) -> bool
    ensures { result ≡ names.is_name_start c }
{
    c.is_ascii_lowercase() || c.is_ascii_uppercase() || c == '_'
}

/// Whether this character may stand in a name.
pub(crate) fn is_in_name(c: char) -> bool
    ensures { result ≡ names.is_name_byte c }
{
    starts_name(c) || c.is_ascii_digit()
}

/// A name that begins.
fn new_name(alloc: Global, read: Vec<Matcher>, c: char) -> Result<State, AllocError>
    ensures { IfOk result (λ s. reading_of s ≡ InName read.items (encode_utf8 c)) }
{
    let mut name = String::new(alloc);
    name.push(c)?;
    Ok(State::InName { read, name })
}

/// What follows the opening brace.
fn after_open(alloc: Global, c: char) -> Result<Option<State>, AllocError>
    ensures { IfOk result (λ s. readings_of s ≡ step_char Opened c) }
{
    if starts_name(c) {
        return Ok(Some(new_name(alloc, Vec::new(alloc), c)?));
    }
    Ok(match c {
        '}' => Some(State::Closed {
            read: Vec::new(alloc),
        }),
        _ if is_white(c) => Some(State::Opened),
        _ => None,
    })
}

/// What follows a comma.
fn after_comma(alloc: Global, read: Vec<Matcher>, c: char) -> Result<Option<State>, AllocError>
    ensures { IfOk result (λ s. readings_of s ≡ step_char (Comma read.items) c) }
{
    if starts_name(c) {
        return Ok(Some(new_name(alloc, read, c)?));
    }
    if is_white(c) {
        return Ok(Some(State::Comma { read }));
    }
    Ok(None)
}

/// What follows a name.
fn after_name(read: Vec<Matcher>, name: String, c: char) -> Option<State>
    ensures { readings_of result ≡ reading.after_name read.items (string_bytes name) c }
{
    match c {
        '=' => Some(State::Compared {
            read,
            name,
            op: MatchOp::Equals,
        }),
        '!' => Some(State::Bang { read, name }),
        _ if is_white(c) => Some(State::Named { read, name }),
        _ => None,
    }
}

/// What follows an operator.
fn after_op(alloc: Global, read: Vec<Matcher>, name: String, op: MatchOp, c: char) -> Option<State>
    ensures { readings_of result ≡ step_char (Compared read.items (string_bytes name) op) c }
{
    match c {
        '"' => Some(State::InValue {
            read,
            name,
            op,
            value: String::new(alloc),
        }),
        _ if is_white(c) => Some(State::Compared { read, name, op }),
        _ => None,
    }
}

/// What follows a part of a value.
fn in_value(
    mut read: Vec<Matcher>,
    name: String,
    op: MatchOp,
    mut value: String,
    c: char,
) -> Result<Option<State>, AllocError>
    ensures { IfOk result (λ s. readings_of s ≡
        step_char (InValue read.items (string_bytes name) op (string_bytes value)) c) }
{
    match c {
        '"' => {
            read.push(Matcher::new(name, op, value))?;
            Ok(Some(State::Matched { read }))
        }
        '\\' => Ok(Some(State::Escaped {
            read,
            name,
            op,
            value,
        })),
        '\n' => Ok(None),
        _ => {
            value.push(c)?;
            Ok(Some(State::InValue {
                read,
                name,
                op,
                value,
            }))
        }
    }
}

/// The character that an escape stands for.
pub(crate) fn unescaped(c: char) -> Option<char>
    ensures { result ≡ reading.unescaped c }
{
    match c {
        '\\' => Some('\\'),
        '"' => Some('"'),
        'n' => Some('\n'),
        _ => None,
    }
}

/// What follows a backslash in a value.
fn after_backslash(
    read: Vec<Matcher>,
    name: String,
    op: MatchOp,
    mut value: String,
    c: char,
) -> Result<Option<State>, AllocError>
    ensures { IfOk result (λ s. readings_of s ≡
        step_char (Escaped read.items (string_bytes name) op (string_bytes value)) c) }
{
    let Some(meant) = unescaped(c) else {
        return Ok(None);
    };
    value.push(meant)?;
    Ok(Some(State::InValue {
        read,
        name,
        op,
        value,
    }))
}

/// What follows a matcher.
fn after_matcher(read: Vec<Matcher>, c: char) -> Option<State>
    ensures { readings_of result ≡ step_char (Matched read.items) c }
{
    match c {
        ',' => Some(State::Comma { read }),
        '}' => Some(State::Closed { read }),
        _ if is_white(c) => Some(State::Matched { read }),
        _ => None,
    }
}

impl State {
    /// What is read with the character `c` more, or `None` where it cannot follow.
    pub(crate) fn step(self, alloc: Global, c: char) -> Result<Option<State>, AllocError>
        ensures { IfOk result (λ s. readings_of s ≡ step_char (reading_of self) c) }
    {
        match self {
            State::Start if c == '{' => Ok(Some(State::Opened)),
            State::Start if is_white(c) => Ok(Some(State::Start)),
            State::Opened => after_open(alloc, c),
            State::InName { read, mut name } if is_in_name(c) => {
                name.push(c)?;
                Ok(Some(State::InName { read, name }))
            }
            State::InName { read, name } => Ok(after_name(read, name, c)),
            State::Named { read, name } => Ok(after_name(read, name, c)),
            State::Bang { read, name } if c == '=' => Ok(Some(State::Compared {
                read,
                name,
                op: MatchOp::Differs,
            })),
            State::Compared { read, name, op } => Ok(after_op(alloc, read, name, op, c)),
            State::InValue {
                read,
                name,
                op,
                value,
            } => in_value(read, name, op, value, c),
            State::Escaped {
                read,
                name,
                op,
                value,
            } => after_backslash(read, name, op, value, c),
            State::Matched { read } => Ok(after_matcher(read, c)),
            State::Comma { read } => after_comma(alloc, read, c),
            State::Closed { read } if is_white(c) => Ok(Some(State::Closed { read })),
            _ => Ok(None),
        }
    }

    /// The matchers, where the selector is read whole.
    fn closed(self) -> Option<Vec<Matcher>>
        ensures { MatchOption result (closed_of (reading_of self) ≡
            None) (λ v. closed_of (reading_of self) ≡ Some v.items) }
    {
        match self {
            State::Closed { read } => Some(read),
            _ => None,
        }
    }
}

/// The matchers of a selector text, in its order.
pub(crate) fn read_matchers(alloc: Global, text: &str) -> Result<Vec<Matcher>, TextFault>
    ensures ok { IfOk result (λ v. IsSelectorText v.items text.now) }
    ensures fault { IfErr result (IsGrammarFault text.now) }
{
    let mut state = State::Start;
    let mut at: usize = 0;
    for c in text.chars() {
        match state.step(alloc, c)? {
            Some(next) => state = next,
            None => return Err(TextFault::BadSelector { at }),
        }
        at += c.len_utf8();
    }
    match state.closed() {
        Some(read) => Ok(read),
        None => Err(TextFault::BadSelector { at }),
    }
}
