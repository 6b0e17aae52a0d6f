//! Members that the streams of a push do not have.
ghost use Rattle.std.specs.Prelude.{◌≡◌, ◌++◌, IfOk, OnOk, map};
ghost use Rattle.serde_json.specs.View.{view, members_view};
ghost use Rattle.ctl_explain.specs.StreamNotes as specs;

use crate::nearest::nearest;
use ing_commands::shape::{array_at, text_at};
use serde_json::{Map, Value};
use std::alloc::{AllocError, Global};
use std::fmt;

/// The members that a stream of a push has.
const MEMBERS: [&str; 2] = ["stream", "values"];

/// A member of a stream of a push which no stream has, and which `ingestd` ignores (own).
#[derive(Debug, Drop)]
pub struct StreamNote<'a> {
    /// Which stream of the push it is, counted from 0.
    pub stream: usize,
    /// The name of the member.
    pub name: &'a str,
    /// The name that may be meant, of which no clause speaks.
    pub meant: Option<&'static str>,
}

/// The members of the streams of a push beside `stream` and `values`: stream by stream, in byte
/// order of their names. None where the line is no push, or has no list of streams. It fails only
/// where memory runs out. (Own.)
pub fn stream_notes_of<'a>(
    alloc: Global,
    value: &'a Value,
) -> Result<Vec<StreamNote<'a>>, AllocError>
    ensures { IfOk result (λ notes. map (λ note. (note.stream, note.name.now)) notes.items
        ≡ specs.strangers_of (view value.now)) }
{
    let mut notes = Vec::new(alloc);
    let (Ok(cmd), Ok(list)) = (text_at(value, "cmd"), array_at(value, "streams")) else {
        return Ok(notes);
    };
    if cmd != "push" {
        return Ok(notes);
    }
    for (at, stream) in list.iter().enumerate() {
        add_notes(alloc, &mut notes, at, stream)?;
    }
    Ok(notes)
}

/// Adds a note on each member of a stream that no stream has.
fn add_notes<'a>(
    alloc: Global,
    notes: &mut Vec<StreamNote<'a>>,
    at: usize,
    stream: &'a Value,
) -> Result<(), AllocError>
    ensures { OnOk result (map (λ note. (note.stream, note.name.now)) notes.new.items
        ≡ map (λ note. (note.stream, note.name.now)) notes.old.items
        ++ specs.strangers_in at (view stream.now)) }
{
    match stream.as_object() {
        Some(members) => add_strangers(alloc, notes, at, members),
        None => Ok(()),
    }
}

/// Adds a note on each of these members that no stream has.
fn add_strangers<'a>(
    alloc: Global,
    notes: &mut Vec<StreamNote<'a>>,
    at: usize,
    members: &'a Map<String, Value>,
) -> Result<(), AllocError>
    ensures { OnOk result (map (λ note. (note.stream, note.name.now)) notes.new.items
        ≡ map (λ note. (note.stream, note.name.now)) notes.old.items
        ++ specs.strangers at (members_view members.now.entries)) }
{
    for (name, _) in members.iter() {
        if !is_member(name.as_str()) {
            let meant = nearest(alloc, name.as_str(), &MEMBERS)?;
            notes.push(StreamNote {
                stream: at,
                name: name.as_str(),
                meant,
            })?;
        }
    }
    Ok(())
}

/// Whether a stream of a push has a member of this name.
fn is_member(name: &str) -> bool
    ensures { result ≡ specs.is_member name.now }
{
    name == "stream" || name == "values"
}

/// As `` stream 0 of `push` has no member `value`: values``.
impl fmt::Display for StreamNote<'_> {
    fn fmt<W: fmt::Write>(&self, f: &mut fmt::Formatter<W>) -> fmt::Result {
        write!(
            f,
            "stream {} of `push` has no member `{}`",
            self.stream, self.name
        )?;
        match self.meant {
            Some(meant) => write!(f, ": {meant}"),
            None => Ok(()),
        }
    }
}
