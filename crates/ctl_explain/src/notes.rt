//! Members that a command does not have.
ghost use Rattle.std.specs.Prelude.{◌≡◌, IfOk, map};
ghost use Rattle.serde_json.specs.View.{view, members_view};
ghost use Rattle.ctl_explain.specs.Notes as specs;

use crate::member::Field;
use crate::nearest::nearest;
use crate::walk::fields_of;
use ing_commands::shape::text_at;
use serde_json::{Map, Value};
use std::alloc::{AllocError, Global};
use std::fmt;

/// A member that a command does not have, and which `ingestd` ignores (own).
#[derive(Debug, Drop)]
pub struct Note<'a> {
    /// Which command it is.
    pub cmd: &'a str,
    /// The name of the member.
    pub name: &'a str,
    /// The name that may be meant, of which no clause speaks.
    pub meant: Option<&'static str>,
}

/// The members of the object of a line that its command does not have, in byte order of their names. None where
/// the line has no command. It fails only where memory runs out. (Own.)
pub fn notes_of<'a>(alloc: Global, value: &'a Value) -> Result<Vec<Note<'a>>, AllocError>
    ensures { IfOk result (λ notes. map (λ note. note.name.now) notes.items
        ≡ specs.strangers_of (view value.now)) }
{
    let mut notes = Vec::new(alloc);
    let (Some(members), Ok(cmd)) = (value.as_object(), text_at(value, "cmd")) else {
        return Ok(notes);
    };
    let names = strangers(alloc, cmd, members)?;
    for name in &names {
        let meant = meant_by(alloc, cmd, name)?;
        notes.push(Note { cmd, name, meant })?;
    }
    Ok(notes)
}

/// The names of the members that a command does not have.
fn strangers<'a>(
    alloc: Global,
    cmd: &str,
    members: &'a Map<String, Value>,
) -> Result<Vec<&'a str>, AllocError>
    ensures { IfOk result (λ names. map (λ name. name.now) names.items
        ≡ specs.strangers cmd.now (members_view members.now.entries)) }
{
    let mut names = Vec::new(alloc);
    for (name, _) in members.iter() {
        if !has_member(cmd, name.as_str()) {
            names.push(name.as_str())?;
        }
    }
    Ok(names)
}

/// Whether a command has a member of this name. Of one that is none nothing is said.
fn has_member(cmd: &str, name: &str) -> bool
    ensures { result ≡ specs.has_member cmd.now name.now }
{
    if name == "cmd" {
        return true;
    }
    for field in fields_of(cmd) {
        if may_be(*field, name) {
            return true;
        }
    }
    false
}

/// Whether a member has this name, or the command is none.
fn may_be(field: Field, name: &str) -> bool
    ensures { result ≡ specs.may_be field name.now }
{
    matches!(field, Field::Cmd) || field.name() == name
}

/// The name of a member of a command that is near to this one.
fn meant_by(alloc: Global, cmd: &str, name: &str) -> Result<Option<&'static str>, AllocError> {
    let mut all = Vec::new(alloc);
    for field in fields_of(cmd) {
        all.push(field.name())?;
    }
    nearest(alloc, name, &all)
}

/// As `` `flush` has no member `force`: forced``.
impl fmt::Display for Note<'_> {
    fn fmt<W: fmt::Write>(&self, f: &mut fmt::Formatter<W>) -> fmt::Result {
        write!(f, "`{}` has no member `{}`", self.cmd, self.name)?;
        match self.meant {
            Some(meant) => write!(f, ": {meant}"),
            None => Ok(()),
        }
    }
}
