//! An entry of an answer.
ghost use Rattle.std.specs.Prelude.{◌≡◌, IfOk};

use ing_rows::{Line, Stamp};
use std::alloc::{AllocError, Global};
use std::marker::Model;

/// The canonical name of a stream, as an answer has it.
#[derive(Debug, Drop)]
pub struct Name {
    text: String,
}

impl Model for Name {
    ghost use Rattle.std.specs.Prelude.{List, ℕ, string_bytes};

    ghost Value = { List ℕ };

    ghost view = { λ name. string_bytes name.text };
}

impl Name {
    /// A name with a copy of this text.
    pub fn of_text(alloc: Global, text: &str) -> Result<Name, AllocError>
        ensures { IfOk result (λ name. name ≡ text.now) }
    {
        Ok(Name {
            text: String::from_str(alloc, text)?,
        })
    }

    /// Its text.
    pub fn as_str(&self) -> &str
        ensures { result.now ≡ self.now }
    {
        self.text.as_str()
    }
}

/// An entry of an answer (own).
#[derive(Debug, Drop)]
pub struct Told {
    /// Its stream.
    pub stream: Name,
    /// When it was logged.
    pub stamp: Stamp,
    /// What was logged.
    pub line: Line,
}
