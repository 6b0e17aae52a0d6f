//! Accepted entries of one stream.
ghost use Rattle.std.specs.Prelude.{◌≡◌};
ghost use Rattle.ing_diary.specs.Notes.{notes_of};

use ing_chunk::Numbered;
use ing_parts::StreamName;
use ing_rows::Tenant;
use std::marker::Model;

/// Accepted entries of one stream, under their numbers. Contracts see a note of each. (Own.)
#[derive(Drop)]
pub struct Noted {
    pub(crate) tenant: Tenant,
    pub(crate) name: StreamName,
    pub(crate) entries: Vec<Numbered>,
}

impl Model for Noted {
    ghost use Rattle.std.specs.Prelude.{List};
    ghost use Rattle.ing_diary.specs.Notes.{Note, notes_of};

    ghost Value = { List Note };

    ghost view = { λ noted. notes_of (record { tenant = noted.tenant; name = noted.name }) noted.entries.items };
}
