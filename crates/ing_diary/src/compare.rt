//! References to notes, and their order.
ghost use Rattle.std.specs.Prelude.{◌≡◌, ◌<◌, ◌++◌, IsPermutation, OnOk, filter, true, false};
ghost use Rattle.std.specs.List.{flat_map};
ghost use Rattle.std.specs.List.Sorted.{IsSortedBy};
ghost use Rattle.ing_diary.specs.Notes.{is_in_shard, note_before, note_cmp, notes_of};
ghost use Rattle.ing_rows.specs.Rows.{StreamKey};

use crate::noted::Noted;
use ing_chunk::Numbered;
use ing_parts::StreamName;
use ing_rows::{Tenant, shard_of};
use std::alloc::AllocError;
use std::cmp::Ordering;
use std::marker::Model;

/// A note that stands elsewhere: an accepted entry of a stream, under its number. Contracts see the note. (Own.)
#[derive(Drop)]
pub struct NoteRef<'a> {
    pub(crate) tenant: &'a Tenant,
    pub(crate) name: &'a StreamName,
    pub(crate) numbered: &'a Numbered,
}

impl<'a> Model for NoteRef<'a> {
    ghost use Rattle.ing_diary.specs.Notes.{Note, note_of_numbered};

    ghost Value = { Note };

    ghost view = { λ note. note_of_numbered (record { tenant = note.tenant.now; name = note.name.now }) note.numbered.now };
}

/// Adds a reference to each note to a list. `AllocError` where memory runs out.
pub(crate) fn spread<'a>(
    notes: &mut Vec<NoteRef<'a>>,
    pushes: &'a [Noted],
) -> Result<(), AllocError>
    ensures { OnOk result (notes.new.items ≡ notes.old.items ++ flat_map (λ noted. noted) pushes.now) }
{
    for noted in pushes {
        spread_one(notes, noted)?;
    }
    Ok(())
}

/// Adds a reference to each note of a shard, of so many, to a list.
pub(crate) fn spread_of<'a>(
    notes: &mut Vec<NoteRef<'a>>,
    pushes: &'a [Noted],
    shards: u32,
    shard: u32,
) -> Result<(), AllocError>
    requires { 0 < shards }
    ensures { OnOk result (notes.new.items
        ≡ notes.old.items ++ filter (is_in_shard shards shard) (flat_map (λ noted. noted) pushes.now)) }
{
    for noted in pushes {
        spread_if(notes, noted, shards, shard)?;
    }
    Ok(())
}

/// The same of one push, all of one stream.
fn spread_if<'a>(
    notes: &mut Vec<NoteRef<'a>>,
    noted: &'a Noted,
    shards: u32,
    shard: u32,
) -> Result<(), AllocError>
    requires { 0 < shards }
    ensures { OnOk result (notes.new.items
        ≡ notes.old.items ++ filter (is_in_shard shards shard) noted.now) }
{
    if shard_of(&noted.tenant, noted.name.as_str(), shards) == shard {
        spread_one(notes, noted)
    } else {
        Ok(())
    }
}

/// Adds a reference to each note of one push to a list.
fn spread_one<'a>(notes: &mut Vec<NoteRef<'a>>, noted: &'a Noted) -> Result<(), AllocError>
    ensures { OnOk result (notes.new.items ≡ notes.old.items ++ noted.now) }
{
    add_refs(notes, &noted.tenant, &noted.name, &noted.entries)
}

/// Adds a reference to each of the entries of a stream to a list.
fn add_refs<'a>(
    notes: &mut Vec<NoteRef<'a>>,
    tenant: &'a Tenant,
    name: &'a StreamName,
    entries: &'a [Numbered],
) -> Result<(), AllocError>
    ensures { let s : StreamKey = record { tenant = tenant.now; name = name.now } in
        OnOk result (notes.new.items ≡ notes.old.items ++ notes_of s entries.now) }
{
    for numbered in entries {
        notes.push(NoteRef {
            tenant,
            name,
            numbered,
        })?;
    }
    Ok(())
}

/// How one stands to another: by tenant, then by name, then by number.
pub(crate) fn compare(one: &NoteRef<'_>, other: &NoteRef<'_>) -> Ordering
    ensures { result ≡ note_cmp one.now other.now }
{
    let key = (one.tenant.as_str(), one.name.as_str(), one.numbered.number);
    let with = (
        other.tenant.as_str(),
        other.name.as_str(),
        other.numbered.number,
    );
    key.cmp(&with)
}

/// Brings notes into their order.
pub(crate) fn sort(notes: &mut Vec<NoteRef<'_>>)
    ensures same { IsPermutation notes.old.items notes.new.items }
    ensures sorted { IsSortedBy note_before notes.new.items }
{
    notes.sort_unstable_by(|one, other| compare(one, other));
}

/// Whether two have the same entry.
pub(crate) fn is_same_entry(one: &NoteRef<'_>, other: &NoteRef<'_>) -> bool
    ensures yes { result ≡ true → one.now.entry ≡ other.now.entry }
    ensures no { result ≡ false → one.now.entry ≡ other.now.entry → ⊥ }
{
    let entry = &one.numbered.entry;
    entry.stamp == other.numbered.entry.stamp
        && entry.line.as_str() == other.numbered.entry.line.as_str()
}
