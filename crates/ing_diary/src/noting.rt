//! What is to be noted of a push.
ghost use Rattle.std.specs.Prelude.{◌≡◌, ◌+◌, ◌++◌, ◌<◌, ◌≤◌, IfOk, slice_get, vec_capacity, vec_len};
ghost use Rattle.ing_rows.specs.Rows.{StreamKey};
ghost use Rattle.ing_diary.specs.Notes.{note_under, noted, notes_of, number_told};
ghost use Rattle.ing_rows.specs.Verdicts.{accepted_number};
ghost use Rattle.ing_shard.specs.Contents.{stream_of};

use crate::noted::Noted;
use ing_chunk::Numbered;
use ing_labels::Labels;
use ing_parts::StreamName;
use ing_rows::{Entry, Tenant, Verdict};
use std::alloc::{AllocError, Global};
use std::marker::Model;

/// Copies of pushed entries of one stream, of which those that are accepted will be noted, with the room for that. Contracts see
/// the stream and the entries. (Own.)
#[derive(Drop)]
pub struct Draft {
    tenant: Tenant,
    name: StreamName,
    copies: Vec<Entry>,
    room: Vec<Numbered>,
}

impl Model for Draft {
    ghost use Rattle.std.specs.Prelude.{◌≡◌, ◌≤◌, vec_capacity, vec_len};
    ghost use Rattle.ing_diary.specs.Notes.{Drafted};

    ghost Value = { Drafted };

    ghost view = { λ draft. record {
      stream = record { tenant = draft.tenant; name = draft.name };
      entries = draft.copies.items;
    } };

    ghost invariant = { λ draft. (vec_len draft.room ≡ 0) × (vec_len draft.copies ≤ vec_capacity draft.room) };
}

impl Draft {
    /// Copies of these entries of a stream. `AllocError` where memory runs out.
    pub fn of(
        alloc: Global,
        tenant: &Tenant,
        labels: &Labels,
        entries: &[Entry],
    ) -> Result<Draft, AllocError>
        ensures stream { IfOk result (λ draft. draft.stream ≡ stream_of tenant.now labels.now) }
        ensures entries { IfOk result (λ draft. draft.entries ≡ entries.now) }
    {
        Ok(Draft {
            tenant: tenant.try_clone(alloc)?,
            name: StreamName::of_labels(labels)?,
            copies: copies_of(alloc, entries)?,
            room: Vec::with_capacity(alloc, entries.len())?,
        })
    }

    /// The accepted ones under the numbers of their verdicts, of which there is one for each entry. Takes no memory.
    pub fn note(self, verdicts: &[Verdict]) -> Noted
        ensures { result ≡ noted self.stream self.entries verdicts.now }
    {
        let Draft {
            tenant,
            name,
            copies,
            room,
        } = self;
        let entries = accepted_of(copies, verdicts, room);
        Noted {
            tenant,
            name,
            entries,
        }
    }
}

/// Copies of entries.
fn copies_of(alloc: Global, entries: &[Entry]) -> Result<Vec<Entry>, AllocError>
    ensures { IfOk result (λ copies. copies.items ≡ entries.now) }
{
    let mut copies = Vec::with_capacity(alloc, entries.len())?;
    for entry in entries {
        copies.push(entry.try_clone(alloc)?)?;
    }
    Ok(copies)
}

/// The accepted ones of entries, under the numbers of their verdicts, in a list that has room for all.
fn accepted_of(
    entries: Vec<Entry>,
    verdicts: &[Verdict],
    mut accepted: Vec<Numbered>,
) -> Vec<Numbered>
    requires empty { vec_len accepted ≡ 0 }
    requires room { vec_len entries ≤ vec_capacity accepted }
    ensures { (s : StreamKey) → notes_of s result.items ≡ noted s entries.items verdicts.now }
{
    let mut place = 0;
    for entry in entries {
        add_under(&mut accepted, entry, number_at(verdicts, place));
        place += 1;
    }
    accepted
}

/// Adds an entry under the number that it was given, if it was given one.
fn add_under(accepted: &mut Vec<Numbered>, entry: Entry, number: Option<u64>)
    requires { vec_len accepted.old < vec_capacity accepted.old }
    ensures noted { (s : StreamKey) →
        notes_of s accepted.new.items ≡ notes_of s accepted.old.items ++ note_under s entry number }
    ensures count { vec_len accepted.new ≤ vec_len accepted.old + 1 }
    ensures room { vec_capacity accepted.new ≡ vec_capacity accepted.old }
{
    if let Some(number) = number {
        accepted.push_reserved(Numbered { number, entry });
    }
}

/// The number that the verdict at a place gives.
fn number_at(verdicts: &[Verdict], place: usize) -> Option<u64>
    ensures { result ≡ number_told (slice_get verdicts.now place) }
{
    match verdicts.get(place) {
        Some(verdict) => number_in(verdict),
        None => None,
    }
}

/// The number that a verdict gives.
fn number_in(verdict: &Verdict) -> Option<u64>
    ensures { result ≡ accepted_number verdict.now }
{
    match verdict {
        Verdict::Accepted { number } => Some(*number),
        Verdict::Duplicate
        | Verdict::LineTooLong
        | Verdict::TooFarBehind { .. }
        | Verdict::TooManyStreams { .. } => None,
    }
}
