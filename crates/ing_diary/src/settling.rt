//! Whether the entries of a shard are exactly what was noted.
ghost use Rattle.std.specs.Prelude.{◌≡◌, IfErr, IfNone, IfOk, IfSome, OnOk};
ghost use Rattle.std.specs.List.Sorted.{IsSortedBy};
ghost use Rattle.ing_diary.specs.Faults.{AreCounted, IsNoBadObject, NamesOther, stream_in};
ghost use Rattle.ing_diary.specs.Fronts.{front_in, rows_since};
ghost use Rattle.ing_diary.specs.Notes.{AreNoted, HaveNotedPlaces, IsAmiss, IsUnlike, amiss_in, note_before};

use crate::compare::{NoteRef, compare, is_same_entry, sort, spread};
use crate::fault::{Mismatch, Unsettled};
use crate::fronts::Fronts;
use crate::reading::read_since;
use ing_shard::Shard;
use ing_store::StoreEnd;
use std::alloc::{AllocError, Global};
use std::cmp::Ordering;

/// Reads the entries of a shard back that came since its streams had these fronts, and compares them with what was noted: it is Ok only
/// where they are exactly the notes, each once. Over whatever end, each stands under its number where it was noted; over an honest one it
/// is the entry that was noted. It takes memory for all of them. (Own.)
///
/// `Differs` names an entry that stands in the one or the other, and not exactly once and alike in both; of several, one. `Query` where not all could be read:
/// `StoreFault` only where the end has failed, `BadObject` never over an honest end, and `NoMemory`.
pub fn settle<S: StoreEnd>(
    alloc: Global,
    shard: &Shard<S::Receipt>,
    end: &mut S,
    fronts: &Fronts,
    notes: Vec<NoteRef<'_>>,
) -> Result<(), Unsettled>
    ensures settled { let rows = rows_since (front_in fronts.now) shard.now.state.rows in
        S.is_honest → OnOk result (AreNoted rows notes.entry.items) }
    ensures places { let rows = rows_since (front_in fronts.now) shard.now.state.rows in
        OnOk result (HaveNotedPlaces rows notes.entry.items) }
    ensures differs { let rows = rows_since (front_in fronts.now) shard.now.state.rows in
        S.is_honest → IfErr result (NamesOther rows notes.entry.items) }
    ensures honest { S.is_honest → IfErr result IsNoBadObject }
    ensures count { AreCounted (S.failure_count end.old) (S.failure_count end.new) result }
    ensures sure { S.never_fails end.old → (S.never_fails end.new)
        × (S.failure_count end.new ≡ S.failure_count end.old) }
{
    let read = read_since(alloc, shard, end, fronts)?;
    let mut ours = Vec::new(alloc);
    spread(&mut ours, &read)?;
    let mut theirs = notes;
    sort(&mut ours);
    sort(&mut theirs);
    match first_amiss(&ours, &theirs) {
        None => Ok(()),
        Some(amiss) => Err(Unsettled::Differs(named(alloc, &ours, &theirs, amiss)?)),
    }
}

/// Where a note stands that has not its like: its place in the one list, or in the other.
#[derive(Clone, Copy, Debug)]
enum Amiss {
    Ours(usize),
    Theirs(usize),
}

/// The first of two lists in order that has not its like in the other, and `None` where they are the same.
fn first_amiss(ours: &[NoteRef<'_>], theirs: &[NoteRef<'_>]) -> Option<Amiss>
    requires ours { IsSortedBy note_before ours.now }
    requires theirs { IsSortedBy note_before theirs.now }
    ensures same { IfNone result (ours.now ≡ theirs.now) }
    ensures amiss { IfSome result (λ amiss. IsAmiss ours.now theirs.now (amiss_in ours.now theirs.now amiss)) }
{
    for place in 0..ours.len() {
        if place == theirs.len() {
            return Some(Amiss::Ours(place));
        }
        let one = &ours[place];
        let other = &theirs[place];
        match compare(one, other) {
            Ordering::Less => return Some(Amiss::Ours(place)),
            Ordering::Greater => return Some(Amiss::Theirs(place)),
            Ordering::Equal => {}
        }
        if !is_same_entry(one, other) {
            return Some(Amiss::Ours(place));
        }
    }
    if ours.len() < theirs.len() {
        return Some(Amiss::Theirs(ours.len()));
    }
    None
}

/// What is said of the note at a place.
fn named(
    alloc: Global,
    ours: &[NoteRef<'_>],
    theirs: &[NoteRef<'_>],
    amiss: Amiss,
) -> Result<Mismatch, AllocError>
    requires { IsAmiss ours.now theirs.now (amiss_in ours.now theirs.now amiss) }
    ensures { IfOk result (λ mismatch.
        IsUnlike (stream_in mismatch) mismatch.number ours.now theirs.now) }
{
    match amiss {
        Amiss::Ours(place) => mismatch_of(alloc, &ours[place]),
        Amiss::Theirs(place) => mismatch_of(alloc, &theirs[place]),
    }
}

/// What is said of a note.
fn mismatch_of(alloc: Global, note: &NoteRef<'_>) -> Result<Mismatch, AllocError>
    ensures { IfOk result (λ mismatch.
        (stream_in mismatch ≡ note.now.stream) × (mismatch.number ≡ note.now.number)) }
{
    Ok(Mismatch {
        tenant: String::from_str(alloc, note.tenant.as_str())?,
        stream: String::from_str(alloc, note.name.as_str())?,
        number: note.numbered.number,
    })
}
