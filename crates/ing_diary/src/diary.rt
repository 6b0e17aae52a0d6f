//! What one pusher notes.
ghost use Rattle.std.specs.Prelude.{◌≡◌, ◌<◌, ◌++◌, [], None, OnOk, Some, filter};
ghost use Rattle.ing_diary.specs.Notes.{is_in_shard, noted_of};
ghost use Rattle.ing_shard.specs.Contents.{stream_of};

use crate::compare::{NoteRef, spread_of};
use crate::noted::Noted;
use crate::noting::Draft;
use ing_labels::Labels;
use ing_rows::{Entry, Tenant, Verdict};
use std::alloc::{AllocError, Global};
use std::marker::Model;

/// All entries that one pusher was told were accepted, and the entries of the push that is under way. Contracts see a
/// note of each, and that push. (Own.)
#[derive(Drop)]
pub struct Diary {
    pushes: Vec<Noted>,
    pending: Option<Draft>,
}

impl Model for Diary {
    ghost use Rattle.std.specs.Prelude.{◌+◌, ◌≤◌, IfSome, vec_capacity, vec_len};
    ghost use Rattle.std.specs.List.{flat_map};
    ghost use Rattle.ing_diary.specs.Notes.{DiaryState};

    ghost Value = { DiaryState };

    ghost view = { λ diary. record {
      notes = flat_map (λ noted. noted) diary.pushes.items;
      pending = diary.pending;
    } };

    // There is room for the push that is under way.
    ghost invariant = { λ diary. IfSome diary.pending (λ _. vec_len diary.pushes + 1 ≤ vec_capacity diary.pushes) };
}

impl Diary {
    /// Without an entry. Takes no memory.
    pub fn new(alloc: Global) -> Diary
        ensures { result.notes ≡ [] }
    {
        Diary {
            pushes: Vec::new(alloc),
            pending: None,
        }
    }

    /// Copies the entries of a push that is to come, and makes room for them; what was under way before is let go. `AllocError`
    /// where memory runs out: then nothing is under way.
    pub fn begin(
        &mut self,
        alloc: Global,
        tenant: &Tenant,
        labels: &Labels,
        entries: &[Entry],
    ) -> Result<(), AllocError>
        ensures notes { self.new.notes ≡ self.old.notes }
        ensures begun { OnOk result (self.new.pending
            ≡ Some (record { stream = stream_of tenant.now labels.now; entries = entries.now })) }
    {
        self.pending = None;
        self.pushes.reserve(1)?;
        self.pending = Some(Draft::of(alloc, tenant, labels, entries)?);
        Ok(())
    }

    /// Notes the accepted entries of the push that is under way, under the numbers of their verdicts. Takes no memory.
    pub fn note(&mut self, verdicts: &[Verdict])
        ensures notes { self.new.notes ≡ self.old.notes ++ noted_of self.old.pending verdicts.now }
        ensures pending { self.new.pending ≡ None }
    {
        if let Some(draft) = self.pending.take() {
            self.pushes.push_reserved(draft.note(verdicts));
        }
    }

    /// Adds a reference to each note of a shard, of so many, to a list. `AllocError` where memory runs out.
    pub fn spread_into<'a>(
        &'a self,
        notes: &mut Vec<NoteRef<'a>>,
        shards: u32,
        shard: u32,
    ) -> Result<(), AllocError>
        requires { 0 < shards }
        ensures { OnOk result (notes.new.items
            ≡ notes.old.items ++ filter (is_in_shard shards shard) self.now.notes) }
    {
        spread_of(notes, &self.pushes, shards, shard)
    }
}
