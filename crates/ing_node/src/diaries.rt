//! The diary of a pusher, where it keeps one.
ghost use Rattle.std.specs.Prelude.{◌≡◌, List, [], OnOk, is_some};
ghost use Rattle.ing_rows.specs.declared.entry.Entry.{Entry};
ghost use Rattle.ing_rows.specs.Rows.{StreamKey};
ghost use Rattle.ing_diary.specs.Notes.{noted};
ghost use Rattle.ing_node.specs.Diaries.{IsBegun, notes_in, notes_kept, with_notes};
ghost use Rattle.ing_begun.specs.Contents.{stream_of};

use ing_diary::Diary;
use ing_labels::Labels;
use ing_rows::{Entry, Tenant, Verdict};
use std::alloc::{AllocError, Global};

/// A diary without an entry, where one is to be kept. Takes no memory.
pub(crate) fn new_diary(alloc: Global, kept: bool) -> Option<Diary>
    ensures kept { is_some result ≡ kept }
    ensures empty { notes_kept (notes_in result) ≡ [] }
{
    if kept { Some(Diary::new(alloc)) } else { None }
}

/// Begins to note a push, where a diary is kept.
pub(crate) fn begin_note(
    diary: &mut Option<Diary>,
    alloc: Global,
    tenant: &Tenant,
    labels: &Labels,
    entries: &[Entry],
) -> Result<(), AllocError>
    ensures same { notes_in diary.new ≡ notes_in diary.old }
    ensures begun { OnOk result (IsBegun (stream_of tenant.now labels.now) entries.now diary.new) }
{
    match diary {
        Some(diary) => diary.begin(alloc, tenant, labels, entries),
        None => Ok(()),
    }
}

/// Notes what was accepted of a push that was begun to be noted. Takes no memory.
pub(crate) fn end_note(diary: &mut Option<Diary>, verdicts: &[Verdict])
    ensures { (s : StreamKey) (entries : List Entry) → IsBegun s entries diary.old →
        notes_in diary.new ≡ with_notes (noted s entries verdicts.now) (notes_in diary.old) }
{
    if let Some(diary) = diary {
        diary.note(verdicts);
    }
}
