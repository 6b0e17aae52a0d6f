//! Entries that have their stamps, made into push commands.
ghost use Rattle.std.specs.Prelude.{◌≡◌, ◌<◌, ◌≤◌, OnOk, [], ◌∷◌, length};
ghost use Rattle.ctl_feed.specs.Feeds.{Feeds, FeedsAll};

use crate::inputs::{FeedEnding, load_rest, put};
use crate::load_fault::LoadFault;
use crate::loader::Loader;
use ing_rows::Entry;
use std::alloc::Global;
use std::io::Write;

/// Why entries are not written.
#[derive(Clone, Copy, Debug, PartialEq, Eq)]
pub enum EntryFault {
    /// Memory ran out, or a write failed.
    Ended(FeedEnding),
    /// An entry takes more than 8,388,608 bytes of a command by itself.
    TooLong,
}

impl From<FeedEnding> for EntryFault {
    ghost use Rattle.std.specs.Prelude.{◌≡◌};
    ghost use Rattle.ctl_feed.specs.declared.entries.EntryFault.TheVariants.{Ended};

    ghost from_gives = { λ ending fault. fault ≡ Ended ending };

    fn from(ending: FeedEnding) -> EntryFault {
        EntryFault::Ended(ending)
    }
}

impl From<LoadFault> for EntryFault {
    ghost use Rattle.std.specs.Prelude.{◌≡◌};
    ghost use Rattle.ctl_feed.specs.Feeds.{entry_fault};

    ghost from_gives = { λ load fault. fault ≡ entry_fault load };

    fn from(fault: LoadFault) -> EntryFault {
        match fault {
            LoadFault::NoMemory => EntryFault::Ended(FeedEnding::NoMemory),
            _ => EntryFault::TooLong,
        }
    }
}

/// Writes entries, in their order and with their own stamps, as push commands of at most `most`
/// entries, each a line. None may wait in the loader before, and none does then.
///
/// `TooLong` only where an entry takes more than `MAX_BYTES` of a command by itself; `Ended` where
/// memory runs out or a write fails. Then entries may be lost, and the last line that was written
/// may be cut. (Own.)
pub fn feed_entries<W: Write>(
    alloc: Global,
    writer: &mut W,
    loader: &mut Loader,
    entries: Vec<Entry>,
    most: usize,
) -> Result<(), EntryFault>
    requires some { 0 < most }
    requires none_waits { loader.old.entries ≡ [] }
    ensures none_waits { OnOk result (loader.new.entries ≡ []) }
    ensures fed { OnOk result (FeedsAll most loader.old.tenant loader.old.now loader.old.labels
        entries.items (W.contents writer.old) (W.contents writer.new)) }
{
    for entry in entries {
        feed_entry(alloc, writer, loader, entry, most)?;
    }
    load_rest(alloc, writer, loader)?;
    Ok(())
}

/// Takes an entry, and writes the command that is full, if there is one.
fn feed_entry<W: Write>(
    alloc: Global,
    writer: &mut W,
    loader: &mut Loader,
    entry: Entry,
    most: usize,
) -> Result<(), EntryFault>
    requires some { 0 < most }
    requires few { length loader.old.entries ≤ most }
    ensures few { OnOk result (length loader.new.entries ≤ most) }
    ensures fed { OnOk result (Feeds most loader.old loader.new (entry ∷ [])
        (W.contents writer.old) (W.contents writer.new)) }
{
    make_way(alloc, writer, loader, most)?;
    match loader.take_entry(alloc, entry)? {
        Some(command) => put(writer, command)?,
        None => {}
    }
    Ok(())
}

/// Writes the command of the entries that wait where they are as many as one may have.
fn make_way<W: Write>(
    alloc: Global,
    writer: &mut W,
    loader: &mut Loader,
    most: usize,
) -> Result<(), EntryFault>
    requires some { 0 < most }
    requires few { length loader.old.entries ≤ most }
    ensures few { OnOk result (length loader.new.entries < most) }
    ensures fed { OnOk result (Feeds most loader.old loader.new []
        (W.contents writer.old) (W.contents writer.new)) }
{
    if loader.waiting() < most {
        return Ok(());
    }
    load_rest(alloc, writer, loader)?;
    Ok(())
}
