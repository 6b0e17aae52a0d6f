//! Entries that were read, as push commands.
ghost use Rattle.std.specs.Prelude.{◌≡◌, ◌<◌, ◌≤◌, All, IfErr, IfOk, OnOk, map};
ghost use Rattle.ing_rows.specs.Rows.{StreamKey};
ghost use Rattle.ctl_export.specs.Exports.{IsNoQuery, Writes, entry_of};

use crate::fault::ExportFault;
use crate::stream_entries::StreamEntries;
use ctl_feed::{Labels, Loader, feed_entries};
use ing_chunk::Numbered;
use ing_rows::{Entry, Stamp, Tenant};
use std::alloc::{AllocError, Global};
use std::io::Write;

/// What was written of a stream (own), which no clause speaks of.
#[derive(Debug, Drop)]
pub struct Exported {
    /// Whose it is.
    pub tenant: Tenant,
    /// How many entries.
    pub entries: u64,
    /// How many commands.
    pub commands: u64,
}

/// Writes the entries of a stream, in their order, as push commands of at most `most` entries, each
/// a line, with the stream's tenant and labels. `now` of the commands is no less than any of the
/// stamps. Nothing is written where there is no entry.
///
/// `OutputFault` where a write failed; then the last line may be cut. `NoMemory`, and then entries
/// may be lost. `NoName` and `TooLong` come of no stream that `ingestd` took. (Own.)
pub fn write_stream<W: Write>(
    alloc: Global,
    writer: &mut W,
    read: StreamEntries,
    most: usize,
) -> Result<Exported, ExportFault>
    requires { 0 < most }
    ensures writes { let s : StreamKey = record { tenant = read.tenant; name = read.name } in
        OnOk result (Writes most s read.entries.items
        (W.contents writer.old) (W.contents writer.new)) }
    ensures fault { IfErr result IsNoQuery }
{
    let labels = Labels::of_canonical(alloc, read.name.as_str())?;
    let now = greatest_of(&read.entries);
    let mut loader = Loader::new(alloc, read.tenant.try_clone(alloc)?, now, labels)?;
    let count = read.entries.len() as u64;
    let bare = without_numbers(alloc, read.entries)?;
    feed_entries(alloc, writer, &mut loader, bare, most)?;
    Ok(Exported {
        tenant: read.tenant,
        entries: count,
        commands: loader.tally().commands,
    })
}

/// The greatest stamp of entries; the least that there is where there is none.
fn greatest_of(entries: &[Numbered]) -> Stamp
    ensures { All (λ e. e.entry.stamp ≤ result) entries.now }
{
    let mut greatest = Stamp::of_nanoseconds(0).unwrap();
    for numbered in entries {
        let stamp = numbered.entry.stamp;
        if stamp.nanoseconds() > greatest.nanoseconds() {
            greatest = stamp;
        }
    }
    greatest
}

/// Entries without their numbers, in the same order. No line is copied.
fn without_numbers(alloc: Global, entries: Vec<Numbered>) -> Result<Vec<Entry>, AllocError>
    ensures { IfOk result (λ bare. bare.items ≡ map entry_of entries.items) }
{
    let mut bare = Vec::with_capacity(alloc, entries.len())?;
    for numbered in entries {
        bare.push(numbered.entry)?;
    }
    Ok(bare)
}
