//! All entries of a stream as push commands.
ghost use Rattle.std.specs.Prelude.{◌≡◌, ◌<◌, IfErr, OnOk, length, slice_get};
ghost use Rattle.ctl_export.specs.Exports.{ExportsOf, IsNoBadObject};

use crate::fault::ExportFault;
use crate::reading::read_stream;
use crate::writing::{Exported, write_stream};
use ing_durable::Shard;
use ing_store::StoreEnd;
use std::alloc::Global;
use std::io::Write;

/// Writes all entries of the stream of this number, wherever they stand, as push commands, each a
/// line: each entry once, in the order in which they were accepted. A command has at most as many
/// as the tenant's rules allow. Nothing is written of a stream without entries.
///
/// `Query` where not all could be read: `StoreFault` only where the end has failed, `BadObject`
/// never over an honest end; then nothing is written. The others are those of `write_stream`. (Own.)
pub fn export_stream<S: StoreEnd, W: Write>(
    alloc: Global,
    shard: &Shard<S::Receipt>,
    number: u64,
    end: &mut S,
    writer: &mut W,
) -> Result<Exported, ExportFault>
    requires { number < length shard.now.listed }
    ensures exports { OnOk result (ExportsOf S.is_honest shard.now.settings
        (slice_get shard.now.listed number) shard.now.state.rows
        (W.contents writer.old) (W.contents writer.new)) }
    ensures honest { S.is_honest → IfErr result IsNoBadObject }
{
    let read = read_stream(alloc, shard, number, end)?;
    let most = shard.rules(&read.tenant).max_entries_per_push as usize;
    write_stream(alloc, writer, read, most)
}
