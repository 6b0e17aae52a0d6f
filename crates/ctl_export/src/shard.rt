//! All entries of a shard as push commands.
ghost use Rattle.std.specs.Prelude.{◌≡◌, ◌≢◌, ◌<◌, Err};
ghost use Rattle.ing_durable.specs.Refusing.{Refuses};
ghost use Rattle.ing_durable.specs.RecoverFault.{RecoverFault};
ghost use Rattle.ing_durable.specs.RecoverFault.TheVariants.{LogFault};

use crate::export::export_stream;
use crate::fault::ExportFault;
use crate::live::Live;
use crate::order::streams_in_order;
use ctl_show::restore_log;
use ing_durable::{RecoverFault, Shard};
use ing_limits::Settings;
use ing_query::QueryFault;
use ing_store::StoreEnd;
use std::alloc::{AllocError, Global};
use std::io::Write;

/// What was written of a shard (own), which no clause speaks of.
#[derive(Drop)]
pub struct ExportedShard {
    /// How many streams that have an entry.
    pub streams: u64,
    /// How many entries.
    pub entries: u64,
    /// How many push commands.
    pub commands: u64,
    /// Why the streams that are not written could not be read.
    pub unread: Vec<QueryFault>,
}

/// Why the entries of a shard are not written, or not all (own).
#[derive(Clone, Copy, Debug, PartialEq, Eq)]
pub enum ShardFault {
    /// Memory ran out.
    NoMemory,
    /// The shard is not made again.
    NotRestored(RecoverFault),
    /// The stream of this number is not written; those before it are.
    Stream { number: u64, fault: ExportFault },
}

impl From<AllocError> for ShardFault {
    ghost use Rattle.std.specs.Prelude.{◌≡◌};
    ghost use Rattle.ctl_export.specs.declared.shard.ShardFault.TheVariants.{NoMemory};

    ghost from_gives = { λ _ fault. fault ≡ NoMemory };

    fn from(_error: AllocError) -> ShardFault {
        ShardFault::NoMemory
    }
}

/// Writes all entries of the shard of this number as push commands, stream by stream in the order of `streams_in_order`, each as
/// `export_stream` writes it. The shard is made again from a log with this text, as `restore_log` does. A stream whose entries are
/// not all read is left out, and told in `unread`. A flush comes before a stream where a tenant has as many live ones as may be.
///
/// `NotRestored` where the shard is not made again; then nothing is written. `Stream` where a write failed, or the stream has no
/// place in a command; `NoMemory`. (Own.)
pub fn export_log<S: StoreEnd, W: Write>(
    alloc: Global,
    settings: Settings,
    number: u32,
    text: Vec<u8>,
    end: &mut S,
    writer: &mut W,
    live: &mut Live,
) -> Result<ExportedShard, ShardFault>
    requires { number < settings.shards }
    ensures { (fault : RecoverFault) → result ≡ Err (ShardFault.NotRestored fault) → fault ≢ LogFault
        → Refuses settings number text.items fault }
{
    match restore_log::<S::Receipt, S>(alloc, settings, number, text, end) {
        Ok(restored) => export_shard(alloc, &restored.shard, end, writer, live),
        Err(fault) => Err(ShardFault::NotRestored(fault)),
    }
}

/// Writes all entries of the streams of a shard.
fn export_shard<S: StoreEnd, W: Write>(
    alloc: Global,
    shard: &Shard<S::Receipt>,
    end: &mut S,
    writer: &mut W,
    live: &mut Live,
) -> Result<ExportedShard, ShardFault>
    ensures { (fault : RecoverFault) → result ≢ Err (ShardFault.NotRestored fault) }
{
    let mut exported = ExportedShard {
        streams: 0,
        entries: 0,
        commands: 0,
        unread: Vec::new(alloc),
    };
    for number in &streams_in_order(alloc, shard)? {
        let number = *number;
        if let Err(fault) = export_next(alloc, shard, number, end, writer, live, &mut exported) {
            return Err(ShardFault::Stream { number, fault });
        }
    }
    Ok(exported)
}

/// Writes all entries of one stream, behind a flush where one has to come, and counts them.
fn export_next<S: StoreEnd, W: Write>(
    alloc: Global,
    shard: &Shard<S::Receipt>,
    number: u64,
    end: &mut S,
    writer: &mut W,
    live: &mut Live,
    exported: &mut ExportedShard,
) -> Result<(), ExportFault> {
    if number >= shard.stream_count() {
        return Ok(());
    }
    live.make_room(writer)?;
    match export_stream(alloc, shard, number, end, writer) {
        Ok(one) => {
            if one.entries > 0 {
                exported.streams = exported.streams.saturating_add(1);
                exported.entries = exported.entries.saturating_add(one.entries);
                exported.commands = exported.commands.saturating_add(one.commands);
                live.add(
                    one.tenant.as_str(),
                    shard.rules(&one.tenant).max_streams_per_tenant,
                )?;
            }
        }
        Err(ExportFault::Query(fault)) => exported.unread.push(fault)?,
        Err(fault) => return Err(fault),
    }
    Ok(())
}
