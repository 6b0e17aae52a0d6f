//! A run over the logs and the store in a folder.
ghost use Rattle.std.specs.Prelude.{◌≡◌, ◌≢◌, ◌⊎◌, [], IfErr, IfSome, Err, Ok};
ghost use Rattle.ing_limits.specs.Settings.{StoreSettings};
ghost use Rattle.ing_program.specs.Starting.{IsOverFolder, started_by};
ghost use Rattle.ing_lanes.specs.Endings.{refusal_of};
ghost use Rattle.ing_service.specs.Clocks.{heard_by};
ghost use Rattle.ing_lanes.specs.Runs.{HasWritten, IsUnbegun};

use crate::clocked::Clocked;
use crate::folders::{Folders, begin, conclude_folder, end_in, ends_in, hold_of, logs_in};
use crate::own::run_over;
use crate::program::{settings_of_file, worker_count};
use ing_lanes::Ending;
use ing_service::Ends;
use ing_store::{Receipt, StoreEnd};
use ing_wal::LogDisk;
use std::io::{Read, Write};
use std::thread::Threads;

/// Runs by the settings that the bytes of a settings file give, over the logs and the store in a folder: the log of each shard is the
/// file `wal-` and its number, and the objects of the store lie in the folder `objects`; what is absent is made. As `run_over`.
///
/// The folder is kept for this program until the run has ended, and what it was begun with stands in it.
///
/// `NotToml`, `UnknownSetting` and `BadSetting` as `start_on`; then `FolderInUse` where another program has the folder, `NotRecovered` where
/// it was begun with other shards or sizes, and `MissingLog` where it was begun and lacks a log; then `NoFolder` where a log cannot be opened, and `NoObjects` where the
/// folder of the objects cannot; then `NotRecovered`, as `run_over` says, and the others. Up to there nothing is written. `NoMemory`
/// may stand in place of any. (Own.)
pub fn start_over<
    H: AllocGlobal + Threads + Sync,
    D: LogDisk + Drop + Send,
    Q: Receipt + Send + Sync,
    E: StoreEnd<Receipt = Q> + Drop + Send,
    X: Folders<D, E>,
    R: Read,
    W: Write,
    P: Clocked,
>(
    rt: &H,
    folders: &X,
    folder: &str,
    file: &[u8],
    reader: &mut R,
    writer: &mut W,
    ticker: &mut P,
) -> Result<(), Ending>
    requires unsaid { IfSome (P.said ticker.old) (λ said. said ≡ []) }
    // Either nothing was begun, or what is written is, over what lies in the folder, as `run` says.
    ensures written { IsUnbegun writer.old writer.new result ⊎ ((settings : StoreSettings)
        × (started_by file.now ≡ Ok settings) × IsOverFolder E.is_honest (λ manner failed. HasWritten manner settings record {
          input = R.remaining reader.old;
          rest = R.remaining reader.new;
          ticks = heard_by settings (P.said ticker.new);
          before = 0;
          after = failed;
          old = W.contents writer.old;
          new = W.contents writer.new;
        } result)) }
    ensures refused { IfErr result (λ e. IfSome (refusal_of e) (λ refusal.
        started_by file.now ≡ Err refusal)) }
    ensures file_read { IfErr result (λ e. (e ≢ Ending.BadArguments) × (e ≢ Ending.NoSettings)) }
{
    let alloc = rt.alloc();
    let settings = settings_of_file(alloc, file)?;
    let mut hold = hold_of(alloc, folders, folder, &settings)?;
    let logs = logs_in(alloc, folders, folder, settings.shards())?;
    let objects = format!(in alloc; "{folder}/objects")?;
    let (shards, workers) = (settings.shards(), worker_count(&settings));
    let own = end_in(alloc, folders, objects.as_str(), 0)?;
    let others = ends_in(alloc, folders, objects.as_str(), 1, workers)?;
    let finders = ends_in(alloc, folders, objects.as_str(), workers + 1, shards)?;
    let mut ends = Ends::of(own, others);
    ticker.set_periods(&settings)?;
    begin(folders, &mut hold)?;
    let ended = run_over(
        rt, alloc, reader, writer, &mut ends, ticker, settings, logs, finders,
    );
    conclude_folder(folders, &mut hold, &ended);
    ended
}
