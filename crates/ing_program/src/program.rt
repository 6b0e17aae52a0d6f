//! From argument words and a settings file to a run.
ghost use Rattle.std.specs.Prelude.{◌≡◌, ◌≢◌, ◌↔◌, ◌<◌, ◌≤◌, ◌⊎◌, [], All, List, sum_by, ℕ, IfOk, IfErr, OnOk, IsErrOf, IfSome, Ok, Err, None, map, length};
ghost use Rattle.std.specs.String.{string_bytes};
ghost use Rattle.ing_limits.specs.Settings.{StoreSettings};
ghost use Rattle.ing_store.specs.declared.memory_end.Fuse.{Fuse};
ghost use Rattle.ing_store.specs.declared.memory_end.Fuse.TheVariants as fuses;
ghost use Rattle.ing_lanes.specs.Endings.{refusal_of};
ghost use Rattle.ing_service.specs.Clocks.{heard_by};
ghost use Rattle.ing_lanes.specs.Runs.{HasWritten, IsUnbegun};
ghost use Rattle.ing_program.specs.Starting.{AreBad, GiveSettings, IsOfFolder, NamesFile, manner_of, started_by};

use crate::clocked::Clocked;
use crate::folders::Folders;
use crate::over::start_over;
use ing_lanes::Ending;
use ing_limits::Settings;
use ing_service::{Ends, run};
use ing_store::{Fuse, MemoryEnd, MemoryStore, Receipt, StoreEnd};
use ing_wal::LogDisk;
use std::alloc::{AllocError, Global};
use std::fs;
use std::io::{ErrorKind, Read, Write};
use std::rt::Files;
use std::sync::Wait;
use std::thread::Threads;

/// Reads the argument words, `[SETTINGS [FOLDER]]`, and runs: with the settings of the TOML file at the first path, or without a word
/// with all defaults; and over the logs and the store in the folder at the second, or without it over a store in memory, which ends with
/// the run. The periods of the clock beside the input are those of the settings.
///
/// `BadArguments` where there are more words or the one for the folder is empty, then `NoSettings` where the file cannot be read; the others as `start_on` and `start_over`
/// say. `NoMemory` may stand in place of any. (Own.)
pub fn start<
    H: Files + AllocGlobal + Threads + Wait + Sync,
    D: LogDisk + Drop + Send,
    Q: Receipt + Send + Sync,
    E: StoreEnd<Receipt = Q> + Drop + Send,
    X: Folders<D, E>,
    R: Read,
    W: Write,
    P: Clocked,
>(
    rt: &H,
    folders: &X,
    words: &[String],
    reader: &mut R,
    writer: &mut W,
    ticker: &mut P,
) -> Result<(), Ending>
    requires unsaid { IfSome (P.said ticker.old) (λ said. said ≡ []) }
    // Either nothing was begun, or what is written is, by the settings in the file, as `run` says.
    ensures written { IsUnbegun writer.old writer.new result ⊎ GiveSettings E.is_honest (map string_bytes words.now)
        (λ manner settings failed. HasWritten manner settings record {
          input = R.remaining reader.old;
          rest = R.remaining reader.new;
          ticks = heard_by settings (P.said ticker.new);
          before = 0;
          after = failed;
          old = W.contents writer.old;
          new = W.contents writer.new;
        } result) }
    ensures refused { IfErr result (λ e. IfSome (refusal_of e) (λ refusal.
        (file : List ℕ) × NamesFile (map string_bytes words.now) file × (started_by file ≡ Err refusal))) }
    ensures words { IsErrOf result Ending.BadArguments ↔ AreBad (map string_bytes words.now) }
    ensures named { IsErrOf result Ending.NoSettings → 0 < length words.now }
    ensures folder { IfErr result (λ e. IsOfFolder e → length words.now ≡ 2) }
{
    let file = settings_file(rt, words)?;
    if words.len() < 2 {
        return start_on(rt, &file, reader, writer, ticker);
    }
    start_over(
        rt,
        folders,
        words[1].as_str(),
        &file,
        reader,
        writer,
        ticker,
    )
}

/// The bytes of the settings file that the argument words name; none without a word.
fn settings_file<F: Files + AllocGlobal>(rt: &F, words: &[String]) -> Result<Vec<u8>, Ending>
    ensures file { IfOk result (λ file. NamesFile (map string_bytes words.now) file.items) }
    ensures words { IsErrOf result Ending.BadArguments ↔ AreBad (map string_bytes words.now) }
    ensures few { OnOk result (length words.now ≤ 2) }
    ensures named { IsErrOf result Ending.NoSettings → 0 < length words.now }
    ensures refused { IfErr result (λ e. refusal_of e ≡ None) }
    ensures ending { IfErr result (λ e. (e ≡ Ending.NoMemory) ⊎ (e ≡ Ending.NoSettings)
        ⊎ (e ≡ Ending.BadArguments)) }
{
    match words {
        [] => Ok(Vec::new(rt.alloc())),
        [path] => read_file(rt, path.as_str()),
        [path, folder] if !folder.is_empty() => read_file(rt, path.as_str()),
        _ => Err(Ending::BadArguments),
    }
}

/// The bytes of a file.
pub(crate) fn read_file<F: Files + AllocGlobal>(rt: &F, path: &str) -> Result<Vec<u8>, Ending>
    ensures ending { IfErr result (λ e. (e ≡ Ending.NoMemory) ⊎ (e ≡ Ending.NoSettings)) }
{
    match fs::read(rt, path) {
        Ok(bytes) => Ok(bytes),
        Err(error) if error.kind() == ErrorKind::OutOfMemory => Err(Ending::NoMemory),
        Err(_) => Err(Ending::NoSettings),
    }
}

/// Runs by the settings that the bytes of a settings file give, over a store in memory, which ends with the run: as `run`.
///
/// `NotToml` where they are not UTF-8 or no TOML, `UnknownSetting` and `BadSetting` as `Settings::from_toml` says; these in
/// this order, and nothing is written. The others as `run` says. `NoMemory` may stand in place of any. (Own.)
pub fn start_on<T: AllocGlobal + Threads + Wait + Sync, R: Read, W: Write, P: Clocked>(
    rt: &T,
    file: &[u8],
    reader: &mut R,
    writer: &mut W,
    ticker: &mut P,
) -> Result<(), Ending>
    requires unsaid { IfSome (P.said ticker.old) (λ said. said ≡ []) }
    // Either nothing was begun, or what is written is, by the settings that the bytes give, as `run` says.
    ensures written { IsUnbegun writer.old writer.new result ⊎ ((settings : StoreSettings)
        × (started_by file.now ≡ Ok settings) × HasWritten (manner_of settings) settings record {
          input = R.remaining reader.old;
          rest = R.remaining reader.new;
          ticks = heard_by settings (P.said ticker.new);
          before = 0;
          after = 0;
          old = W.contents writer.old;
          new = W.contents writer.new;
        } result) }
    ensures refused { IfErr result (λ e. IfSome (refusal_of e) (λ refusal.
        started_by file.now ≡ Err refusal)) }
    ensures file_read { IfErr result (λ e. (e ≢ Ending.BadArguments) × (e ≢ Ending.NoSettings)) }
    ensures no_folder { IfErr result (λ e. IsOfFolder e → ⊥) }
{
    let settings = settings_of_file(rt.alloc(), file)?;
    let store = MemoryStore::new(rt.alloc())?;
    let others = ends_of(rt, &store, worker_count(&settings))?;
    let mut ends = Ends::of(store.end(rt, Fuse::None), others);
    ticker.set_periods(&settings)?;
    run(rt, rt.alloc(), reader, writer, &mut ends, ticker, settings)
}

/// How many ends of the store a run has besides its own, through which it uploads side by side: one for each flusher, and none where there
/// is one flusher.
pub(crate) fn worker_count(settings: &Settings) -> u32
    ensures { result ≤ settings.now.flushers }
{
    match settings.flushers() {
        1 => 0,
        flushers => flushers,
    }
}

/// So many ends of a store in memory.
fn ends_of<'a, T: AllocGlobal + Wait>(
    rt: &'a T,
    store: &'a MemoryStore,
    count: u32,
) -> Result<Vec<MemoryEnd<'a, T>>, AllocError>
    ensures sure { IfOk result (λ ends. All (λ end. end.fuse ≡ fuses.None) ends.items) }
    ensures fresh { IfOk result (λ ends. sum_by (λ end. end.failures) ends.items ≡ 0) }
{
    let mut ends = Vec::with_capacity(rt.alloc(), count as usize)?;
    for _ in 0..count {
        ends.push(store.end(rt, Fuse::None))?;
    }
    Ok(ends)
}

/// The settings that the bytes of a file give.
pub(crate) fn settings_of_file(alloc: Global, file: &[u8]) -> Result<Settings, Ending>
    ensures settings { IfOk result (λ settings. started_by file.now ≡ Ok settings) }
    ensures refused { IfErr result (λ e. IfSome (refusal_of e) (λ refusal.
        started_by file.now ≡ Err refusal)) }
    ensures memory { IfErr result (λ e. refusal_of e ≡ None → e ≡ Ending.NoMemory) }
{
    let Ok(text) = str::from_utf8(file) else {
        return Err(Ending::NotToml);
    };
    let settings = Settings::from_toml(alloc, text)?;
    Ok(settings)
}
