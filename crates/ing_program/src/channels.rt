//! A run of several channels over the logs and the store in a folder.
ghost use Rattle.std.specs.Prelude.{◌≡◌, ◌≢◌, ◌≤◌, ◌⊎◌, ◌↔◌, ◌+◌, ◌*◌, ◌%◌, IfErr, IfOk, IfSome, IsErrOf, List, ℕ, None, Err, Ok, OnOk, length, map, nat_lt, reverse, true, vec_len};
ghost use Rattle.std.specs.Io.KnownBytes.{Appends};
ghost use Rattle.std.specs.String.{string_bytes};
ghost use Rattle.ing_lanes.specs.Served.{broken_in};
ghost use Rattle.ing_limits.specs.Settings.{StoreSettings};
ghost use Rattle.ing_lanes.specs.Earlier.{earlier_of};
ghost use Rattle.ing_lanes.specs.Endings.{refusal_of};
ghost use Rattle.ing_lanes.specs.Names.{AreNamed};
ghost use Rattle.ing_lanes.specs.Replies.{channels_data, line_text};
ghost use Rattle.ing_program.specs.Ended.{IsEndingOf, IsEndingOfClose, IsEndingOfEntries, place_text};
ghost use Rattle.ing_program.specs.Channels.{AreNoChannels, ReportsChannels, ReportsPaths, clock_count};
ghost use Rattle.ing_program.specs.Starting.{started_by};

use crate::folders::{Folders, begin, conclude_folder, end_in, ends_in, hold_of, logs_in};
use crate::paths::{Input, Output};
use crate::program::{read_file, settings_of_file};
use crate::ticks::Ticking;
use ing_lanes::{
    CloseRefusal, Ended, Ending, Ends, LanesFault, Line, Mismatch, NodeName, Opens, Reply, Shards,
    Unsettled, put_reply, run_lanes,
};
use ing_limits::Settings;
use ing_refusals::Refusal;
use ing_store::{Receipt, StoreEnd};
use ing_wal::LogDisk;
use std::alloc::{AllocError, Global};
use std::io::{Read, Write};
use std::marker::Brand;
use std::mem;
use std::rt::Files;
use std::sync::Wait;
use std::thread::Threads;

/// Whether these argument words are those of a run of several channels: more than a settings file and a folder.
pub fn asks_channels(words: &[String]) -> bool
    ensures { result ≡ nat_lt 2 (length words.now) }
{
    words.len() > 2
}

/// The most channels that one run serves.
const CHANNEL_LIMIT: usize = 65_536;

/// Reads the argument words, `SETTINGS FOLDER IN OUT [IN OUT ..]`, and runs over the logs and the store in the folder, as `start_over`,
/// but that each pair of paths is a channel, which is served in a thread of its own: commands are read at the first, and replies written
/// at the second. Each ends with its input; where it breaks, the others go on. Where the settings have a `flush_check_period`, the clock
/// is one channel more, whose replies nobody reads. Then the report is written.
///
/// `BadArguments` where a path has no partner, the word for the folder is empty, or there are more than 65,536 channels; the others as
/// `start_over`, `Differs` where diaries are wanted and an entry does not stand as it was noted, and `NotServed` where shards are not opened
/// or not closed. (Own.)
pub fn start_channels<
    F: Read + Write + Drop + Send,
    H: Files<File = F> + AllocGlobal + Threads + Wait + Sync,
    T: Ticking + Drop + Send,
    P: Opens<Input<F, T>, Output<F>> + Sync,
    D: LogDisk + Drop + Send,
    Q: Receipt + Send + Sync,
    E: StoreEnd<Receipt = Q> + Drop + Send,
    X: Folders<D, E>,
    W: Write,
>(rt: &H, opens: &P, clock: T, folders: &X, words: &[String], writer: &mut W) -> Result<(), Ending>
    ensures output { OnOk result ((file : List ℕ) × (settings : StoreSettings) × (started_by file ≡ Ok settings)
        × (paths : ℕ) × (length words.now ≡ 2 + paths)
        × ReportsPaths settings paths (W.contents writer.old) (W.contents writer.new)) }
    ensures words { IsErrOf result Ending.BadArguments ↔ AreNoChannels (map string_bytes words.now) }
    // The settings are refused as the bytes of a file are; those of which, no contract knows.
    ensures refused { IfErr result (λ e. IfSome (refusal_of e) (λ refusal.
        (file : List ℕ) × (started_by file ≡ Err refusal))) }
    ensures silent { IfErr result (λ e. e ≢ Ending.OutputFault → writer.new ≡ writer.old) }
{
    let [path, folder, paths @ ..] = words else {
        return Err(Ending::BadArguments);
    };
    if folder.is_empty() || paths.is_empty() || paths.len() % 2 != 0 {
        return Err(Ending::BadArguments);
    }
    if paths.len() > 2 * CHANNEL_LIMIT {
        return Err(Ending::BadArguments);
    }
    let file = read_file(rt, path.as_str())?;
    serve_paths(
        rt,
        opens,
        clock,
        folders,
        folder.as_str(),
        &file,
        paths,
        writer,
    )
}

/// Serves the channels of these pairs of paths by the settings that the bytes of a settings file give, over the logs and the store in a
/// folder, and writes the report. As `start_channels`.
fn serve_paths<
    F: Read + Write + Drop + Send,
    H: AllocGlobal + Threads + Wait + Sync,
    T: Ticking + Drop + Send,
    P: Opens<Input<F, T>, Output<F>> + Sync,
    D: LogDisk + Drop + Send,
    Q: Receipt + Send + Sync,
    E: StoreEnd<Receipt = Q> + Drop + Send,
    X: Folders<D, E>,
    W: Write,
>(
    rt: &H,
    opens: &P,
    clock: T,
    folders: &X,
    folder: &str,
    file: &[u8],
    paths: &[String],
    writer: &mut W,
) -> Result<(), Ending>
    requires few { length paths.now ≤ 131072 }
    requires pairs { length paths.now % 2 ≡ 0 }
    ensures output { OnOk result ((settings : StoreSettings) × (started_by file.now ≡ Ok settings)
        × ReportsPaths settings (length paths.now) (W.contents writer.old) (W.contents writer.new)) }
    ensures refused { IfErr result (λ e. IfSome (refusal_of e) (λ refusal. started_by file.now ≡ Err refusal)) }
    ensures words { IfErr result (λ e. e ≢ Ending.BadArguments) }
    ensures silent { IfErr result (λ e. e ≢ Ending.OutputFault → writer.new ≡ writer.old) }
{
    let alloc = rt.alloc();
    let settings = settings_of_file(alloc, file)?;
    let shards = settings.shards();
    let mut hold = hold_of(alloc, folders, folder, &settings)?;
    let logs = logs_in(alloc, folders, folder, shards)?;
    let objects = format!(in alloc; "{folder}/objects")?;
    let mut lines = clock_line(alloc, folders, objects.as_str(), &settings, clock, paths)?;
    add_lines(alloc, folders, objects.as_str(), paths, &mut lines)?;
    let count = lines.len() as u32;
    let flushers = ends_in(alloc, folders, objects.as_str(), count, count)?;
    let reader = end_in(alloc, folders, objects.as_str(), 2 * count)?;
    let finders = ends_in(alloc, folders, objects.as_str(), 2 * count + 1, shards)?;
    begin(folders, &mut hold)?;
    let ended = match Shards::recover(rt, alloc, settings, logs, finders) {
        Ok(shards) => run_paths::<Brand, _, _, _, _, _, _, _, _>(
            rt,
            opens,
            shards,
            lines,
            Ends { flushers, reader },
            writer,
        ),
        Err((fault, _logs)) => Err(Ending::from(fault)),
    };
    conclude_folder(folders, &mut hold, &ended);
    ended
}

/// Serves these channels over shards, which N has to name, and writes the report. As `start_channels`.
fn run_paths<
    N: NodeName + Send + Sync,
    F: Read + Write + Drop + Send,
    H: AllocGlobal + Threads + Wait + Sync,
    T: Read + Drop + Send,
    P: Opens<Input<F, T>, Output<F>> + Sync,
    D: LogDisk + Drop + Send,
    Q: Receipt + Send + Sync,
    E: StoreEnd<Receipt = Q> + Drop + Send,
    W: Write,
>(
    rt: &H,
    opens: &P,
    shards: Shards<D, Q>,
    lines: Vec<Line<Input<F, T>, Output<F>, E>>,
    ends: Ends<E, E>,
    writer: &mut W,
) -> Result<(), Ending>
    requires settings { shards.settings ≡ N.settings }
    requires named { AreNamed N.books (reverse shards.last_first.items) }
    requires earlier { N.earlier ≡ earlier_of (reverse shards.last_first.items) }
    requires logs { N.has_logs ≡ true }
    requires flushers { vec_len ends.flushers ≡ vec_len lines }
    ensures output { OnOk result (ReportsChannels N.settings (vec_len lines) (W.contents writer.old) (W.contents writer.new)) }
    ensures refused { IfErr result (λ e. refusal_of e ≡ None) }
    ensures words { IfErr result (λ e. e ≢ Ending.BadArguments) }
    ensures silent { IfErr result (λ e. e ≢ Ending.OutputFault → writer.new ≡ writer.old) }
{
    let alloc = rt.alloc();
    match run_lanes::<N, _, _, _, _, _, _, _, _>(rt, alloc, opens, shards, true, lines, ends) {
        Ok(ended) => report(alloc, writer, ended),
        Err(fault) => Err(ending_of(alloc, fault)),
    }
}

/// How a run of channels ends without its report. `NoMemory` may stand in place of `Differs`.
fn ending_of(alloc: Global, fault: LanesFault) -> Ending
    ensures told { IsEndingOf fault result }
    ensures refused { refusal_of result ≡ None }
    ensures words { result ≢ Ending.BadArguments }
{
    match fault {
        LanesFault::NotOpened(Refusal::NoMemory) => Ending::NoMemory,
        LanesFault::NotOpened(refusal) => Ending::NotServed(refusal),
        LanesFault::NotClosed(why) => ending_of_close(alloc, why),
    }
}

/// The same where the ingester was not closed.
fn ending_of_close(alloc: Global, why: CloseRefusal) -> Ending
    ensures told { IsEndingOfClose why result }
    ensures refused { refusal_of result ≡ None }
    ensures words { result ≢ Ending.BadArguments }
{
    match why {
        CloseRefusal::NoMemory => Ending::NoMemory,
        CloseRefusal::StillOut(_) => Ending::NotServed(Refusal::StillOut),
        CloseRefusal::Misplaced { shard: _ } => Ending::NotServed(Refusal::Misplaced),
        CloseRefusal::Unsettled { shard, why } => ending_of_entries(alloc, shard, why),
    }
}

/// The same where the entries of a shard are not those that were noted, or could not be read back.
fn ending_of_entries(alloc: Global, shard: u32, why: Unsettled) -> Ending
    ensures told { IsEndingOfEntries shard why result }
    ensures refused { refusal_of result ≡ None }
    ensures words { result ≢ Ending.BadArguments }
{
    match why {
        Unsettled::Query(fault) => Ending::NotServed(fault.refusal()),
        Unsettled::Differs(mismatch) => match place_of(alloc, shard, &mismatch) {
            Ok(place) => Ending::Differs { place },
            Err(_) => Ending::NoMemory,
        },
    }
}

/// What is told of an entry that differs.
fn place_of(alloc: Global, shard: u32, mismatch: &Mismatch) -> Result<String, AllocError>
    ensures { IfOk result (λ place. string_bytes place ≡ place_text shard mismatch.now) }
{
    let Mismatch {
        tenant,
        stream,
        number,
    } = mismatch;
    format!(in alloc; ": shard {shard}, tenant {tenant}, stream {stream}, number {number}")
}

/// The channel of the clock, as a list of one, or of none where the settings have no period; it begins with as many others as there are
/// pairs of paths. As `end_in`.
fn clock_line<
    F: Read + Write + Drop,
    T: Ticking + Drop,
    D: LogDisk,
    E: StoreEnd + Drop,
    X: Folders<D, E>,
>(
    alloc: Global,
    folders: &X,
    objects: &str,
    settings: &Settings,
    clock: T,
    paths: &[String],
) -> Result<Vec<Line<Input<F, T>, Output<F>, E>>, Ending>
    ensures count { IfOk result (λ lines. vec_len lines ≡ clock_count settings.now) }
    ensures one { IfOk result (λ lines. vec_len lines ≤ 1) }
    ensures ending { IfErr result (λ e. (e ≡ Ending.NoMemory) ⊎ (e ≡ Ending.NoObjects)) }
{
    let mut lines = Vec::with_capacity(alloc, paths.len() / 2 + 1)?;
    if settings.flush_check_period() == 0 {
        return Ok(lines);
    }
    let mut clock = clock;
    clock.begin(settings, paths.len() as u64 / 2)?;
    lines.push(Line {
        reader: Input::Clock(clock),
        writer: Output::Nowhere,
        end: end_in(alloc, folders, objects, 0)?,
        ended: Ok(()),
    })?;
    Ok(lines)
}

/// Adds the channels of these pairs of paths, each with an end of the store, of a number as its own. As `end_in`; then some may be added.
fn add_lines<
    F: Read + Write + Drop,
    T: Read + Drop,
    D: LogDisk,
    E: StoreEnd + Drop,
    X: Folders<D, E>,
>(
    alloc: Global,
    folders: &X,
    objects: &str,
    paths: &[String],
    lines: &mut Vec<Line<Input<F, T>, Output<F>, E>>,
) -> Result<(), Ending>
    requires few { length paths.now ≤ 131072 }
    requires one { vec_len lines.old ≤ 1 }
    requires pairs { length paths.now % 2 ≡ 0 }
    ensures pairs { OnOk result (2 * vec_len lines.new ≡ 2 * vec_len lines.old + length paths.now) }
    ensures few { OnOk result (vec_len lines.new ≤ 65537) }
    ensures ending { IfErr result (λ e. (e ≡ Ending.NoMemory) ⊎ (e ≡ Ending.NoObjects)) }
{
    let mut left = paths;
    while let [input, output, rest @ ..] = left {
        lines.push(Line {
            reader: Input::at(String::from_str(alloc, input.as_str())?),
            writer: Output::at(String::from_str(alloc, output.as_str())?),
            end: end_in(alloc, folders, objects, lines.len() as u32)?,
            ended: Ok(()),
        })?;
        left = rest;
    }
    Ok(())
}

/// Writes what is reported of the shards, and how many channels broke.
fn report<I: Read + Drop, O: Write + Drop, S: StoreEnd + Drop, W: Write>(
    alloc: Global,
    writer: &mut W,
    ended: Ended<I, O, S>,
) -> Result<(), Ending>
    ensures output { OnOk result (Appends (W.contents writer.old) (W.contents writer.new)
        (line_text (channels_data (broken_in ended.lines.items) ended.reports.items))) }
    ensures silent { IfErr result (λ e. e ≢ Ending.OutputFault → writer.new ≡ writer.old) }
    ensures ending { IfErr result (λ e. (e ≡ Ending.NoMemory) ⊎ (e ≡ Ending.OutputFault)) }
{
    let broken = ended.broken();
    let Ended {
        reports,
        shards,
        lines: _,
    } = ended;
    // The program ends then: the system is faster at taking memory back than giving back one entry after another.
    mem::forget(shards);
    let reply = Reply::Channels {
        broken,
        shards: reports,
    };
    put_reply(alloc, writer, &reply)
}
