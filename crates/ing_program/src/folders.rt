//! What lies in a folder: the logs of shards, and a store.
ghost use Rattle.std.specs.Prelude.{◌≡◌, ◌+◌, ◌<◌, ◌^◌, ◌⊎◌, IfErr, IfOk, sum_by, vec_len};
ghost use Rattle.ing_lanes.specs.Ending.{Ending};
ghost use Rattle.ing_program.specs.Starting.{IsOfFolder};

use ing_folder::{FolderFault, FolderHold, FolderLog, FolderStore, HoldFault};
use ing_lanes::{Ending, RecoverFault};
use ing_limits::Settings;
use ing_store::StoreEnd;
use ing_wal::LogDisk;
use std::alloc::Global;
use std::fs::File;
use std::rt::Files;

/// What opens logs, D, and ends of a store, E, that lie in folders.
pub trait Folders<D: LogDisk, E: StoreEnd> {
    ghost use Rattle.std.specs.Prelude.{◌≡◌, IfOk};

    /// What keeps a folder for one program, as long as it stands.
    type Hold: Drop;

    /// Takes a folder for this program, which works with the shards and sizes of these settings; it is made where it is absent. Errors
    /// as `FolderHold::take`.
    fn hold(
        &self,
        alloc: Global,
        folder: &str,
        settings: &Settings,
    ) -> Result<Self::Hold, HoldFault>;

    /// Whether nothing lay in the folder when it was taken.
    fn is_fresh(&self, hold: &Self::Hold) -> bool;

    /// Notes in a folder what it was begun with, where that does not stand there yet.
    fn note(&self, hold: &mut Self::Hold) -> Result<(), FolderFault>;

    /// The log in the file of this name; what is absent is made. `Failed` where the file system failed.
    fn log(&self, alloc: Global, folder: &str, name: &str) -> Result<D, FolderFault>;

    /// An end of the store in a folder, which has not failed yet; the folder is made where it is absent. The ends of one folder have
    /// numbers of their own. `Failed` where the file system failed.
    fn end(&self, alloc: Global, folder: &str, number: u32) -> Result<E, FolderFault>
        ensures { IfOk result (λ end. E.failure_count end ≡ 0) };
}

/// The folders of a file system.
#[derive(Drop)]
pub struct Disk<'a, R: Files + AllocGlobal> {
    rt: &'a R,
}

impl<'a, R: Files + AllocGlobal> Disk<'a, R> {
    /// Those of this file system.
    pub fn new(rt: &'a R) -> Disk<'a, R> {
        Disk { rt }
    }
}

impl<'a, R: Files<File = File> + AllocGlobal + Clone + Drop> Folders<
    FolderLog<'a, R>,
    FolderStore<'a, R>,
> for Disk<'a, R> {
    type Hold = FolderHold<'a, R>;

    fn hold(
        &self,
        alloc: Global,
        folder: &str,
        settings: &Settings,
    ) -> Result<FolderHold<'a, R>, HoldFault> {
        FolderHold::take(self.rt, alloc, folder, settings)
    }

    fn is_fresh(&self, hold: &FolderHold<'a, R>) -> bool {
        hold.is_fresh()
    }

    fn note(&self, hold: &mut FolderHold<'a, R>) -> Result<(), FolderFault> {
        hold.note()
    }

    fn log(
        &self,
        alloc: Global,
        folder: &str,
        name: &str,
    ) -> Result<FolderLog<'a, R>, FolderFault> {
        FolderLog::open(self.rt, alloc, folder, name)
    }

    fn end(
        &self,
        alloc: Global,
        folder: &str,
        number: u32,
    ) -> Result<FolderStore<'a, R>, FolderFault> {
        FolderStore::open(self.rt, alloc, folder, number)
    }
}

/// Takes a folder for this program, with the shards and sizes of its settings. `FolderInUse` where another program has it; `NotRecovered`
/// where it was begun with others; `MissingLog` where it was begun and lacks a log; `NoFolder` where it cannot be taken, and `NoMemory`.
pub(crate) fn hold_of<D: LogDisk, E: StoreEnd, X: Folders<D, E>>(
    alloc: Global,
    folders: &X,
    folder: &str,
    settings: &Settings,
) -> Result<X::Hold, Ending>
    ensures ending { IfErr result (λ e. (e ≡ Ending.NoMemory) ⊎ IsOfFolder e) }
{
    match folders.hold(alloc, folder, settings) {
        Ok(hold) => Ok(hold),
        Err(HoldFault::NoMemory) => Err(Ending::NoMemory),
        Err(HoldFault::Failed) => Err(Ending::NoFolder),
        Err(HoldFault::InUse) => Err(Ending::FolderInUse),
        Err(HoldFault::OtherSettings) => Err(Ending::NotRecovered(RecoverFault::OtherSettings)),
        Err(HoldFault::MissingLog { .. }) => Err(Ending::MissingLog),
    }
}

/// Notes in a folder what it is begun with, before anything is told of it, where nothing lay in it. `NoFolder` where that fails, and
/// `NoMemory`.
pub(crate) fn begin<D: LogDisk, E: StoreEnd, X: Folders<D, E>>(
    folders: &X,
    hold: &mut X::Hold,
) -> Result<(), Ending>
    ensures ending { IfErr result (λ e. (e ≡ Ending.NoMemory) ⊎ (e ≡ Ending.NoFolder)) }
{
    if !folders.is_fresh(hold) {
        return Ok(());
    }
    match folders.note(hold) {
        Ok(()) => Ok(()),
        Err(FolderFault::NoMemory) => Err(Ending::NoMemory),
        Err(FolderFault::Failed) => Err(Ending::NoFolder),
    }
}

/// Notes the same in a folder of an earlier version behind a run that ended well: until then its logs may be of other settings. Where
/// that fails the next run does it.
pub(crate) fn conclude_folder<D: LogDisk, E: StoreEnd, X: Folders<D, E>>(
    folders: &X,
    hold: &mut X::Hold,
    ended: &Result<(), Ending>,
) {
    if ended.is_ok() {
        let _ = folders.note(hold);
    }
}

/// The logs of so many shards, each the file `wal-` and the shard's number of a folder. `NoFolder` where one cannot be opened, and
/// `NoMemory`.
pub(crate) fn logs_in<D: LogDisk + Drop, E: StoreEnd, X: Folders<D, E>>(
    alloc: Global,
    folders: &X,
    folder: &str,
    count: u32,
) -> Result<Vec<D>, Ending>
    ensures count { IfOk result (λ logs. vec_len logs ≡ count) }
    ensures ending { IfErr result (λ e. (e ≡ Ending.NoMemory) ⊎ (e ≡ Ending.NoFolder)) }
{
    let mut logs = Vec::with_capacity(alloc, count as usize)?;
    for number in 0..count {
        let name = format!(in alloc; "wal-{number}")?;
        match folders.log(alloc, folder, name.as_str()) {
            Ok(log) => logs.push(log)?,
            Err(FolderFault::NoMemory) => return Err(Ending::NoMemory),
            Err(FolderFault::Failed) => return Err(Ending::NoFolder),
        }
    }
    Ok(logs)
}

/// An end of the store in a folder, of this number. `NoObjects` where it cannot be opened, and `NoMemory`.
pub(crate) fn end_in<D: LogDisk, E: StoreEnd, X: Folders<D, E>>(
    alloc: Global,
    folders: &X,
    folder: &str,
    number: u32,
) -> Result<E, Ending>
    ensures fresh { IfOk result (λ end. E.failure_count end ≡ 0) }
    ensures ending { IfErr result (λ e. (e ≡ Ending.NoMemory) ⊎ (e ≡ Ending.NoObjects)) }
{
    match folders.end(alloc, folder, number) {
        Ok(end) => Ok(end),
        Err(FolderFault::NoMemory) => Err(Ending::NoMemory),
        Err(FolderFault::Failed) => Err(Ending::NoObjects),
    }
}

/// So many ends of the store in a folder, with numbers from this one on. As `end_in`.
pub(crate) fn ends_in<D: LogDisk, E: StoreEnd + Drop, X: Folders<D, E>>(
    alloc: Global,
    folders: &X,
    folder: &str,
    first: u32,
    count: u32,
) -> Result<Vec<E>, Ending>
    requires { first + count < 2 ^ 32 }
    ensures count { IfOk result (λ ends. vec_len ends ≡ count) }
    ensures fresh { IfOk result (λ ends. sum_by E.failure_count ends.items ≡ 0) }
    ensures ending { IfErr result (λ e. (e ≡ Ending.NoMemory) ⊎ (e ≡ Ending.NoObjects)) }
{
    let mut ends = Vec::with_capacity(alloc, count as usize)?;
    for place in 0..count {
        ends.push(end_in(alloc, folders, folder, first + place)?)?;
    }
    Ok(ends)
}
