//! The program over a folder. One function owns the paths, and the others borrow them.
use super::{FLUSH, PUSHES, is_refused, started, temporary};
use ing_limits::Settings;
use ing_program::{Disk, Folders};
use ing_store::{Receipt, StoreEnd};
use ing_wal::LogDisk;
use std::os::unix::fs::{PermissionsExt, symlink};
use std::process::Abort;
use std::rt::Files;
use std::sync::Wait;
use std::test::Fail;
use std::thread::Threads;
use std::{fs, process};

/// A query that finds what `PUSHES` has of one tenant.
const QUERY: &str = "{\"cmd\":\"query\",\"tenant\":\"t\",\"query\":\"{a=\\\"1\\\"}\"}\n";

/// A checkpoint of each shard.
pub const CHECKPOINT: &str = "{\"cmd\":\"checkpoint\"}\n";

/// A folder of one test alone, and a settings file.
#[derive(Drop)]
pub struct Places {
    pub folder: String,
    pub settings: String,
}

/// Those of this name, in the folder for temporary files: the folder is not there yet, and the settings say nothing.
pub fn places_of(rt: &HostRuntime, name: &str) -> Result<Places, Fail> {
    let name = format!(in rt.alloc(); "{name}-{}", process::id(rt.process()))?;
    let folder = temporary(rt, name.as_str())?;
    let settings = format!(in rt.alloc(); "{}.toml", folder.as_str())?;
    fs::write(rt, settings.as_str(), "")?;
    Ok(Places { folder, settings })
}

/// Removes both.
pub fn remove(rt: &HostRuntime, places: &Places) -> Result<(), Fail> {
    fs::remove_file(rt, places.settings.as_str())?;
    fs::remove_dir_all(rt, places.folder.as_str())?;
    Ok(())
}

/// What a run over the folder writes, which ends well.
pub fn written<
    H: Files + AllocGlobal + Threads + Wait + Sync,
    D: LogDisk + Drop + Send,
    Q: Receipt + Send + Sync,
    E: StoreEnd<Receipt = Q> + Drop + Send,
    X: Folders<D, E>,
>(rt: &H, folders: &X, places: &Places, input: &str) -> Result<String, Fail> {
    let words = [places.settings.as_str(), places.folder.as_str()];
    let (ended, written) = started(rt, folders, &words, input)?;
    if ended.is_err() {
        return Err("a run that ends well".into());
    }
    Ok(written)
}

/// How often such a run writes this text.
pub fn count_of<
    H: Files + AllocGlobal + Threads + Wait + Sync,
    D: LogDisk + Drop + Send,
    Q: Receipt + Send + Sync,
    E: StoreEnd<Receipt = Q> + Drop + Send,
    X: Folders<D, E>,
>(rt: &H, folders: &X, places: &Places, input: &str, text: &str) -> Result<usize, Fail> {
    Ok(
        written(rt, folders, places, input)?
            .as_str()
            .matches(text)
            .count(),
    )
}

/// What was told durable is there in the next run, in memory and in the store.
fn outlives_runs<
    H: Files + AllocGlobal + Threads + Wait + Sync + Abort,
    D: LogDisk + Drop + Send,
    Q: Receipt + Send + Sync,
    E: StoreEnd<Receipt = Q> + Drop + Send,
    X: Folders<D, E>,
>(rt: &H, folders: &X, places: &Places) -> Result<(), Fail> {
    assert!(rt; count_of(rt, folders, places, PUSHES, "\"durable\":true")? == 2);
    let report = "{\"report\":[{\"accepted\":0,\"kept\":2,\"recovered\":2,\"stored\":0}]}\n";
    assert!(rt; written(rt, folders, places, "")?.as_str() == report);
    let stored = "\"recovered\":2,\"stored\":2}]}\n";
    assert!(rt;
        written(rt, folders, places, FLUSH)?
            .as_str()
            .ends_with(stored)
    );
    assert!(rt; count_of(rt, folders, places, QUERY, "\"line\":\"hello\"")? == 1);
    Ok(())
}

/// What was accepted is there in the next runs; other settings are refused.
#[test]
fn what_was_accepted_outlives_the_run(rt: HostRuntime) -> Result<(), Fail> {
    let places = places_of(&rt, "runs")?;
    let (settings, folder) = (places.settings.as_str(), places.folder.as_str());
    let disk = Disk::new(&rt);
    outlives_runs(&rt, &disk, &places)?;
    fs::write(&rt, settings, "shards = 2\n")?;
    assert!(rt;
        is_refused(
            &rt,
            &disk,
            &[settings, folder],
            2,
            b"ingestd: OtherSettings\n"
        )?
    );
    remove(&rt, &places)
}

/// The path of the log of this shard.
fn log_of(rt: &HostRuntime, folder: &str, shard: u32) -> Result<String, Fail> {
    Ok(format!(in rt.alloc(); "{folder}/wal-{shard}")?)
}

/// Makes the log of this shard one that is damaged.
fn damage(rt: &HostRuntime, folder: &str, shard: u32) -> Result<(), Fail> {
    let log = log_of(rt, folder, shard)?;
    fs::write(
        rt,
        log.as_str(),
        "no record at all, of more than sixteen bytes",
    )?;
    Ok(())
}

/// A checkpoint is published over a folder; a changed log is refused, and a link in its place; a path that is a file is no folder.
#[test]
fn checkpoints_and_what_is_refused(rt: HostRuntime) -> Result<(), Fail> {
    let places = places_of(&rt, "refused")?;
    let (settings, folder) = (places.settings.as_str(), places.folder.as_str());
    let disk = Disk::new(&rt);
    let published = "{\"checkpoint\":[true]}\n";
    assert!(rt;
        written(&rt, &disk, &places, CHECKPOINT)?
            .as_str()
            .starts_with(published)
    );
    damage(&rt, folder, 0)?;
    assert!(rt; is_refused(&rt, &disk, &[settings, folder], 2, b"ingestd: DamagedLog\n")?);
    assert!(rt; is_refused(&rt, &disk, &[settings, settings], 2, b"ingestd: LogFault\n")?);
    let log = log_of(&rt, folder, 0)?;
    fs::remove_file(&rt, log.as_str())?;
    symlink(&rt, settings, log.as_str())?;
    assert!(rt; is_refused(&rt, &disk, &[settings, folder], 2, b"ingestd: LogFault\n")?);
    remove(&rt, &places)
}

/// What is reported of four shards in which `PUSHES` lies since an earlier run.
const FOUR: &str =
    "{\"report\":[{\"accepted\":0,\"kept\":1,\"recovered\":1,\"stored\":0},{\"accepted\":0,\"kept\":0,\"recovered\":0,\"stored\":0},{\"accepted\":0,\"kept\":1,\"recovered\":1,\"stored\":0},{\"accepted\":0,\"kept\":0,\"recovered\":0,\"stored\":0}]}\n";

/// Makes the log of the second of four shards that of the first, and the log of the last one that is damaged.
fn damage_two(rt: &HostRuntime, folder: &str) -> Result<(), Fail> {
    let first = log_of(rt, folder, 0)?;
    let second = log_of(rt, folder, 1)?;
    let of_another = fs::read(rt, first.as_str())?;
    fs::write(rt, second.as_str(), of_another.as_slice())?;
    damage(rt, folder, 3)
}

/// Takes away what these two logs have.
fn empty_two(rt: &HostRuntime, folder: &str) -> Result<(), Fail> {
    let second = log_of(rt, folder, 1)?;
    let last = log_of(rt, folder, 3)?;
    fs::write(rt, second.as_str(), "")?;
    fs::write(rt, last.as_str(), "")?;
    Ok(())
}

/// Makes it a folder of an earlier version, which says nothing of how it was begun, without its first log.
fn take_back(rt: &HostRuntime, folder: &str) -> Result<String, Fail> {
    let lock = format!(in rt.alloc(); "{folder}/lock")?;
    fs::write(rt, lock.as_str(), "")?;
    fs::remove_file(rt, log_of(rt, folder, 0)?.as_str())?;
    Ok(lock)
}

/// Several shards are made again, each of its own log. Where two are refused, the fault of the lower one is told, and the others keep
/// what they have. A folder of before that lacks a log is no new one: what it was begun with is not noted behind a refusal.
#[test]
fn several_shards_are_made_again(rt: HostRuntime) -> Result<(), Fail> {
    let places = places_of(&rt, "several")?;
    let (settings, folder) = (places.settings.as_str(), places.folder.as_str());
    let disk = Disk::new(&rt);
    fs::write(&rt, settings, "shards = 4\n")?;
    assert!(rt; count_of(&rt, &disk, &places, PUSHES, "\"durable\":true")? == 2);
    assert!(rt; written(&rt, &disk, &places, "")?.as_str() == FOUR);
    damage_two(&rt, folder)?;
    assert!(rt;
        is_refused(
            &rt,
            &disk,
            &[settings, folder],
            2,
            b"ingestd: OtherSettings\n"
        )?
    );
    empty_two(&rt, folder)?;
    assert!(rt; written(&rt, &disk, &places, "")?.as_str() == FOUR);
    let lock = take_back(&rt, folder)?;
    fs::write(&rt, settings, "shards = 3\n")?;
    assert!(rt; is_kept_out(&rt, &disk, &places, b"ingestd: OtherSettings\n")?);
    assert!(rt; fs::read(&rt, lock.as_str())?.is_empty());
    remove(&rt, &places)
}

/// Whether a run over the folder ends before it reads anything, with this name.
fn is_kept_out<
    H: Files + AllocGlobal + Threads + Wait + Sync,
    D: LogDisk + Drop + Send,
    Q: Receipt + Send + Sync,
    E: StoreEnd<Receipt = Q> + Drop + Send,
    X: Folders<D, E>,
>(rt: &H, folders: &X, places: &Places, said: &[u8]) -> Result<bool, Fail> {
    let words = [places.settings.as_str(), places.folder.as_str()];
    is_refused(rt, folders, &words, 2, said)
}

/// Whether the owner alone may do anything with what lies at a path.
fn is_private(rt: &HostRuntime, path: &str) -> Result<bool, Fail> {
    Ok(fs::metadata(rt, path)?.permissions().mode() & 0o077 == 0)
}

/// A folder that a program holds keeps others out, and takes the next one as soon as it is let go. It is its owner's alone.
#[test]
fn one_program_has_a_folder(rt: HostRuntime) -> Result<(), Fail> {
    let places = places_of(&rt, "held")?;
    let disk = Disk::new(&rt);
    assert!(rt; count_of(&rt, &disk, &places, PUSHES, "\"durable\":true")? == 2);
    let settings = Settings::from_toml(rt.alloc(), "")?;
    let hold = disk.hold(rt.alloc(), places.folder.as_str(), &settings)?;
    assert!(rt; is_kept_out(&rt, &disk, &places, b"ingestd: FolderInUse\n")?);
    drop(hold);
    assert!(rt; is_private(&rt, places.folder.as_str())?);
    assert!(rt; is_private(&rt, log_of(&rt, places.folder.as_str(), 0)?.as_str())?);
    assert!(rt; count_of(&rt, &disk, &places, "", "\"recovered\":2")? == 1);
    remove(&rt, &places)
}

/// A folder that was begun is started with the shards that it has, or with none; of an earlier version, without that note, it is taken
/// as it is.
#[test]
fn a_folder_that_lacks_a_log_is_no_empty_shard(rt: HostRuntime) -> Result<(), Fail> {
    let places = places_of(&rt, "lacking")?;
    let (settings, folder) = (places.settings.as_str(), places.folder.as_str());
    let disk = Disk::new(&rt);
    assert!(rt; count_of(&rt, &disk, &places, PUSHES, "\"durable\":true")? == 2);
    fs::write(&rt, settings, "shards = 4\n")?;
    assert!(rt; is_kept_out(&rt, &disk, &places, b"ingestd: OtherSettings\n")?);
    assert!(rt; !fs::exists(&rt, log_of(&rt, folder, 1)?.as_str())?);
    fs::write(&rt, settings, "")?;
    let log = fs::read(&rt, log_of(&rt, folder, 0)?.as_str())?;
    fs::remove_file(&rt, log_of(&rt, folder, 0)?.as_str())?;
    assert!(rt; is_kept_out(&rt, &disk, &places, b"ingestd: MissingLog\n")?);
    assert!(rt; !fs::exists(&rt, log_of(&rt, folder, 0)?.as_str())?);
    fs::write(&rt, log_of(&rt, folder, 0)?.as_str(), log.as_slice())?;
    fs::write(&rt, format!(in rt.alloc(); "{folder}/lock")?.as_str(), "")?;
    assert!(rt; count_of(&rt, &disk, &places, "", "\"recovered\":2")? == 1);
    fs::remove_file(&rt, log_of(&rt, folder, 0)?.as_str())?;
    assert!(rt; is_kept_out(&rt, &disk, &places, b"ingestd: MissingLog\n")?);
    remove(&rt, &places)
}
