//! One program at a time in a folder, and what the folder was begun with.
use crate::folder::{
    FolderFault, make_folder, path_in, refuse_link, remove_unfinished, sync_folder,
};
use ing_limits::Settings;
use std::alloc::{AllocError, AllocFailed, Global};
use std::fs::{File, OpenFile, TryLockError};
use std::io::{ErrorKind, Read, Seek, SeekFrom, Write};
use std::os::unix::fs::OpenOptionsExt;
use std::rt::Files;
use std::{fs, io};
use thiserror::Error;

/// Why a folder is not taken.
#[derive(Clone, Copy, Debug, PartialEq, Eq, Error)]
pub enum HoldFault {
    /// Memory ran out.
    #[error("out of memory")]
    NoMemory,
    /// The file system failed.
    #[error("the folder failed")]
    Failed,
    /// Another program has the folder.
    #[error("another program works in the folder")]
    InUse,
    /// The folder was begun with other shards or sizes.
    #[error("the folder was begun with other settings")]
    OtherSettings,
    /// The folder was begun, and the log of this shard is not in it.
    #[error("the folder was begun, and wal-{shard} is not in it")]
    MissingLog { shard: u32 },
}

impl From<AllocError> for HoldFault {
    fn from(_: AllocError) -> Self {
        Self::NoMemory
    }
}

impl<T: Drop> From<AllocFailed<T>> for HoldFault {
    fn from(_: AllocFailed<T>) -> Self {
        Self::NoMemory
    }
}

impl From<io::Error> for HoldFault {
    fn from(error: io::Error) -> Self {
        match error.kind() {
            ErrorKind::OutOfMemory => Self::NoMemory,
            _ => Self::Failed,
        }
    }
}

/// What stands in the file `lock` of a folder.
#[derive(Clone, Copy, Debug, PartialEq, Eq)]
pub enum Noted {
    /// Not, or not to its end, what the folder was begun with.
    Nothing,
    /// The shards and sizes that are asked for.
    Same,
    /// Others.
    Other,
}

/// What one who reads a folder alone finds of how it is kept.
#[derive(Clone, Copy, Debug, PartialEq, Eq)]
pub struct Looked {
    /// Whether a program works in it.
    pub is_in_use: bool,
    /// What it was begun with.
    pub noted: Noted,
}

/// What a folder was when it was taken.
#[derive(Clone, Copy, Debug, PartialEq, Eq)]
enum Found {
    /// Nothing lay there.
    Fresh,
    /// There are logs, and what they were begun with is not noted.
    Unnoted,
    /// What it was begun with is noted, and all logs are there.
    Begun,
}

/// A folder that is kept for one program: the file `lock` in it is locked until this is dropped, also where the program is killed.
/// What the folder was begun with stands in that file. (Linux, `flock`; the text is own.)
#[derive(Drop)]
pub struct FolderHold<'a, R: Files<File = File> + AllocGlobal + Clone + Drop> {
    rt: &'a R,
    folder: String,
    file: File,
    text: String,
    found: Found,
}

impl<'a, R: Files<File = File> + AllocGlobal + Clone + Drop> FolderHold<'a, R> {
    /// Takes the folder at this path, which is made where it is absent, for a program that works with the shards and sizes of these settings.
    /// `InUse` where another has it; `OtherSettings` where it was begun with others; `MissingLog` of the lowest shard whose log is
    /// not there though the folder was begun; `Failed` where the file system failed. A folder that was there is as it was then, but
    /// for an empty file `lock`; else what was being written beside a log or an object when a program stopped is gone.
    pub fn take(
        rt: &'a R,
        alloc: Global,
        folder: &str,
        settings: &Settings,
    ) -> Result<FolderHold<'a, R>, HoldFault> {
        make_folder(rt, alloc, folder)?;
        let mut file = open_lock(rt, alloc, folder)?;
        lock(&file)?;
        let text = beginning(alloc, settings)?;
        let found = match note_in(alloc, &mut file, text.as_str())? {
            Noted::Other => return Err(HoldFault::OtherSettings),
            Noted::Same => {
                has_logs(rt, alloc, folder, settings.shards())?;
                // The program that wrote it may have been stopped before it was on the disk.
                file.sync_all()?;
                Found::Begun
            }
            Noted::Nothing if is_bare(rt, alloc, folder, settings.shards())? => Found::Fresh,
            Noted::Nothing => Found::Unnoted,
        };
        remove_unfinished(rt, folder)?;
        remove_unfinished(rt, path_in(alloc, folder, "objects")?.as_str())?;
        Ok(FolderHold {
            rt,
            folder: String::from_str(alloc, folder)?,
            file,
            text,
            found,
        })
    }

    /// Whether nothing lay in the folder when it was taken.
    pub fn is_fresh(&self) -> bool {
        self.found == Found::Fresh
    }

    /// Notes what the folder was begun with, where that does not stand in it yet, and puts it on the disk.
    pub fn note(&mut self) -> Result<(), FolderFault> {
        if self.found == Found::Begun {
            return Ok(());
        }
        self.file.set_len(0)?;
        self.file.seek(SeekFrom::Start(0))?;
        self.file.write_all(self.text.as_bytes())?;
        self.file.sync_all()?;
        sync_folder(self.rt, self.folder.as_str())?;
        self.found = Found::Begun;
        Ok(())
    }
}

/// How the folder at this path is kept, for one who reads it alone, beside settings: of a folder in which there is no file `lock` nobody
/// knows. For a moment no program can take it. `Failed` where the file system failed. (Own.)
pub fn look_at<R: Files<File = File>>(
    rt: &R,
    alloc: Global,
    folder: &str,
    settings: &Settings,
) -> Result<Looked, HoldFault> {
    let Some((mut file, is_in_use)) = opened_lock(rt, alloc, folder)? else {
        return Ok(Looked {
            is_in_use: false,
            noted: Noted::Nothing,
        });
    };
    let text = beginning(alloc, settings)?;
    let noted = note_in(alloc, &mut file, text.as_str())?;
    Ok(Looked { is_in_use, noted })
}

/// Whether a program works in the folder at this path, as far as its file `lock` tells: of a folder without one nobody knows. For a moment
/// no program can take it. `Failed` where the file system failed. (Own.)
pub fn is_in_use<R: Files<File = File>>(
    rt: &R,
    alloc: Global,
    folder: &str,
) -> Result<bool, HoldFault> {
    Ok(opened_lock(rt, alloc, folder)?.is_some_and(|opened| opened.1))
}

/// The file `lock` of a folder, and whether another program has locked it; none where there is no such file.
fn opened_lock<R: Files<File = File>>(
    rt: &R,
    alloc: Global,
    folder: &str,
) -> Result<Option<(File, bool)>, HoldFault> {
    let path = path_in(alloc, folder, "lock")?;
    let file = match File::open(rt, path.as_str()) {
        Ok(file) => file,
        Err(error) if error.kind() == ErrorKind::NotFound => return Ok(None),
        Err(error) => return Err(HoldFault::from(error)),
    };
    let is_in_use = match file.try_lock_shared() {
        Ok(()) => false,
        Err(TryLockError::WouldBlock) => true,
        Err(TryLockError::Error(error)) => return Err(HoldFault::from(error)),
    };
    Ok(Some((file, is_in_use)))
}

/// What a folder is begun with, as it stands in the file `lock`: TOML, the number of its form first. (Own.)
fn beginning(alloc: Global, settings: &Settings) -> Result<String, AllocError> {
    let (shards, sizes) = (settings.shards(), settings.sizes());
    let (block, target) = (sizes.block_size, sizes.target_size);
    format!(in alloc;
        "format = 1\nshards = {shards}\nchunk_block_size = {block}\nchunk_target_size = {target}\n"
    )
}

/// Opens the file that is locked. It is made where it is absent, for its owner alone.
pub(crate) fn open_lock<R: Files<File = File>>(
    rt: &R,
    alloc: Global,
    folder: &str,
) -> Result<File, HoldFault> {
    let path = path_in(alloc, folder, "lock")?;
    refuse_link(rt, path.as_str())?;
    let mut how = File::options();
    how.read(true).write(true).create(true).mode(0o600);
    Ok(how.open(rt, path.as_str())?)
}

/// Locks a file for this program alone.
pub(crate) fn lock(file: &File) -> Result<(), HoldFault> {
    match file.try_lock() {
        Ok(()) => Ok(()),
        Err(TryLockError::WouldBlock) => Err(HoldFault::InUse),
        Err(TryLockError::Error(error)) => Err(HoldFault::from(error)),
    }
}

/// What stands in the file, beside this text. A beginning of it counts for nothing, also with zeros behind: so a power cut may leave
/// what was being written.
fn note_in(alloc: Global, file: &mut File, text: &str) -> Result<Noted, HoldFault> {
    let mut found = Vec::new(alloc);
    file.read_to_end(&mut found)?;
    let text = text.as_bytes();
    if found.as_slice() == text {
        return Ok(Noted::Same);
    }
    let zeros = found.iter().rev().take_while(|byte| **byte == 0).count();
    found.truncate(found.len().saturating_sub(zeros));
    if text.starts_with(&found) {
        Ok(Noted::Nothing)
    } else {
        Ok(Noted::Other)
    }
}

/// Whether the log of this shard is in the folder.
fn has_log<R: Files>(rt: &R, alloc: Global, folder: &str, shard: u32) -> Result<bool, HoldFault> {
    let path = format!(in alloc; "{folder}/wal-{shard}")?;
    Ok(fs::exists(rt, path.as_str())?)
}

/// Whether there is neither a log of so many shards nor a store.
fn is_bare<R: Files>(rt: &R, alloc: Global, folder: &str, shards: u32) -> Result<bool, HoldFault> {
    for shard in 0..shards {
        if has_log(rt, alloc, folder, shard)? {
            return Ok(false);
        }
    }
    let objects = path_in(alloc, folder, "objects")?;
    Ok(!fs::exists(rt, objects.as_str())?)
}

/// Whether the logs of so many shards are there; `MissingLog` of the first that is not.
fn has_logs<R: Files>(rt: &R, alloc: Global, folder: &str, shards: u32) -> Result<(), HoldFault> {
    for shard in 0..shards {
        if !has_log(rt, alloc, folder, shard)? {
            return Err(HoldFault::MissingLog { shard });
        }
    }
    Ok(())
}
