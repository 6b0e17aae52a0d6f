//! `ingestctl check`.
use crate::given::settings;
use crate::output::put;
use crate::status::Status;
use anyhow::{Context, Result, bail};
use clap::ArgMatches;
use ctl_show::{
    Checked, DigestReceipt, Mended, RecoverFault, RelistFault, begun_words, mend_log, other_version,
};
use ing_codec::{CodecFault, chunk_key, chunk_name, decode_chunk};
use ing_folder::{FolderStore, Looked, Noted, look_at};
use ing_limits::Settings;
use ing_refusals::Refusal;
use std::alloc::Global;
use std::fs::File;
use std::io::{ErrorKind, Write};
use std::{fs, io};

/// Writes for each shard what would be recovered of it, or why not.
pub fn check_folder<O: Write>(
    rt: &HostRuntime,
    given: &ArgMatches<'_>,
    output: &mut O,
) -> Result<Status> {
    let alloc = rt.alloc();
    let folder = given.get_str("folder").context("FOLDER")?;
    let settings = settings(rt, given.get_str("settings"))?;
    let looked = looked_at(rt, folder, &settings)?;
    let mut is_right = check_kept(looked, output)?;
    let mut room = 0usize;
    for number in 0..settings.shards() {
        let made = match log_text(rt, folder, number)? {
            Some(text) => check_shard(rt, folder, &settings, number, &text, output)?,
            None if looked.noted == Noted::Same => missing_log(alloc, number, output)?,
            None => check_shard(rt, folder, &settings, number, b"", output)?,
        };
        match made {
            Some(checked) => room = room.saturating_add(checked.checkpoint),
            None => is_right = false,
        }
    }
    if given.get_flag("room") && !looked.is_in_use {
        let has_room = check_room(rt, folder, room, output)?;
        is_right = is_right && has_room;
    }
    Ok(Status::of(is_right))
}

/// Writes whether there is room for the checkpoints, of so many bytes, that a start writes beside the logs: a file of their length is
/// written, and removed.
fn check_room<O: Write>(
    rt: &HostRuntime,
    folder: &str,
    room: usize,
    output: &mut O,
) -> Result<bool> {
    let alloc = rt.alloc();
    let path = format!(in alloc; "{folder}/room.new")?;
    let filled = fill(rt, path.as_str(), room);
    let removed = fs::remove_file(rt, path.as_str());
    let (words, has_room) = match filled.and(removed) {
        Ok(()) => (
            format!(in alloc; "room: there is, for {room} bytes of checkpoints\n")?,
            true,
        ),
        Err(error) => (
            format!(in alloc; "room: none for {room} bytes of checkpoints: {error}\n")?,
            false,
        ),
    };
    put(output, words.as_str())?;
    Ok(has_room)
}

/// Writes a file of so many bytes, which is not there yet, and puts them on the disk.
fn fill(rt: &HostRuntime, path: &str, room: usize) -> io::Result<()> {
    let mut file = File::create_new(rt, path)?;
    let piece = [0u8; 4096];
    let mut left = room;
    for _ in 0..=room / piece.len() {
        let count = left.min(piece.len());
        file.write_all(&piece[..count])?;
        left -= count;
    }
    file.sync_all()
}

/// How a folder is kept; it has to be there.
pub fn looked_at(rt: &HostRuntime, folder: &str, settings: &Settings) -> Result<Looked> {
    if !fs::metadata(rt, folder).context(folder)?.is_dir() {
        bail!("{folder}: it is no folder");
    }
    Ok(look_at(rt, rt.alloc(), folder, settings).context(folder)?)
}

/// Writes what is to be known of how the folder is kept; whether it was begun with these settings, as far as anything tells.
pub fn check_kept<O: Write>(looked: Looked, output: &mut O) -> Result<bool> {
    if looked.is_in_use {
        put(
            output,
            "lock: a program works in the folder, and may change what follows\n",
        )?;
    }
    if looked.noted == Noted::Other {
        put(
            output,
            "lock: 23 OtherSettings: the folder was begun with other settings\n",
        )?;
    }
    Ok(looked.noted != Noted::Other)
}

/// Writes that the folder was begun and lacks the log of this shard, of which nothing is made.
pub fn missing_log<O: Write>(
    alloc: Global,
    number: u32,
    output: &mut O,
) -> Result<Option<Checked>> {
    let (code, name) = (Refusal::MissingLog.number(), Refusal::MissingLog.name());
    let text = format!(in alloc;
        "wal-{number}: {code} {name}: the folder was begun, and this log is not in it\n"
    )?;
    put(output, text.as_str())?;
    Ok(None)
}

/// The text of the log of a shard in a folder; none where there is no such file.
pub fn log_text(rt: &HostRuntime, folder: &str, number: u32) -> Result<Option<Vec<u8>>> {
    let path = format!(in rt.alloc(); "{folder}/wal-{number}")?;
    match fs::read(rt, path.as_str()) {
        Ok(text) => Ok(Some(text)),
        Err(error) if error.kind() == ErrorKind::NotFound => Ok(None),
        Err(error) => Err(error).context(path.as_str()),
    }
}

/// What is made again of a shard from its log, cut where that is damaged, or why it is not.
pub fn mended(
    rt: &HostRuntime,
    folder: &str,
    settings: &Settings,
    number: u32,
    text: &[u8],
) -> Result<Result<Mended, RecoverFault>> {
    let alloc = rt.alloc();
    let objects = format!(in alloc; "{folder}/objects")?;
    let mut end = FolderStore::reading(rt, alloc, objects.as_str())?;
    if number >= settings.shards() {
        bail!("there is no shard {number}");
    }
    match mend_log::<DigestReceipt, _>(alloc, settings, number, text, &mut end) {
        Err(RecoverFault::NoMemory | RecoverFault::Relist(RelistFault::NoMemory)) => {
            bail!("out of memory")
        }
        mended => Ok(mended),
    }
}

/// Writes what would be made again of a shard, or why nothing would; and gives it.
pub fn check_shard<O: Write>(
    rt: &HostRuntime,
    folder: &str,
    settings: &Settings,
    number: u32,
    text: &[u8],
    output: &mut O,
) -> Result<Option<Checked>> {
    let alloc = rt.alloc();
    let (words, made) = match mended(rt, folder, settings, number, text)? {
        Ok(Mended::Whole(checked)) => (checked_words(alloc, checked)?, Some(checked)),
        Ok(Mended::Cut { at, checked }) => (damage_words(alloc, text, at, checked)?, None),
        Err(fault) => (fault_words(rt, folder, text, fault)?, None),
    };
    put(
        output,
        format!(in alloc; "wal-{number}: {words}\n")?.as_str(),
    )?;
    Ok(made)
}

/// What is made again of a shard.
pub fn checked_words(alloc: Global, checked: Checked) -> Result<String> {
    let (entries, stored) = (checked.entries, checked.stored);
    Ok(format!(in alloc; "{entries} entries, {stored} of them stored")?)
}

/// That a log is damaged at an offset in bytes, and what stands before it; or that it is of another version.
pub fn damage_words(alloc: Global, text: &[u8], at: usize, checked: Checked) -> Result<String> {
    let (code, name) = (Refusal::DamagedLog.number(), Refusal::DamagedLog.name());
    if let Some(version) = other_version(text) {
        let words = format!(in alloc;
            "{code} {name}: it is of version {version}, and versions 1 and 2 are read"
        )?;
        return Ok(words);
    }
    let before = checked_words(alloc, checked)?;
    Ok(format!(in alloc; "{code} {name}: damaged at byte {at}; before it stand {before}")?)
}

/// Why a shard is not made again, and of which object or of which settings.
pub fn fault_words(
    rt: &HostRuntime,
    folder: &str,
    text: &[u8],
    fault: RecoverFault,
) -> Result<String> {
    let alloc = rt.alloc();
    let (code, name) = (fault.refusal().number(), fault.refusal().name());
    let why = match fault {
        RecoverFault::Relist(
            RelistFault::Failed { key }
            | RelistFault::Damaged { key }
            | RelistFault::Missing { key }
            | RelistFault::BadObject { key },
        ) => object_words(rt, folder, &key)?,
        RecoverFault::OtherSettings => match begun_words(alloc, text)? {
            Some(begun) => begun,
            None => format!(in alloc; "{fault}")?,
        },
        _ => format!(in alloc; "{fault}")?,
    };
    Ok(format!(in alloc; "{code} {name}: {why}")?)
}

/// What is wrong with the chunk of a key, of which the log says that it is stored.
pub fn object_words(rt: &HostRuntime, folder: &str, key: &[u8; 32]) -> Result<String> {
    let alloc = rt.alloc();
    let name = chunk_name(alloc, key)?;
    let path = format!(in alloc; "{folder}/objects/{name}")?;
    let bytes = match fs::read(rt, path.as_str()) {
        Ok(bytes) => bytes,
        Err(error) if error.kind() == ErrorKind::NotFound => {
            return Ok(format!(in alloc; "objects/{name} is not there")?);
        }
        Err(error) if error.kind() == ErrorKind::OutOfMemory => bail!("out of memory"),
        Err(error) => return Ok(format!(in alloc; "objects/{name}: {error}")?),
    };
    let why = if chunk_key(&bytes) == *key {
        "is another chunk than the log lists"
    } else {
        "was changed: its SHA-256 is another"
    };
    Ok(match decode_chunk(alloc, &bytes) {
        Ok(_) => format!(in alloc; "objects/{name} {why}")?,
        Err(CodecFault::NoMemory) => bail!("out of memory"),
        Err(fault) => format!(in alloc; "objects/{name} {why}, and {fault}")?,
    })
}
