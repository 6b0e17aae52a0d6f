//! `ingestctl show`.
use crate::output::put;
use crate::status::Status;
use anyhow::{Context, Result, bail};
use clap::ArgMatches;
use ctl_show::{
    LogReadFault, ShowFault, Shown, chunk_words, log_words, record_words, row_words, show,
};
use ing_codec::{CodecFault, chunk_key};
use ing_folder::is_in_use;
use std::fs;
use std::io::Write;
use std::path::Path;

/// What is told of a file with no whole record of a log.
const NO_OBJECT: &str = "no chunk and no index row; as a log: ";

/// Writes what stands in each file.
pub fn show_files<O: Write>(
    rt: &HostRuntime,
    given: &ArgMatches<'_>,
    output: &mut O,
) -> Result<Status> {
    let with_entries = given.get_flag("entries");
    let mut is_right = true;
    for path in given.get_strs("files").unwrap_or(&[]) {
        let bytes = fs::read(rt, *path).context(*path)?;
        tell_use(rt, path, output)?;
        put(output, format!(in rt.alloc(); "{path}: ")?.as_str())?;
        if !show_bytes(rt, &bytes, with_entries, output)? {
            is_right = false;
        }
    }
    Ok(Status::of(is_right))
}

/// Writes that a program works in the folder of a log or an object, where one does.
fn tell_use<O: Write>(rt: &HostRuntime, path: &str, output: &mut O) -> Result<()> {
    let mut above = Path::new(path).ancestors().skip(1);
    let Some(near) = above.next() else {
        return Ok(());
    };
    let folder = match near.file_name() {
        Some("objects") => above.next().unwrap_or(near),
        _ => near,
    };
    let folder = match folder.as_str() {
        "" => ".",
        folder => folder,
    };
    if is_in_use(rt, rt.alloc(), folder).context(folder)? {
        put(
            output,
            "lock: a program works in the folder, and may change what follows\n",
        )?;
    }
    Ok(())
}

/// Writes what stands in the bytes of a file, or their first fault; whether they have none.
fn show_bytes<O: Write>(
    rt: &HostRuntime,
    bytes: &[u8],
    with_entries: bool,
    output: &mut O,
) -> Result<bool> {
    let alloc = rt.alloc();
    match show(alloc, bytes) {
        Ok(Shown::Chunk(chunk)) => {
            let text = chunk_words(alloc, &chunk, &chunk_key(bytes), with_entries)?;
            put(output, text.as_str())?;
        }
        Ok(Shown::Row(row)) => put(output, row_words(alloc, &row)?.as_str())?,
        Ok(Shown::Log(found)) => {
            if found.whole.is_empty() && !found.rest.is_empty() {
                put(output, NO_OBJECT)?;
            }
            put(output, log_words(alloc, &found)?.as_str())?;
            for (at, record) in found.whole.iter().enumerate() {
                let text = record_words(alloc, record, with_entries)?;
                put(output, format!(in alloc; "{at}: {text}")?.as_str())?;
            }
        }
        Err(ShowFault::Object(CodecFault::NoMemory) | ShowFault::Log(LogReadFault::NoMemory)) => {
            bail!("out of memory")
        }
        Err(fault) => {
            if fault == ShowFault::Log(LogReadFault::Damaged { at: 0 }) {
                put(output, NO_OBJECT)?;
            }
            put(output, format!(in alloc; "{fault}\n")?.as_str())?;
            return Ok(false);
        }
    }
    Ok(true)
}
