//! `ingestctl mend`.
use crate::checking::{checked_words, damage_words, fault_words, log_text, looked_at, mended};
use crate::given::settings;
use crate::output::put;
use crate::status::Status;
use anyhow::{Context, Result};
use clap::ArgMatches;
use ctl_show::{Mended, other_version};
use ing_folder::FolderRepair;
use ing_limits::Settings;
use std::io::Write;

/// Where the logs of a folder lie, with what settings, and who cuts them, if anybody does.
#[derive(Drop)]
struct Logs<'a> {
    folder: &'a str,
    settings: Settings,
    repair: Option<FolderRepair<'a, HostRuntime>>,
}

/// Writes for each shard where its log is damaged, and what stands before that; with `--cut` it is cut there, and what it had is kept
/// beside it.
pub fn mend_folder<O: Write>(
    rt: &HostRuntime,
    given: &ArgMatches<'_>,
    output: &mut O,
) -> Result<Status> {
    let folder = given.get_str("folder").context("FOLDER")?;
    let settings = settings(rt, given.get_str("settings"))?;
    let looked = looked_at(rt, folder, &settings)?;
    let repair = if given.get_flag("cut") {
        Some(FolderRepair::take(rt, rt.alloc(), folder).context(folder)?)
    } else {
        None
    };
    if looked.is_in_use {
        put(
            output,
            "lock: a program works in the folder, and may change what follows\n",
        )?;
    }
    let logs = Logs {
        folder,
        settings,
        repair,
    };
    let mut is_right = true;
    for number in 0..logs.settings.shards() {
        if let Some(text) = log_text(rt, folder, number)? {
            let is_whole = mend_shard(rt, &logs, number, &text, output)?;
            is_right = is_right && is_whole;
        }
    }
    Ok(Status::of(is_right))
}

/// Writes what is made again of a shard, and cuts its log where it is damaged and that is asked; whether the log is whole then.
fn mend_shard<O: Write>(
    rt: &HostRuntime,
    logs: &Logs<'_>,
    number: u32,
    text: &[u8],
    output: &mut O,
) -> Result<bool> {
    let alloc = rt.alloc();
    let name = format!(in alloc; "wal-{number}")?;
    let (words, is_whole) = match mended(rt, logs.folder, &logs.settings, number, text)? {
        Ok(Mended::Whole(checked)) => (checked_words(alloc, checked)?, true),
        Ok(Mended::Cut { at, checked }) => {
            let damage = damage_words(alloc, text, at, checked)?;
            match &logs.repair {
                // A program of that version reads it: it is not damaged.
                _ if other_version(text).is_some() => (damage, false),
                Some(repair) => {
                    repair
                        .cut(alloc, name.as_str(), text, at)
                        .context(name.as_str())?;
                    let words = format!(in alloc;
                        "{damage}; cut there, and kept as it was in {name}.damaged"
                    )?;
                    (words, true)
                }
                None => {
                    let rest = text.len().saturating_sub(at);
                    (
                        format!(in alloc; "{damage}; a cut there takes {rest} bytes")?,
                        false,
                    )
                }
            }
        }
        Err(fault) => (fault_words(rt, logs.folder, text, fault)?, false),
    };
    put(output, format!(in alloc; "{name}: {words}\n")?.as_str())?;
    Ok(is_whole)
}
