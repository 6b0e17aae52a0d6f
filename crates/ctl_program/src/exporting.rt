//! `ingestctl export`.
use crate::checking::{check_kept, check_shard, log_text, looked_at, missing_log, object_words};
use crate::given::settings;
use crate::output::put;
use crate::progress::Progress;
use crate::status::Status;
use anyhow::{Context, Result, bail};
use clap::ArgMatches;
use ctl_export::{ExportFault, ExportedShard, Live, QueryFault, ShardFault, export_log};
use ctl_show::{RecoverFault, RelistFault};
use ing_folder::{FolderStore, Noted};
use ing_limits::Settings;
use std::io::Write;

/// What is exported, and what was written so far.
#[derive(Drop)]
struct Export<'a> {
    rt: &'a HostRuntime,
    folder: &'a str,
    settings: Settings,
    live: Live,
    streams: u64,
    entries: u64,
    commands: u64,
}

/// Writes all entries of a folder as push commands, shard by shard, and tells what is wrong in it
/// as `check` does, and at the end what was written.
pub fn export_folder<O: Write, E: Write>(
    rt: &HostRuntime,
    given: &ArgMatches<'_>,
    output: &mut O,
    errors: &mut E,
) -> Result<Status> {
    let folder = given.get_str("folder").context("FOLDER")?;
    let settings = settings(rt, given.get_str("settings"))?;
    let looked = looked_at(rt, folder, &settings)?;
    let mut is_right = check_kept(looked, errors)?;
    let mut output = Progress::new(rt, output);
    let mut export = Export::new(rt, folder, settings);
    for number in 0..export.settings.shards() {
        match log_text(rt, folder, number)? {
            Some(text) => is_right &= export.log(number, text, &mut output, errors)?,
            None if looked.noted == Noted::Same => {
                missing_log(rt.alloc(), number, errors)?;
                is_right = false;
            }
            None => {}
        }
    }
    output.end();
    put(errors, export.words()?.as_str())?;
    Ok(Status::of(is_right))
}

impl<'a> Export<'a> {
    /// Of a folder, of which nothing was written.
    fn new(rt: &'a HostRuntime, folder: &'a str, settings: Settings) -> Export<'a> {
        Export {
            rt,
            folder,
            settings,
            live: Live::new(rt.alloc()),
            streams: 0,
            entries: 0,
            commands: 0,
        }
    }

    /// Writes all entries of a shard, whose log has this text; whether they could be read.
    fn log<O: Write, E: Write>(
        &mut self,
        number: u32,
        text: Vec<u8>,
        output: &mut O,
        errors: &mut E,
    ) -> Result<bool> {
        match self.written(number, text, output)? {
            Ok(exported) => {
                self.count(&exported);
                for fault in &exported.unread {
                    put(errors, self.fault_words(*fault)?.as_str())?;
                }
                Ok(exported.unread.is_empty())
            }
            Err(
                ShardFault::NoMemory
                | ShardFault::NotRestored(
                    RecoverFault::NoMemory | RecoverFault::Relist(RelistFault::NoMemory),
                )
                | ShardFault::Stream {
                    fault: ExportFault::NoMemory,
                    ..
                },
            ) => bail!("out of memory"),
            Err(ShardFault::NotRestored(_)) => {
                let alloc = self.rt.alloc();
                let text = log_text(self.rt, self.folder, number)?.unwrap_or(Vec::new(alloc));
                check_shard(self.rt, self.folder, &self.settings, number, &text, errors)?;
                Ok(false)
            }
            Err(
                ShardFault::Stream {
                    fault: ExportFault::OutputFault,
                    ..
                },
            ) => bail!("the output cannot be written"),
            Err(ShardFault::Stream { number, .. }) => {
                bail!("no command has room for stream {number}")
            }
        }
    }

    /// Writes all entries of a shard, or why not.
    fn written<O: Write>(
        &mut self,
        number: u32,
        text: Vec<u8>,
        output: &mut O,
    ) -> Result<Result<ExportedShard, ShardFault>> {
        let alloc = self.rt.alloc();
        if number >= self.settings.shards() {
            bail!("there is no shard {number}");
        }
        let objects = format!(in alloc; "{}/objects", self.folder)?;
        let mut end = FolderStore::reading(self.rt, alloc, objects.as_str())?;
        let settings = self.settings.try_clone()?;
        Ok(export_log(
            alloc,
            settings,
            number,
            text,
            &mut end,
            output,
            &mut self.live,
        ))
    }

    /// Counts what was written of a shard.
    fn count(&mut self, exported: &ExportedShard) {
        self.streams = self.streams.saturating_add(exported.streams);
        self.entries = self.entries.saturating_add(exported.entries);
        self.commands = self.commands.saturating_add(exported.commands);
    }

    /// Why the entries of a stream could not be read.
    fn fault_words(&self, fault: QueryFault) -> Result<String> {
        let alloc = self.rt.alloc();
        let (code, name) = (fault.refusal().number(), fault.refusal().name());
        let why = match fault {
            QueryFault::StoreFault { key } | QueryFault::BadObject { key } => {
                object_words(self.rt, self.folder, &key)?
            }
            QueryFault::NoMemory => format!(in alloc; "{fault}")?,
        };
        Ok(format!(in alloc; "{code} {name}: {why}\n")?)
    }

    /// What was written.
    fn words(&self) -> Result<String> {
        let (streams, entries, commands) = (self.streams, self.entries, self.commands);
        Ok(format!(in self.rt.alloc();
            "ingestctl: streams: {streams}, entries: {entries}, commands: {commands}\n"
        )?)
    }
}
