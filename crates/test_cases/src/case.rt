//! One case: what goes in, and what has to come out.
use crate::summed::are_summed;
use anyhow::{Context, Result};
use ing_limits::Settings;
use ing_program::{Ends, NoTicker, conclude, run_over, start_on};
use ing_store::{Fuse, MemoryStore};
use ing_wal::MemoryLog;
use std::alloc::Global;
use std::rt::Files;
use std::sync::Wait;
use std::thread::Threads;
use std::{fs, io};

/// What goes in, and what has to come out.
#[derive(Debug, Drop)]
pub struct Case {
    settings: Vec<u8>,
    input: Vec<u8>,
    output: Vec<u8>,
    /// The exit status, a line feed, and what is written to standard error.
    ending: Vec<u8>,
    /// Whether it ends well.
    ends_well: bool,
    /// Whether it may be run over several shards: it ends well, its settings do not say how many, and no file `alone` says why not.
    has_summed: bool,
}

impl Case {
    /// The case in the folder of this name.
    pub fn read<F: Files + AllocGlobal>(rt: &F, name: &str) -> Result<Case> {
        let settings = bytes_or(rt, name, "settings.toml", b"")?;
        let ending = bytes_or(rt, name, "ending", b"0\n")?;
        let is_alone = !bytes_or(rt, name, "alone", b"")?.is_empty();
        let ends_well = ending.as_slice() == b"0\n".as_slice();
        Ok(Case {
            ends_well,
            has_summed: ends_well && !is_alone && !names(&settings, b"shards"),
            settings,
            input: bytes_at(rt, name, "input.jsonl")?,
            output: bytes_at(rt, name, "output.jsonl")?,
            ending,
        })
    }

    /// What differs from what has to come out, if anything does: as it is, over logs with four flushers, and over four shards with four
    /// flushers, where it may be run so, summed.
    pub fn difference<F: AllocGlobal + Threads + Wait + Sync>(
        &self,
        rt: &F,
    ) -> Result<Option<&'static str>> {
        let mut difference = self.own_difference(rt)?;
        if difference.is_none() && self.ends_well {
            let settings = self.settings_with(rt.alloc(), b"")?;
            difference = difference_over_logs(rt, &settings, &self.input, &self.output)?;
        }
        if difference.is_none() && self.has_summed {
            difference = self.difference_of_four(rt)?;
        }
        Ok(difference)
    }

    /// Its settings behind these, and with four flushers where they do not say how many.
    fn settings_with(&self, alloc: Global, first: &[u8]) -> Result<Vec<u8>> {
        let mut settings = first.to_vec(alloc)?;
        if !names(&self.settings, b"flushers") {
            settings.extend_from_slice(b"flushers = 4\n")?;
        }
        settings.extend_from_slice(&self.settings)?;
        Ok(settings)
    }

    /// What differs over four shards, summed; and over their logs.
    fn difference_of_four<F: AllocGlobal + Threads + Wait + Sync>(
        &self,
        rt: &F,
    ) -> Result<Option<&'static str>> {
        let settings = self.settings_with(rt.alloc(), b"shards = 4\n")?;
        let mut reader = self.input.as_slice();
        let mut output = Vec::new(rt.alloc());
        if start_on(rt, &settings, &mut reader, &mut output, &mut NoTicker).is_err() {
            return Ok(Some("ending over four shards"));
        }
        if !are_summed(rt.alloc(), &self.output, &output)? {
            return Ok(Some("output over four shards"));
        }
        difference_over_logs(rt, &settings, &self.input, &output)
    }

    /// What differs as it is.
    fn own_difference<F: AllocGlobal + Threads + Wait + Sync>(
        &self,
        rt: &F,
    ) -> Result<Option<&'static str>> {
        let mut reader = self.input.as_slice();
        let mut output = Vec::new(rt.alloc());
        let ended = start_on(rt, &self.settings, &mut reader, &mut output, &mut NoTicker);
        let mut errors = Vec::new(rt.alloc());
        let status = conclude(ended, &mut errors);
        let mut ending = format!(in rt.alloc(); "{status}\n")?.into_bytes();
        ending.extend_from_slice(&errors)?;
        if output != self.output {
            return Ok(Some("output"));
        }
        if ending != self.ending {
            return Ok(Some("ending"));
        }
        Ok(None)
    }
}

fn bytes_at<F: Files + AllocGlobal>(rt: &F, folder: &str, file: &str) -> io::Result<Vec<u8>> {
    let path = format!(in rt.alloc(); "{folder}/{file}")?;
    fs::read(rt, path.as_str())
}

fn bytes_or<F: Files + AllocGlobal>(
    rt: &F,
    folder: &str,
    file: &str,
    absent: &[u8],
) -> io::Result<Vec<u8>> {
    match bytes_at(rt, folder, file) {
        Err(error) if error.kind() == io::ErrorKind::NotFound => { Ok(absent.to_vec(rt.alloc())?) }
        read => read,
    }
}

/// Whether a line of settings begins with this key.
fn names(settings: &[u8], key: &[u8]) -> bool {
    settings
        .split(|byte| *byte == b'\n')
        .any(|line| line.starts_with(key))
}

/// What differs over logs: all is told durable and published there, and nothing else is another.
fn difference_over_logs<F: AllocGlobal + Threads + Wait + Sync>(
    rt: &F,
    settings: &[u8],
    input: &[u8],
    expected: &[u8],
) -> Result<Option<&'static str>> {
    let alloc = rt.alloc();
    let settings = Settings::from_toml(alloc, str::from_utf8(settings).ok().context("text")?)?;
    let store = MemoryStore::new(alloc)?;
    let (mut others, mut logs, mut finders) = (Vec::new(alloc), Vec::new(alloc), Vec::new(alloc));
    for _ in 1..settings.flushers() {
        others.push(store.end(rt, Fuse::None))?;
    }
    let mut ends = Ends::of(store.end(rt, Fuse::None), others);
    for _ in 0..settings.shards() {
        logs.push(MemoryLog::new(alloc))?;
        finders.push(store.end(rt, Fuse::None))?;
    }
    let mut reader = input;
    let mut output = Vec::new(alloc);
    let ended = run_over(
        rt,
        alloc,
        &mut reader,
        &mut output,
        &mut ends,
        &mut NoTicker,
        settings,
        logs,
        finders,
    );
    if ended.is_err() {
        return Ok(Some("ending over logs"));
    }
    if output.as_slice() == durable(alloc, expected)?.as_bytes() {
        Ok(None)
    } else {
        Ok(Some("output over logs"))
    }
}

/// What has to come out over logs, by what comes out without them.
fn durable(alloc: Global, output: &[u8]) -> Result<String> {
    let output = str::from_utf8(output).ok().context("text")?;
    let pushed = output.replace(alloc, "\"durable\":false", "\"durable\":true")?;
    let one = pushed.replace(alloc, "{\"checkpoint\":[false]}", "{\"checkpoint\":[true]}")?;
    let none_of_four = "{\"checkpoint\":[false,false,false,false]}";
    Ok(one.replace(
        alloc,
        none_of_four,
        "{\"checkpoint\":[true,true,true,true]}",
    )?)
}
