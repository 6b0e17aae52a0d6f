//! `ingestctl load`.
use crate::feeding::fed;
use crate::given::{now, tenant};
use crate::labelling::test_labels;
use crate::looking::{has_returns, test_text};
use crate::output::put;
use crate::progress::Progress;
use crate::status::Status;
use anyhow::{Context, Result, bail};
use clap::ArgMatches;
use ctl_feed::{
    LabelFault, Labels, LoadFault, Loaded, Loader, Reading, Stamps, Tally, load_input, load_rest,
};
use ing_rows::Stamp;
use jiff::Timestamp;
use jiff::tz::Offset;
use std::fs::File;
use std::io::{BufRead, BufReader, Write};

/// What standard input is called, as a file too.
const INPUT: &str = "-";

/// A day in nanoseconds.
const DAY: u64 = 86_400_000_000_000;

/// Lines that are taken, and how they are read.
#[derive(Drop)]
struct Lines {
    loader: Loader,
    reading: Reading,
}

/// Writes the push commands of the lines of files, or of the input, and tells by its number which line is not loaded, and at the end
/// what was. Where a file cannot be opened or is no text, nothing is written.
pub fn load<I: BufRead, O: Write, E: Write>(
    rt: &HostRuntime,
    given: &ArgMatches<'_>,
    input: &mut I,
    output: &mut O,
    errors: &mut E,
) -> Result<Status> {
    let now = now(rt, given)?;
    let mut lines = Lines {
        loader: loader(rt, given, now)?,
        reading: reading(given, now)?,
    };
    let mut output = Progress::new(rt, output);
    let mut is_right = true;
    match given.get_strs("files") {
        Some(paths) if paths.iter().any(|path| *path != INPUT) => {
            for (path, mut reader) in opened(rt, paths)? {
                is_right &= load_one(rt, path, &mut reader, &mut output, errors, &mut lines)?;
            }
        }
        _ => {
            test_text(INPUT, input)?;
            is_right = load_one(rt, INPUT, input, &mut output, errors, &mut lines)?;
        }
    }
    fed(load_rest(rt.alloc(), &mut output, &mut lines.loader))?;
    output.end();
    tell(rt, errors, lines.loader.tally(), lines.reading.stamps)?;
    Ok(Status::of(is_right))
}

/// The files at these paths, each of which is open and looks like text.
fn opened<'a>(rt: &HostRuntime, paths: &[&'a str]) -> Result<Vec<(&'a str, BufReader<File>)>> {
    let mut files = Vec::new(rt.alloc());
    for path in paths {
        let file = File::open(rt, *path).context(*path)?;
        let mut reader = BufReader::new(rt.alloc(), file)?;
        test_text(path, &mut reader)?;
        files.push((*path, reader))?;
    }
    Ok(files)
}

/// How lines are read in a load at this time.
fn reading(given: &ArgMatches<'_>, now: Stamp) -> Result<Reading> {
    let stamps = match given.get_str("stamps") {
        Some("line") => Stamps::Line,
        Some("seconds") => Stamps::Seconds,
        Some("milliseconds") => Stamps::Milliseconds,
        Some("nginx") => Stamps::Nginx,
        Some("syslog") => Stamps::Syslog {
            year: year_at(now)?,
            latest: Stamp::of_nanoseconds(now.nanoseconds().saturating_add(DAY)).unwrap_or(now),
        },
        _ => Stamps::Now,
    };
    Ok(Reading {
        stamps,
        drops_returns: given.get_flag("crlf"),
    })
}

/// The year of a time, in UTC.
fn year_at(now: Stamp) -> Result<u16> {
    let instant = Timestamp::from_nanosecond(i128::from(now.nanoseconds()))?;
    Ok(u16::try_from(Offset::UTC.to_datetime(instant).year())?)
}

/// A loader for the tenant and the labels that are given.
fn loader(rt: &HostRuntime, given: &ArgMatches<'_>, now: Stamp) -> Result<Loader> {
    let words = given.get_strs("label").unwrap_or(&[]);
    let labels = match Labels::of_arguments(rt.alloc(), words) {
        Ok(labels) => labels,
        Err(LabelFault::NoEquals(at)) => bail!("--label: {}: no equals sign", word_at(words, at)),
        Err(LabelFault::TwiceNamed(at)) => bail!(
            "--label: {}: the name comes twice",
            word_at(words, at)
        ),
        Err(LabelFault::NoMemory) => bail!("out of memory"),
    };
    test_labels(rt, words)?;
    match Loader::new(rt.alloc(), tenant(rt, given)?, now, labels) {
        Ok(loader) => Ok(loader),
        Err(fault) => bail!("{}", words_of(fault)),
    }
}

/// The word at an index.
fn word_at<'a>(words: &[&'a str], at: usize) -> &'a str {
    words.get(at).copied().unwrap_or("")
}

/// Why a line is not loaded, or no line.
fn words_of(fault: LoadFault) -> &'static str {
    match fault {
        LoadFault::NoMemory => "out of memory",
        LoadFault::LabelsTooLong => "the labels take more than 8388608 bytes",
        LoadFault::TooLong => "the line takes more than 8388608 bytes of a command",
        LoadFault::NoStamp => "no stamp is left, nor for the lines behind it",
    }
}

/// Loads the lines of one input; whether all of them were.
fn load_one<I: BufRead, O: Write, E: Write>(
    rt: &HostRuntime,
    path: &str,
    input: &mut I,
    output: &mut O,
    errors: &mut E,
    lines: &mut Lines,
) -> Result<bool> {
    let mut before = 0u64;
    let mut is_right = true;
    if !lines.reading.drops_returns && has_returns(path, input)? {
        let text = format!(in rt.alloc();
            "{path}: lines end in a carriage return, which stays; --crlf leaves it out\n"
        )?;
        put(errors, text.as_str())?;
    }
    for _ in 0..u64::MAX {
        let loaded = load_input(rt.alloc(), input, output, &mut lines.loader, &lines.reading);
        match fed(loaded)? {
            Loaded::All => return Ok(is_right),
            Loaded::Refused { line, fault } => {
                before = before.saturating_add(line);
                let text = format!(in rt.alloc();
                    "{path}:{before}: not loaded: {}\n",
                    words_of(fault)
                )?;
                put(errors, text.as_str())?;
                is_right = false;
                if fault == LoadFault::NoStamp {
                    return Ok(false);
                }
            }
        }
    }
    Ok(is_right)
}

/// Tells what was loaded; of lines without a time only where they are to have one.
fn tell<E: Write>(rt: &HostRuntime, errors: &mut E, tally: Tally, stamps: Stamps) -> Result<()> {
    let alloc = rt.alloc();
    let (lines, commands, replaced) = (tally.lines, tally.commands, tally.replaced);
    let mut text = format!(in alloc;
        "ingestctl: lines: {lines}, commands: {commands}, bytes replaced: {replaced}"
    )?;
    if stamps != Stamps::Now {
        let timeless = tally.timeless;
        text.push_str(format!(in alloc; ", lines without a time: {timeless}")?.as_str())?;
    }
    text.push_str("\n")?;
    put(errors, text.as_str())
}
