//! The program: the argument words and the standard streams, passed to a session; or, with the one word `--version`, which program
//! it is.
#![tactic(auto)]

use ing_program::{
    DigestReceipt, Disk, Ending, Feed, FeedReader, FolderLog, FolderStore, InputClock, Paths,
    Ticks, asks_channels, conclude, hold_streams, start, start_channels,
};
use ing_version::{asks_version, write_version};
use std::fs::File;
use std::io::ErrorKind;
use std::process::ExitCode;
use std::sync::Arc;
use std::sync::atomic::AtomicU64;
use std::{env, io, thread};

type Log<'a> = FolderLog<'a, HostRuntime>;

type End<'a> = FolderStore<'a, HostRuntime>;

fn main(rt: HostRuntime) -> ExitCode {
    let ended = match prepared(&rt) {
        Ok((words, _held)) => {
            let mut writer = io::writer(&rt);
            if asks_version(&words) {
                write_version(&mut writer, "ingestd").map_err(|_| Ending::OutputFault)
            } else if asks_channels(&words) {
                let left = AtomicU64::new(0);
                let clock = Ticks::new(rt.alloc(), &rt, &left, &rt, words[1].as_str());
                start_channels::<
                    _,
                    _,
                    _,
                    _,
                    Log<'_>,
                    DigestReceipt,
                    End<'_>,
                    Disk<'_, HostRuntime>,
                    _,
                >(
                    &rt,
                    &Paths::new(&rt, &left),
                    clock,
                    &Disk::new(&rt),
                    &words,
                    &mut writer,
                )
            } else if let Ok(feed) = Arc::new(rt.alloc(), Feed::new(rt.alloc()))
                && let Ok(theirs) = Arc::try_clone(&feed)
            {
                // A settings file may ask for a clock, which waits for what is read by another thread. That is not joined: it may be
                // reading when the run ends.
                let is_read_ahead = !words.is_empty()
                    && thread::spawn(&rt, move || theirs.read_ahead(&rt, &mut rt.reader())).is_ok();
                let ahead = if is_read_ahead { Some(&*feed) } else { None };
                let folder = words.get(1).map(|word| word.as_str());
                start::<_, Log<'_>, DigestReceipt, End<'_>, Disk<'_, HostRuntime>, _, _, _>(
                    &rt,
                    &Disk::new(&rt),
                    &words,
                    &mut FeedReader::new(&rt, &feed, rt.reader()),
                    &mut writer,
                    &mut InputClock::new(rt.alloc(), &rt, ahead, &rt, folder),
                )
            } else {
                Err(Ending::NoMemory)
            }
        }
        Err(ending) => Err(ending),
    };
    let errors = rt.stderr();
    ExitCode::from(conclude(ended, &mut io::writer(&errors)))
}

/// The argument words, and what keeps each standard stream that is closed from a file of the run.
fn prepared(rt: &HostRuntime) -> Result<(Vec<String>, Vec<File>), Ending> {
    match hold_streams(rt, rt.alloc()) {
        Ok(held) => Ok((words(rt)?, held)),
        Err(error) if error.kind() == ErrorKind::OutOfMemory => Err(Ending::NoMemory),
        Err(_) => Err(Ending::OutputFault),
    }
}

/// The argument words behind the program's name.
fn words(rt: &HostRuntime) -> Result<Vec<String>, Ending> {
    let arguments = match env::args(rt) {
        Ok(arguments) => arguments,
        Err(error) if error.kind() == ErrorKind::OutOfMemory => return Err(Ending::NoMemory),
        Err(_) => return Err(Ending::BadArguments),
    };
    let mut words = Vec::new(rt.alloc());
    for word in arguments.skip(1) {
        words.push(word)?;
    }
    Ok(words)
}
