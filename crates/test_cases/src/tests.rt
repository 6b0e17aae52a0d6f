//! What no file can say: readers, writers and ends that fail, readers and writers that watch one another, settings files,
//! lines of 16 MiB, and a refused allocation.
mod aside;
mod channels;
mod clock;
mod earlier;
mod faults;
mod flushes;
mod folders;
mod watched;

use ing_limits::Settings;
use ing_program::{Disk, Ending, Ends, Folders, NoTicker, conclude, run, start};
use ing_store::{Fuse, MemoryStore, Receipt, StoreEnd};
use ing_wal::LogDisk;
use std::cell::Cell;
use std::io::{Error, ErrorKind, Read, Write};
use std::process::Abort;
use std::rt::Files;
use std::sync::Wait;
use std::test::Fail;
use std::thread::Threads;
use std::{env, fs, io, process};

/// One entry `hello` for each of two tenants.
const PUSHES: &str =
    "{\"cmd\":\"push\",\"tenant\":\"acme\",\"now\":\"1\",\"streams\":[{\"stream\":{\"a\":\"1\"},\"values\":[[\"1\",\"hello\"]]}]}\n{\"cmd\":\"push\",\"tenant\":\"t\",\"now\":\"1\",\"streams\":[{\"stream\":{\"a\":\"1\"},\"values\":[[\"1\",\"hello\"]]}]}\n";

const REPLY: &str =
    "{\"push\":[{\"durable\":false,\"stream\":\"{a=\\\"1\\\"}\",\"verdicts\":[{\"accepted\":0}]}]}\n";

const REPORT: &str = "{\"report\":[{\"accepted\":2,\"kept\":2,\"recovered\":0,\"stored\":0}]}\n";

/// A sweep at which both chunks are due.
const SWEEP: &str = "{\"cmd\":\"sweep\",\"now\":\"9000000000000000000\"}\n";

const SWEPT: &str = "{\"sweep\":{\"queued\":2,\"sealed\":2}}\n";

/// A flush before which each growing chunk is sealed.
const FLUSH: &str = "{\"cmd\":\"flush\"}\n";

/// What is answered to `PUSHES`, `SWEEP` and `FLUSH`, and the report.
const ANSWERS: [&str; 5] = [
    REPLY,
    REPLY,
    SWEPT,
    "{\"flush\":{\"failed\":0,\"sealed\":0,\"stored\":2}}\n",
    "{\"report\":[{\"accepted\":2,\"kept\":0,\"recovered\":0,\"stored\":2}]}\n",
];

const BAD_COMMAND: &str = "{\"error\":\"BadCommand\",\"number\":33}\n";

/// How a run with all defaults ends, over an end of which these calls fail.
fn run_over<H: AllocGlobal + Threads + Wait + Sync, R: Read, W: Write>(
    rt: &H,
    fuse: Fuse,
    reader: &mut R,
    writer: &mut W,
) -> Result<Result<(), Ending>, Fail> {
    let settings = Settings::from_toml(rt.alloc(), "")?;
    let store = MemoryStore::new(rt.alloc())?;
    let mut ends = Ends::of(store.end(rt, fuse), Vec::new(rt.alloc()));
    Ok(run(
        rt,
        rt.alloc(),
        reader,
        writer,
        &mut ends,
        &mut NoTicker,
        settings,
    ))
}

/// The same where more than one chunk is uploaded by a worker: by its end, of which these calls fail, while a query reads by another.
fn run_aside_over<H: AllocGlobal + Threads + Wait + Sync, R: Read, W: Write>(
    rt: &H,
    fuse: Fuse,
    reader: &mut R,
    writer: &mut W,
) -> Result<Result<(), Ending>, Fail> {
    let alloc = rt.alloc();
    let settings = Settings::from_toml(alloc, "")?;
    let store = MemoryStore::new(alloc)?;
    let others = vec![in alloc; store.end(rt, fuse)]?;
    let mut ends = Ends::of(store.end(rt, Fuse::None), others);
    Ok(run(
        rt,
        alloc,
        reader,
        writer,
        &mut ends,
        &mut NoTicker,
        settings,
    ))
}

/// How the program ends with these words on an input, and what it has written by then.
fn started<
    H: Files + AllocGlobal + Threads + Wait + Sync,
    D: LogDisk + Drop + Send,
    Q: Receipt + Send + Sync,
    E: StoreEnd<Receipt = Q> + Drop + Send,
    X: Folders<D, E>,
>(rt: &H, folders: &X, words: &[&str], input: &str) -> Result<(Result<(), Ending>, String), Fail> {
    let mut owned = Vec::new(rt.alloc());
    for word in words {
        owned.push(String::from_str(rt.alloc(), word)?)?;
    }
    let mut reader = input.as_bytes();
    let mut writer = Vec::new(rt.alloc());
    let ended = start(rt, folders, &owned, &mut reader, &mut writer, &mut NoTicker);
    let written = String::from_utf8(writer).ok().ok_or("the output is text")?;
    Ok((ended, written))
}

/// A path of this name in the folder for temporary files.
fn temporary(rt: &HostRuntime, name: &str) -> Result<String, Fail> {
    let folder = env::temp_dir(rt)?;
    Ok(format!(in rt.alloc(); "{}/sarymbeu-{name}", folder.as_str())?)
}

/// A settings file in which what counts stands behind the first 64 KiB: its path.
fn long_settings(rt: &HostRuntime) -> Result<String, Fail> {
    let mut file = "#\n".repeat(rt.alloc(), 40_000)?;
    file.push_str("[tenants.acme]\nmax_line_size = 4\n")?;
    let name = format!(in rt.alloc(); "{}.toml", process::id(rt.process()))?;
    let path = temporary(rt, name.as_str())?;
    fs::write(rt, path.as_str(), file.as_bytes())?;
    Ok(path)
}

#[test]
fn settings_from_a_file(rt: HostRuntime) -> Result<(), Fail> {
    let path = long_settings(&rt)?;
    let (ended, written) = started(&rt, &Disk::new(&rt), &[path.as_str()], PUSHES)?;
    fs::remove_file(&rt, path.as_str())?;
    assert!(rt; ended == Ok(()));
    assert!(rt; written.as_str().contains("\"line_too_long\""));
    Ok(())
}

/// Both replies and the report, which is the whole output on `PUSHES`.
fn whole_output(rt: &HostRuntime) -> Result<String, Fail> {
    Ok(format!(in rt.alloc(); "{REPLY}{REPLY}{REPORT}")?)
}

#[test]
fn no_word_means_no_settings(rt: HostRuntime) -> Result<(), Fail> {
    let (ended, written) = started(&rt, &Disk::new(&rt), &[], PUSHES)?;
    assert!(rt; ended == Ok(()));
    assert!(rt; written.as_str() == whole_output(&rt)?.as_str());
    Ok(())
}

/// Whether the program with these words ends with this status, says this, and writes nothing.
fn is_refused<
    H: Files + AllocGlobal + Threads + Wait + Sync,
    D: LogDisk + Drop + Send,
    Q: Receipt + Send + Sync,
    E: StoreEnd<Receipt = Q> + Drop + Send,
    X: Folders<D, E>,
>(rt: &H, folders: &X, words: &[&str], status: u8, said: &[u8]) -> Result<bool, Fail> {
    let (ended, written) = started(rt, folders, words, PUSHES)?;
    let mut errors = Vec::new(rt.alloc());
    let is_status = conclude(ended, &mut errors) == status;
    Ok(is_status && errors.as_slice() == said && written.as_str().is_empty())
}

#[test]
fn words_that_name_no_file(rt: HostRuntime) -> Result<(), Fail> {
    let missing = temporary(&rt, "no-such-file.toml")?;
    let folder = env::temp_dir(&rt)?;
    let disk = Disk::new(&rt);
    for path in [missing.as_str(), folder.as_str(), ""] {
        assert!(rt; is_refused(&rt, &disk, &[path], 1, b"ingestd: NoSettings\n")?);
    }
    Ok(())
}

/// More words than two, and a folder without a name, which is told before a settings file that is not there.
#[test]
fn words_that_are_no_arguments(rt: HostRuntime) -> Result<(), Fail> {
    let missing = temporary(&rt, "no-such-file.toml")?;
    let word = missing.as_str();
    assert!(rt;
        is_refused(
            &rt,
            &Disk::new(&rt),
            &[word, word, word],
            1,
            b"ingestd: BadArguments\n"
        )?
    );
    assert!(rt;
        is_refused(
            &rt,
            &Disk::new(&rt),
            &[word, ""],
            1,
            b"ingestd: BadArguments\n"
        )?
    );
    Ok(())
}

/// Gives its text a few bytes at a time, with an interruption before each piece, and then fails or ends.
#[derive(Drop)]
struct Pieces<'a> {
    text: &'a [u8],
    piece: usize,
    interrupts: bool,
    fails: bool,
}

impl Read for Pieces<'_> {
    fn read(&mut self, buf: &mut [u8]) -> io::Result<usize> {
        self.interrupts = !self.interrupts;
        if !self.interrupts {
            return Err(Error::from(ErrorKind::Interrupted));
        }
        if self.text.is_empty() && self.fails {
            return Err(Error::from(ErrorKind::ConnectionReset));
        }
        let count = self.piece.min(self.text.len()).min(buf.len());
        let (piece, rest) = self.text.split_at(count);
        buf[..count].copy_from_slice(piece);
        self.text = rest;
        Ok(count)
    }
}

/// How a run on `PUSHES` in pieces of so many bytes ends, and what it has written by then.
fn run_in_pieces<H: AllocGlobal + Threads + Wait + Sync>(
    rt: &H,
    piece: usize,
    fails: bool,
) -> Result<(Result<(), Ending>, Vec<u8>), Fail> {
    let mut reader = Pieces {
        text: PUSHES.as_bytes(),
        piece,
        interrupts: false,
        fails,
    };
    let mut writer = Vec::new(rt.alloc());
    let ended = run_over(rt, Fuse::None, &mut reader, &mut writer)?;
    Ok((ended, writer))
}

const PIECES: [usize; 5] = [1, 2, 3, 7, 1000];

/// Each run on `PUSHES` in pieces ends so, and has written this.
fn goes_in_pieces<H: AllocGlobal + Threads + Wait + Sync + Abort>(
    rt: &H,
    fails: bool,
    ends: Result<(), Ending>,
    output: &str,
) -> Result<(), Fail> {
    for piece in PIECES {
        let (ended, written) = run_in_pieces(rt, piece, fails)?;
        assert!(rt; ended == ends, "in pieces of {piece}");
        assert!(rt;
            written.as_slice() == output.as_bytes(),
            "in pieces of {piece}"
        );
    }
    Ok(())
}

#[test]
fn input_in_pieces(rt: HostRuntime) -> Result<(), Fail> {
    let whole = whole_output(&rt)?;
    goes_in_pieces(&rt, false, Ok(()), whole.as_str())
}

#[test]
fn a_failed_read_ends_the_run_without_a_report(rt: HostRuntime) -> Result<(), Fail> {
    let answered = REPLY.repeat(rt.alloc(), 2)?;
    goes_in_pieces(&rt, true, Err(Ending::InputFault), answered.as_str())
}

/// Gives a line at each read, and counts the bytes that were flushed to the other side before it.
#[derive(Drop)]
struct Asking<'a> {
    lines: [&'static str; 2],
    read: usize,
    flushed: &'a Cell<usize>,
    seen: &'a Cell<usize>,
}

impl Read for Asking<'_> {
    fn read(&mut self, buf: &mut [u8]) -> io::Result<usize> {
        self.seen.set(self.flushed.get());
        let Some(line) = self.lines.get(self.read) else {
            return Ok(0);
        };
        let count = line.len().min(buf.len());
        buf[..count].copy_from_slice(&line.as_bytes()[..count]);
        self.read = self.read.saturating_add(1);
        Ok(count)
    }
}

/// Shows what is written once it is flushed.
#[derive(Drop)]
struct Buffered<'a> {
    held: usize,
    flushed: &'a Cell<usize>,
}

impl Write for Buffered<'_> {
    fn write(&mut self, buf: &[u8]) -> io::Result<usize> {
        self.held = self.held.saturating_add(buf.len());
        Ok(buf.len())
    }

    fn flush(&mut self) -> io::Result<()> {
        self.flushed
            .set(self.flushed.get().saturating_add(self.held));
        self.held = 0;
        Ok(())
    }
}

#[test]
fn replies_are_flushed_before_the_next_read(rt: HostRuntime) -> Result<(), Fail> {
    let flushed = Cell::new(0usize);
    let seen = Cell::new(0usize);
    let mut reader = Asking {
        lines: ["x\nx\n", "x\n"],
        read: 0,
        flushed: &flushed,
        seen: &seen,
    };
    let mut writer = Buffered {
        held: 0,
        flushed: &flushed,
    };
    let ended = run_over(&rt, Fuse::None, &mut reader, &mut writer)?;
    assert_eq!(rt; ended, Ok(()));
    // Before the last read, which finds the end, all three replies were flushed.
    assert_eq!(rt; seen.get(), BAD_COMMAND.len().saturating_mul(3));
    Ok(())
}

/// Takes so many writes, and then fails.
#[derive(Drop)]
struct FailingWriter {
    writes: u32,
}

impl Write for FailingWriter {
    fn write(&mut self, buf: &[u8]) -> io::Result<usize> {
        if self.writes == 0 {
            return Err(Error::from(ErrorKind::Other));
        }
        self.writes -= 1;
        Ok(buf.len())
    }

    fn flush(&mut self) -> io::Result<()> {
        Ok(())
    }
}

#[test]
fn a_failed_write_ends_the_run(rt: HostRuntime) -> Result<(), Fail> {
    for (writes, ended) in [
        (0, Err(Ending::OutputFault)),
        (1, Err(Ending::OutputFault)),
        (2, Ok(())),
    ] {
        let mut reader = PUSHES.as_bytes();
        let mut writer = FailingWriter { writes };
        let got = run_over(&rt, Fuse::None, &mut reader, &mut writer)?;
        assert_eq!(rt; got, ended, "after {writes} writes");
    }
    Ok(())
}

#[test]
fn longest_line_and_one_byte_more(rt: HostRuntime) -> Result<(), Fail> {
    // A line of blanks is skipped, and one that is too long is refused; the next is read.
    for (length, replies) in [(16_777_216, 1), (16_777_217, 2)] {
        let mut reader = io::repeat(b' ').take(length).chain(b"\nx\n".as_slice());
        let mut writer = Vec::new(rt.alloc());
        let ended = run_over(&rt, Fuse::None, &mut reader, &mut writer)?;
        assert_eq!(rt; ended, Ok(()));
        let refused = BAD_COMMAND.repeat(rt.alloc(), replies)?;
        assert!(rt; writer.as_slice().starts_with(refused.as_bytes()));
        assert!(rt; writer.as_slice()[refused.len()..].starts_with(b"{\"report\""));
    }
    Ok(())
}

/// How many of the answers stand in this room, whole; none where anything else is written there.
fn answers_in(room: &[u8]) -> Option<usize> {
    let mut rest = room;
    let mut whole = 0usize;
    for answer in ANSWERS {
        let Some(others) = rest.strip_prefix(answer.as_bytes()) else {
            break;
        };
        rest = others;
        whole = whole.saturating_add(1);
    }
    rest.iter().all(|byte| *byte == 0).then_some(whole)
}

/// One allocation at most is refused in a run of this test, and none of them is the test's own: the run ends on
/// `NoMemory` with whole replies, and the same run then gives the whole output.
#[test]
fn a_refused_allocation_ends_the_run_and_the_next_is_whole(rt: HostRuntime) -> Result<(), Fail> {
    let mut room = [0u8; 512];
    let store = match MemoryStore::new(rt.alloc()) {
        Ok(store) => store,
        Err(_) => MemoryStore::new(rt.alloc())?,
    };
    for _ in 0..2 {
        let settings = match Settings::from_toml(rt.alloc(), "") {
            Ok(settings) => settings,
            Err(_) => Settings::from_toml(rt.alloc(), "")?,
        };
        if settings.shards() != 1 {
            return Err("one shard".into());
        }
        let mut reader = PUSHES
            .as_bytes()
            .chain(SWEEP.as_bytes())
            .chain(FLUSH.as_bytes());
        let mut writer = room.as_mut_slice();
        let mut ends = Ends::of(store.end(&rt, Fuse::None), Vec::new(rt.alloc()));
        match run(
            &rt,
            rt.alloc(),
            &mut reader,
            &mut writer,
            &mut ends,
            &mut NoTicker,
            settings,
        ) {
            Ok(()) => break,
            Err(ending) => assert_eq!(rt; ending, Ending::NoMemory),
        }
        assert!(rt; answers_in(&room).is_some_and(|whole| whole < ANSWERS.len()));
    }
    assert_eq!(rt; answers_in(&room), Some(ANSWERS.len()));
    Ok(())
}
