//! Several channels over a folder, each from one file to another.
use super::folders::{places_of, remove};
use super::watched::{WatchedDisk, WatchedLog};
use super::{PUSHES, REPLY};
use ing_limits::Settings;
use ing_program::{Disk, Ending, FolderLog, FolderStore, Paths, Ticking, Ticks, start_channels};
use ing_store::DigestReceipt;
use std::io::{Read, read_to_string};
use std::sync::atomic::{AtomicU64, Ordering};
use std::test::Fail;
use std::time::{Clock, Duration};
use std::{fs, io};

/// What is answered to `PUSHES` over a log.
const DURABLE: &str =
    "{\"push\":[{\"durable\":true,\"stream\":\"{a=\\\"1\\\"}\",\"verdicts\":[{\"accepted\":0}]}]}\n";

/// Two channels that push what the other does not, and one that cannot be opened: each has its own replies, and the report counts all.
/// The lines at hand on a channel share a sync. The end of the run compares what was accepted.
#[test]
fn channels_share_a_folder(rt: HostRuntime) -> Result<(), Fail> {
    let places = places_of(&rt, "channels")?;
    let folder = places.folder.as_str();
    let mut words = Vec::new(rt.alloc());
    words.push(String::from_str(rt.alloc(), places.settings.as_str())?)?;
    words.push(String::from_str(rt.alloc(), folder)?)?;
    for name in ["in-0", "out-0", "in-1", "out-1", "missing", "out-2"] {
        words.push(format!(in rt.alloc(); "{folder}-{name}")?)?;
    }
    let other = PUSHES
        .replace(rt.alloc(), "\"acme\"", "\"other\"")?
        .replace(rt.alloc(), "\"t\"", "\"u\"")?;
    let [_, _, input, output, other_input, other_output, _, nowhere] = words.as_slice() else {
        return Err("eight words".into());
    };
    fs::write(&rt, places.settings.as_str(), "diaries = true\n")?;
    fs::write(&rt, input.as_str(), PUSHES)?;
    fs::write(&rt, other_input.as_str(), other.as_str())?;
    let mut report = Vec::new(rt.alloc());
    let left = AtomicU64::new(0);
    let clock = Ticks::new(rt.alloc(), &rt, &left, &rt, folder);
    let paths = Paths::new(&rt, &left);
    let syncs = AtomicU64::new(0);
    let watched = WatchedDisk {
        disk: Disk::new(&rt),
        is_full: false,
        syncs: &syncs,
    };
    let ended = start_channels::<
        _,
        _,
        _,
        _,
        WatchedLog<'_, HostRuntime>,
        DigestReceipt,
        FolderStore<'_, HostRuntime>,
        _,
        _,
    >(&rt, &paths, clock, &watched, &words, &mut report);
    assert!(rt; ended == Ok(()));
    let told = String::from_utf8(report).ok().ok_or("the report is text")?;
    assert!(rt;
        told.as_str()
            == "{\"broken\":1,\"report\":[{\"accepted\":4,\"kept\":4,\"recovered\":0,\"stored\":0}]}\n"
    );
    for (input, output) in [(input, output), (other_input, other_output)] {
        let written = fs::read_to_string(&rt, output.as_str())?;
        assert!(rt; written.as_str().matches(DURABLE).count() == 2);
        fs::remove_file(&rt, input.as_str())?;
        fs::remove_file(&rt, output.as_str())?;
    }
    assert!(rt; !fs::exists(&rt, nowhere.as_str())?);
    assert!(rt; syncs.load(Ordering::SeqCst) <= 2);
    remove(&rt, &places)
}

/// What a full disk does not take no channel is told durable.
#[test]
fn a_channel_over_a_full_disk(rt: HostRuntime) -> Result<(), Fail> {
    let places = places_of(&rt, "full-channel")?;
    let folder = places.folder.as_str();
    let input = format!(in rt.alloc(); "{folder}-in")?;
    let output = format!(in rt.alloc(); "{folder}-out")?;
    fs::write(&rt, input.as_str(), PUSHES)?;
    let mut words = Vec::new(rt.alloc());
    for word in [
        places.settings.as_str(),
        folder,
        input.as_str(),
        output.as_str(),
    ] {
        words.push(String::from_str(rt.alloc(), word)?)?;
    }
    let mut report = Vec::new(rt.alloc());
    let left = AtomicU64::new(0);
    let clock = Ticks::new(rt.alloc(), &rt, &left, &rt, folder);
    let paths = Paths::new(&rt, &left);
    let syncs = AtomicU64::new(0);
    let full = WatchedDisk {
        disk: Disk::new(&rt),
        is_full: true,
        syncs: &syncs,
    };
    let ended = start_channels::<
        _,
        _,
        _,
        _,
        WatchedLog<'_, HostRuntime>,
        DigestReceipt,
        FolderStore<'_, HostRuntime>,
        _,
        _,
    >(&rt, &paths, clock, &full, &words, &mut report);
    assert!(rt; ended == Ok(()));
    let written = fs::read_to_string(&rt, output.as_str())?;
    assert!(rt; written.as_str().matches(REPLY).count() == 2);
    fs::remove_file(&rt, input.as_str())?;
    fs::remove_file(&rt, output.as_str())?;
    remove(&rt, &places)
}

/// A path without a partner, and a word for the folder that is empty, are refused.
#[test]
fn channels_are_pairs(rt: HostRuntime) -> Result<(), Fail> {
    for (folder, count) in [("no-such-folder", 1), ("no-such-folder", 3), ("", 2)] {
        let mut words = Vec::new(rt.alloc());
        for word in ["/dev/null", folder, "in", "out", "in"]
            .iter()
            .take(2 + count)
        {
            words.push(String::from_str(rt.alloc(), word)?)?;
        }
        let mut report = Vec::new(rt.alloc());
        let left = AtomicU64::new(0);
        let clock = Ticks::new(rt.alloc(), &rt, &left, &rt, folder);
        let (paths, disk) = (Paths::new(&rt, &left), Disk::new(&rt));
        let ended = start_channels::<
            _,
            _,
            _,
            _,
            FolderLog<'_, HostRuntime>,
            DigestReceipt,
            FolderStore<'_, HostRuntime>,
            _,
            _,
        >(&rt, &paths, clock, &disk, &words, &mut report);
        assert!(rt; ended == Err(Ending::BadArguments));
        assert!(rt; report.is_empty());
    }
    Ok(())
}

/// A clock that is moved on by who sleeps, and that sees the last channel end with the third period.
#[derive(Drop)]
struct Moved<'a> {
    nanoseconds: AtomicU64,
    left: &'a AtomicU64,
}

/// A second, and what the two clocks are apart, in nanoseconds.
const SECOND: u64 = 1_000_000_000;

const APART: u64 = 7_000_000_000;

impl<'a> Clock for Moved<'a> {
    fn monotonic(&self) -> io::Result<Duration> {
        Ok(Duration::from_nanos(self.nanoseconds.load(Ordering::SeqCst)))
    }

    fn since_1970(&self) -> io::Result<Duration> {
        let now = self.nanoseconds.load(Ordering::SeqCst);
        Ok(Duration::from_nanos(now.saturating_add(APART)))
    }

    fn sleep(&self, duration: Duration) {
        let nanoseconds = u64::try_from(duration.as_nanos()).unwrap_or(SECOND);
        let before = self.nanoseconds.fetch_add(nanoseconds, Ordering::SeqCst);
        if before.saturating_add(nanoseconds) > 7 * SECOND {
            self.left.store(0, Ordering::SeqCst);
        }
    }
}

/// At the end of each period a sweep at that time, a flush of what was queued, and a checkpoint where a log has grown, until no channel
/// is left.
#[test]
fn the_clock_sweeps_and_flushes(rt: HostRuntime) -> Result<(), Fail> {
    let places = places_of(&rt, "clock")?;
    let settings = Settings::from_toml(
        rt.alloc(),
        "shards = 2\nflush_check_period = \"2s\"\ncheckpoint_log_size = 3\n",
    )?;
    fs::create_dir(&rt, places.folder.as_str())?;
    let log = format!(in rt.alloc(); "{}/wal-1", places.folder.as_str())?;
    fs::write(&rt, log.as_str(), "12")?;
    let left = AtomicU64::new(0);
    let clock = Moved {
        nanoseconds: AtomicU64::new(0),
        left: &left,
    };
    let mut ticks = Ticks::new(rt.alloc(), &clock, &left, &rt, places.folder.as_str());
    let mut few = [0u8; 5];
    assert_eq!(rt; ticks.read(&mut few)?, 0);
    ticks.begin(&settings, 1)?;
    assert_eq!(rt; ticks.read(&mut few)?, 5);
    assert!(rt; &few == b"{\"cmd");
    fs::write(&rt, log.as_str(), "1234")?;
    let rest = read_to_string(rt.alloc(), &mut ticks)?;
    assert!(rt;
        rest.as_str()
            == "\":\"sweep\",\"now\":\"9000000000\"}\n{\"cmd\":\"flush\",\"forced\":false}\n\
                {\"cmd\":\"sweep\",\"now\":\"11000000000\"}\n{\"cmd\":\"flush\",\"forced\":false}\n\
                {\"cmd\":\"checkpoint\"}\n\
                {\"cmd\":\"sweep\",\"now\":\"13000000000\"}\n{\"cmd\":\"flush\",\"forced\":false}\n"
    );
    remove(&rt, &places)
}
