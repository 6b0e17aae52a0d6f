//! An input that a thread of its own reads ahead, so that something else can be done while nothing comes.
ghost use Rattle.std.specs.Prelude.{◌≤◌, vec_len};

use std::alloc::{AllocError, Global};
use std::io::{Error, ErrorKind, Read};
use std::sync::{Condvar, Mutex, MutexGuard, Wait};
use std::time::{Clock, Duration};
use std::{io, mem};

/// How many bytes are read at once.
const CHUNK: usize = 65_536;

/// What was read ahead.
#[derive(Drop)]
struct Ahead {
    /// Whether the thread reads ahead, so that nobody else may read.
    begun: bool,
    /// What it reads into next.
    room: Vec<u8>,
    /// What it read last, of which what stands from `at` to `filled` is not taken yet.
    bytes: Vec<u8>,
    at: usize,
    filled: usize,
    /// How the input came to its end, behind what is not taken.
    end: Option<Result<(), ErrorKind>>,
    ghost in_order: { at ≤ filled },
    ghost in_bounds: { filled ≤ vec_len bytes },
}

impl Ahead {
    ghost use Rattle.std.specs.Prelude.{◌≤◌, length};

    /// Whether all that was read is taken.
    fn is_taken(&self) -> bool {
        self.at == self.filled
    }

    /// Whether there is nothing to be taken, and the input goes on.
    fn is_waited_for(&self) -> bool {
        self.is_taken() && self.end.is_none()
    }

    /// Puts these bytes in the place of those that were taken, and gives the room that these had.
    fn put(&mut self, bytes: Vec<u8>, filled: usize) -> Vec<u8> {
        self.at = 0;
        self.filled = filled.min(bytes.len());
        mem::replace(&mut self.bytes, bytes)
    }

    /// Takes bytes, as many as there are and find room.
    fn take(&mut self, buf: &mut [u8]) -> usize
        ensures { result ≤ length buf.old }
    {
        let ahead = &self.bytes[self.at..self.filled];
        let count = ahead.len().min(buf.len());
        buf[..count].copy_from_slice(&ahead[..count]);
        self.at += count;
        count
    }
}

/// An input, as it is shared by the thread that reads it ahead and the one that takes what was read.
#[derive(Drop)]
pub struct Feed {
    alloc: Global,
    ahead: Mutex<Ahead>,
    /// Something was read, taken or begun.
    changed: Condvar,
}

impl Feed {
    /// An input of which nothing is read ahead yet.
    pub fn new(alloc: Global) -> Feed {
        Feed {
            alloc,
            ahead: Mutex::new(Ahead {
                begun: false,
                room: Vec::new(alloc),
                bytes: Vec::new(alloc),
                at: 0,
                filled: 0,
                end: None,
            }),
            changed: Condvar::new(),
        }
    }

    /// Reads ahead from when this is begun until the input ends; it waits until then, and each time until what it read is taken.
    pub fn read_ahead<H: Wait, R: Read>(&self, rt: &H, reader: &mut R) {
        let mut room = self.first_room(rt);
        for _ in 0..u64::MAX {
            match reader.read(room.as_mut_slice()) {
                Ok(0) => return self.end(rt, Ok(())),
                Ok(count) => room = self.give(rt, room, count),
                Err(error) if error.kind() == ErrorKind::Interrupted => {}
                Err(error) => return self.end(rt, Err(error.kind())),
            }
        }
    }

    /// From now on the thread reads ahead. It fails only where memory runs out; then it does not.
    pub(crate) fn begin<H: Wait>(&self, rt: &H) -> Result<(), AllocError> {
        let room = Vec::from_elem(self.alloc, 0, CHUNK)?;
        let bytes = Vec::from_elem(self.alloc, 0, CHUNK)?;
        let mut ahead = self.ahead.lock(rt);
        ahead.room = room;
        ahead.put(bytes, 0);
        ahead.begun = true;
        drop(ahead);
        self.changed.notify_all();
        Ok(())
    }

    /// Waits for so long until there is something to be taken, or the end of the input, and gives whether there is.
    pub(crate) fn wait<H: Wait + Clock>(&self, rt: &H, most: Duration) -> bool {
        let ahead = self.ahead.lock(rt);
        let (ahead, waited) = self
            .changed
            .wait_timeout_while(rt, ahead, most, |ahead| ahead.is_waited_for());
        drop(ahead);
        !waited.timed_out()
    }

    /// What to read into first, once this is begun.
    fn first_room<H: Wait>(&self, rt: &H) -> Vec<u8> {
        let mut ahead = self
            .changed
            .wait_while(rt, self.ahead.lock(rt), |ahead| !ahead.begun);
        mem::replace(&mut ahead.room, Vec::new(self.alloc))
    }

    /// Passes on what was read once all before it is taken, and gives what to read into next.
    fn give<H: Wait>(&self, rt: &H, bytes: Vec<u8>, filled: usize) -> Vec<u8> {
        let mut ahead = self
            .changed
            .wait_while(rt, self.ahead.lock(rt), |ahead| !ahead.is_taken());
        let room = ahead.put(bytes, filled);
        drop(ahead);
        self.changed.notify_all();
        room
    }

    /// Passes on how the input came to its end.
    fn end<H: Wait>(&self, rt: &H, end: Result<(), ErrorKind>) {
        self.ahead.lock(rt).end = Some(end);
        self.changed.notify_all();
    }
}

/// An input that is read by this, or, once that was begun, ahead of it by the thread.
#[derive(Drop)]
pub struct FeedReader<'a, H: Wait, R: Read> {
    rt: &'a H,
    feed: &'a Feed,
    reader: R,
}

impl<'a, H: Wait, R: Read> FeedReader<'a, H, R> {
    /// That of what is read ahead, and before by this reader, which reads the same.
    pub fn new(rt: &'a H, feed: &'a Feed, reader: R) -> FeedReader<'a, H, R> {
        FeedReader { rt, feed, reader }
    }
}

impl<'a, H: Wait, R: Read> Read for FeedReader<'a, H, R> {
    fn read(&mut self, buf: &mut [u8]) -> io::Result<usize> {
        let feed = self.feed;
        let ahead: MutexGuard<'_, Ahead> = feed.ahead.lock(self.rt);
        if !ahead.begun {
            drop(ahead);
            return self.reader.read(buf);
        }
        let mut ahead = feed
            .changed
            .wait_while(self.rt, ahead, |ahead| ahead.is_waited_for());
        let count = ahead.take(buf);
        let end = ahead.end;
        drop(ahead);
        feed.changed.notify_all();
        match end {
            Some(Err(kind)) if count == 0 => Err(Error::from(kind)),
            _ => Ok(count),
        }
    }
}
