//! The two ends of a channel: paths that are opened when it is served, or the clock, which nobody answers.
ghost use Rattle.std.specs.Prelude.{IsTrue};
ghost use Rattle.ing_lanes.specs.Endings.{is_of_run};

use ing_lanes::{Ending, Opens};
use std::io::{Error, ErrorKind, Read, Write};
use std::rt::Files;
use std::sync::atomic::{AtomicU64, Ordering};
use std::{fs, io};

/// What the commands of a channel come from.
#[derive(Drop)]
pub enum Input<F: Read, T: Read> {
    /// What is read at a path: nothing until it is opened.
    Path { path: String, file: Option<F> },
    /// A clock.
    Clock(T),
}

/// Where the replies of a channel go.
#[derive(Drop)]
pub enum Output<F: Write> {
    /// What is written at a path: nothing until it is opened.
    Path { path: String, file: Option<F> },
    /// Nobody reads them.
    Nowhere,
}

impl<F: Read, T: Read> Input<F, T> {
    /// The input at this path, not opened yet.
    pub fn at(path: String) -> Input<F, T> {
        Input::Path { path, file: None }
    }
}

impl<F: Write> Output<F> {
    /// The output at this path, not opened yet.
    pub fn at(path: String) -> Output<F> {
        Output::Path { path, file: None }
    }
}

impl<F: Read, T: Read> Read for Input<F, T> {
    fn read(&mut self, buf: &mut [u8]) -> io::Result<usize> {
        match self {
            Input::Path {
                path: _,
                file: Some(file),
            } => file.read(buf),
            Input::Path {
                path: _,
                file: None,
            } => Err(Error::from(ErrorKind::NotConnected)),
            Input::Clock(clock) => clock.read(buf),
        }
    }
}

impl<F: Write> Write for Output<F> {
    fn write(&mut self, buf: &[u8]) -> io::Result<usize> {
        match self {
            Output::Path {
                path: _,
                file: Some(file),
            } => file.write(buf),
            Output::Path {
                path: _,
                file: None,
            } => Err(Error::from(ErrorKind::NotConnected)),
            Output::Nowhere => Ok(buf.len()),
        }
    }

    fn flush(&mut self) -> io::Result<()> {
        match self {
            Output::Path {
                path: _,
                file: Some(file),
            } => file.flush(),
            Output::Path {
                path: _,
                file: None,
            }
            | Output::Nowhere => Ok(()),
        }
    }
}

/// The paths of a file system, each a named pipe or a file. A number goes down by one with each channel that ends.
#[derive(Drop)]
pub struct Paths<'a, R: Files> {
    rt: &'a R,
    left: &'a AtomicU64,
}

impl<'a, R: Files> Paths<'a, R> {
    /// Those of this file system; the number is that of the channels that are left.
    pub fn new(rt: &'a R, left: &'a AtomicU64) -> Paths<'a, R> {
        Paths { rt, left }
    }
}

impl<'a, F: Read + Write + Drop, T: Read, R: Files<File = F>> Opens<Input<F, T>, Output<F>>
    for Paths<'a, R> {
    fn open(&self, reader: &mut Input<F, T>, writer: &mut Output<F>) -> Result<(), Ending> {
        if let Input::Path { path, file } = reader {
            match fs::open(self.rt, path.as_str()) {
                Ok(opened) => *file = Some(opened),
                Err(error) => return Err(ending_of(&error, Ending::InputFault)),
            }
        }
        if let Output::Path { path, file } = writer {
            match fs::create(self.rt, path.as_str()) {
                Ok(opened) => *file = Some(opened),
                Err(error) => return Err(ending_of(&error, Ending::OutputFault)),
            }
        }
        Ok(())
    }

    fn close(&self, reader: &mut Input<F, T>, writer: &mut Output<F>) {
        if let Input::Path { path: _, file } = reader {
            *file = None;
            self.left.fetch_sub(1, Ordering::SeqCst);
        }
        if let Output::Path { path: _, file } = writer {
            *file = None;
        }
    }
}

/// How a channel ends that was not opened: where memory ran out so, else in this way.
fn ending_of(error: &Error, other: Ending) -> Ending
    ensures { IsTrue (is_of_run other) → IsTrue (is_of_run result) }
{
    if error.kind() == ErrorKind::OutOfMemory {
        return Ending::NoMemory;
    }
    other
}
