//! How far a load is, for one who waits at a terminal.
use std::io;
use std::io::{IsTerminal, Write};

/// After so many commands one line is told.
const EACH: u64 = 20;

/// An output of commands, each written at once. Where standard error is a terminal it tells there how many there are by now.
#[derive(Drop)]
pub struct Progress<'a, O: Write> {
    rt: &'a HostRuntime,
    output: &'a mut O,
    is_watched: bool,
    commands: u64,
}

impl<'a, O: Write> Progress<'a, O> {
    /// Over this output, before the first command.
    pub fn new(rt: &'a HostRuntime, output: &'a mut O) -> Progress<'a, O> {
        Progress {
            rt,
            output,
            is_watched: rt.stderr().is_terminal(),
            commands: 0,
        }
    }

    /// Ends what it tells, so that a line may follow.
    pub fn end(&mut self) {
        if self.is_watched && self.commands >= EACH {
            let _ = eprint!(self.rt; "\n");
        }
    }
}

impl<'a, O: Write> Write for Progress<'a, O> {
    fn write(&mut self, buf: &[u8]) -> io::Result<usize> {
        let count = self.output.write(buf)?;
        self.commands = self.commands.saturating_add(1);
        if self.is_watched && self.commands % EACH == 0 {
            let _ = eprint!(self.rt; "\r{} commands", self.commands);
        }
        Ok(count)
    }

    fn flush(&mut self) -> io::Result<()> {
        self.output.flush()
    }
}
