//! What is told of a load at its end.

/// Counts of a load (own), which no clause speaks of.
#[derive(Clone, Copy, Debug, PartialEq, Eq)]
pub struct Tally {
    /// Lines that were taken.
    pub lines: u64,
    /// Commands that were made of them.
    pub commands: u64,
    /// Bytes that are no UTF-8, which were replaced.
    pub replaced: u64,
    /// Lines that have no time of their own.
    pub timeless: u64,
}

impl Tally {
    /// Of no line.
    pub(crate) fn empty() -> Tally {
        Tally {
            lines: 0,
            commands: 0,
            replaced: 0,
            timeless: 0,
        }
    }

    /// With one more line.
    pub(crate) fn with_line(self, line: &[u8], has_time: bool) -> Tally {
        let timeless = if has_time { 0 } else { 1 };
        Tally {
            lines: self.lines.saturating_add(1),
            commands: self.commands,
            replaced: self.replaced.saturating_add(replaced_in(line)),
            timeless: self.timeless.saturating_add(timeless),
        }
    }

    /// With one more command.
    pub(crate) fn with_command(self) -> Tally {
        Tally {
            commands: self.commands.saturating_add(1),
            ..self
        }
    }
}

/// How many bytes of a line are no UTF-8.
fn replaced_in(line: &[u8]) -> u64 {
    let mut count = 0u64;
    for chunk in line.utf8_chunks() {
        count = count.saturating_add(chunk.invalid().len() as u64);
    }
    count
}
