//! How lines are read.
ghost use Rattle.std.specs.Prelude.{◌≡◌};
ghost use Rattle.ctl_feed.specs.Readings.{without_return};

use crate::stamps::Stamps;

/// How lines are read.
#[derive(Clone, Copy, Debug, PartialEq, Eq)]
pub struct Reading {
    /// Where their stamps come from.
    pub stamps: Stamps,
    /// Whether a carriage return at the end of a line is no part of it.
    pub drops_returns: bool,
}

impl Reading {
    ghost use Rattle.std.specs.Prelude.{◌≡◌};
    ghost use Rattle.ctl_feed.specs.Readings.{text_of};

    /// The text of a line. Takes no memory.
    pub(crate) fn text_of<'a>(&self, line: &'a [u8]) -> &'a [u8]
        ensures { result.now ≡ text_of self.now line.now }
    {
        if self.drops_returns {
            without_return(line)
        } else {
            line
        }
    }
}

/// A line without the carriage return at its end, if there is one.
fn without_return(line: &[u8]) -> &[u8]
    ensures { result.now ≡ without_return line.now }
{
    if line.is_empty() {
        return line;
    }
    let last = line.len() - 1;
    if line[last] == b'\r' {
        &line[..last]
    } else {
        line
    }
}
