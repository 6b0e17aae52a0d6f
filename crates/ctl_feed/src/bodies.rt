//! Inputs of bodies of Loki's push API made into push commands, line by line.
ghost use Rattle.std.specs.Prelude.{◌≡◌, Ok, Some, None, IfSome, List, ℕ};
ghost use Rattle.std.specs.Io.KnownBytes.{Appends};
ghost use Rattle.ctl_feed.specs.declared.wrap.WrapFault.{WrapFault};
ghost use Rattle.ctl_feed.specs.Lines.{with_feed};
ghost use Rattle.ctl_feed.specs.Wraps.{IsRefused, IsWrapped, WrapsAll, WrapsUntil};

use crate::inputs::{FeedEnding, put};
use crate::lines::{NextLine, next_line};
use crate::wrap::{MAX_LINE, WrapFault, wrap_body};
use ing_commands::LineFault;
use ing_rows::{Stamp, Tenant};
use std::alloc::Global;
use std::io::{BufRead, Write};

/// How far an input was wrapped.
#[derive(Clone, Copy, Debug, PartialEq, Eq)]
pub enum Wrapped {
    /// To its end.
    All,
    /// Up to a body that is refused. The number of its line is counted from 1 in this call.
    Refused { line: u64, fault: WrapFault },
}

/// Takes each line of an input as a body, as `wrap_body` does, and writes the line of its push. At a body
/// that is refused it stops: all before it are written, and a further call goes on behind it. A body of more
/// than `MAX_LINE` bytes is `TooLong`, and not looked at. No more of a line are kept in memory.
///
/// `InputFault` where a read failed, or there are 2^64-2 lines, or one takes as many reads; `OutputFault`
/// where a write failed; `NoMemory`. Then the last line that was written may be cut. (Own.)
pub fn wrap_input<R: BufRead, W: Write>(
    alloc: Global,
    reader: &mut R,
    writer: &mut W,
    tenant: &Tenant,
    now: Stamp,
) -> Result<Wrapped, FeedEnding>
    ensures all { result ≡ Ok Wrapped.All → IfSome (R.remaining reader.old) (λ input.
        WrapsAll tenant.now now input (R.remaining reader.new)
        (W.contents writer.old) (W.contents writer.new)) }
    ensures refused { (line : ℕ) (fault : WrapFault) → result ≡ Ok (Wrapped.Refused line fault)
        → IfSome (R.remaining reader.old) (λ input.
        WrapsUntil tenant.now now input (R.remaining reader.new)
        (W.contents writer.old) (W.contents writer.new) line fault) }
{
    let mut body = Vec::new(alloc);
    for number in 1..u64::MAX {
        match next_line(reader, &mut body, MAX_LINE)? {
            NextLine::End => return Ok(Wrapped::All),
            NextLine::TooLong => {
                return Ok(Wrapped::Refused {
                    line: number,
                    fault: WrapFault::TooLong,
                });
            }
            NextLine::Line => {
                if let Some(fault) = wrap_line(alloc, writer, tenant, now, &body)? {
                    return Ok(Wrapped::Refused {
                        line: number,
                        fault,
                    });
                }
            }
        }
    }
    Err(FeedEnding::InputFault)
}

/// Writes the line of the push of a body. Gives why the body is refused, if it is.
fn wrap_line<W: Write>(
    alloc: Global,
    writer: &mut W,
    tenant: &Tenant,
    now: Stamp,
    body: &[u8],
) -> Result<Option<WrapFault>, FeedEnding>
    ensures wrapped { result ≡ Ok None → (line : List ℕ) × IsWrapped tenant.now now body.now line
        × Appends (W.contents writer.old) (W.contents writer.new) (with_feed line) }
    ensures refused { (fault : WrapFault) → result ≡ Ok (Some fault)
        → IsRefused tenant.now now body.now fault × (W.contents writer.new ≡ W.contents writer.old) }
{
    match wrap_body(alloc, tenant, now, body) {
        Ok(line) => {
            put(writer, line)?;
            Ok(None)
        }
        Err(WrapFault::Refused(LineFault::NoMemory)) => Err(FeedEnding::NoMemory),
        Err(fault) => Ok(Some(fault)),
    }
}
