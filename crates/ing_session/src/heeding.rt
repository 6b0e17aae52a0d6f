//! What a clock says between two lines.
ghost use Rattle.std.specs.Prelude.{◌≡◌, ◌⊎◌, ℕ, List, Option, Bool, true, IfErr, OnOk, OnErr};
ghost use Rattle.std.specs.Io.KnownBytes.{Keeps};
ghost use Rattle.ing_session.specs.Causes.{GoesOn};
ghost use Rattle.ing_session.specs.FlushCalls.{FlushesSo};
ghost use Rattle.ing_session.specs.Fronts.{AppendsFront, Grows};
ghost use Rattle.ing_session.specs.Runs.{with_replies};
ghost use Rattle.ing_session.specs.Steps.{StepsTo};

use crate::answer::obey_tick;
use crate::ending::Ending;
use crate::lines::Lines;
use crate::reply::Reply;
use crate::service::Service;
use crate::ticks::Ticker;
use crate::transport::write_out;
use ing_commands::Flush;
use std::alloc::AllocError;
use std::io::Write;

/// Does what the clock says before a further line is taken, one after another; nobody is replied to.
pub fn heed_all<
    W: Write,
    S,
    C: Service<S>,
    X: Fn(&mut C, &mut S, Flush) -> Result<Reply, AllocError>,
    P: Ticker,
>(
    writer: &mut W,
    end: &mut S,
    lines: &Lines,
    service: &mut C,
    flush: &X,
    ticker: &mut P,
    replies: &mut Vec<u8>,
) -> Result<(), Ending>
    requires may_flush { X.IsAlwaysCallable flush.now }
    requires flushes { FlushesSo C.manner C.holds C.leaves C.settings_of C.failures C.never_fails (X.post flush.now) }
    // The run goes on, whatever is left to be read.
    ensures step { (at_end : Bool) (left rest : Option (List ℕ)) → StepsTo C.manner (λ _. true)
        record {
          ticks = P.said ticker.old;
          settings = C.settings_of service.old;
          holds = C.holds service.old;
          leaves = C.leaves service.old;
          failed = C.failures end.old;
          contents = W.contents writer.old;
          replies = replies.old.items;
          at_end = at_end;
          left = left;
          rest = rest;
        }
        record {
          ticks = P.said ticker.new;
          settings = C.settings_of service.new;
          holds = C.holds service.new;
          leaves = C.leaves service.new;
          failed = C.failures end.new;
          contents = W.contents writer.new;
          replies = replies.new.items;
          at_end = at_end;
          left = left;
          rest = rest;
        } result }
    ensures grown { Grows (W.contents writer.old) (W.contents writer.new) }
    ensures end { GoesOn C.never_fails C.failures end.old end.new }
    ensures ending { IfErr result (λ e. (e ≡ Ending.NoMemory) ⊎ (e ≡ Ending.OutputFault)) }
{
    for _ in 0..u64::MAX {
        if !heed(writer, end, lines, service, flush, ticker, replies)? {
            return Ok(());
        }
    }
    Ok(())
}

/// Does the one thing that the clock says next; nobody is replied to. Gives whether it said one. Where nothing is read ahead, the replies
/// that are held back are written out first, since the clock may wait then.
fn heed<
    W: Write,
    S,
    C: Service<S>,
    X: Fn(&mut C, &mut S, Flush) -> Result<Reply, AllocError>,
    P: Ticker,
>(
    writer: &mut W,
    end: &mut S,
    lines: &Lines,
    service: &mut C,
    flush: &X,
    ticker: &mut P,
    replies: &mut Vec<u8>,
) -> Result<bool, Ending>
    requires may_flush { X.IsAlwaysCallable flush.now }
    requires flushes { FlushesSo C.manner C.holds C.leaves C.settings_of C.failures C.never_fails (X.post flush.now) }
    // The run goes on, whatever is left to be read.
    ensures step { (at_end : Bool) (left rest : Option (List ℕ)) → StepsTo C.manner (λ _. true)
        record {
          ticks = P.said ticker.old;
          settings = C.settings_of service.old;
          holds = C.holds service.old;
          leaves = C.leaves service.old;
          failed = C.failures end.old;
          contents = W.contents writer.old;
          replies = replies.old.items;
          at_end = at_end;
          left = left;
          rest = rest;
        }
        record {
          ticks = P.said ticker.new;
          settings = C.settings_of service.new;
          holds = C.holds service.new;
          leaves = C.leaves service.new;
          failed = C.failures end.new;
          contents = W.contents writer.new;
          replies = replies.new.items;
          at_end = at_end;
          left = left;
          rest = rest;
        } result }
    ensures grown { Grows (W.contents writer.old) (W.contents writer.new) }
    ensures end { GoesOn C.never_fails C.failures end.old end.new }
    ensures ending { IfErr result (λ e. (e ≡ Ending.NoMemory) ⊎ (e ≡ Ending.OutputFault)) }
{
    let at_hand = lines.is_ended() || !lines.ahead().is_empty();
    write_before_waiting(writer, replies, at_hand)?;
    let Some(tick) = ticker.next_tick(at_hand) else {
        return Ok(false);
    };
    obey_tick(service, flush, end, tick)?;
    Ok(true)
}

/// Writes out the replies that are held back where nothing is at hand.
fn write_before_waiting<W: Write>(
    writer: &mut W,
    replies: &mut Vec<u8>,
    at_hand: bool,
) -> Result<(), Ending>
    ensures held { OnOk result (Keeps (with_replies (W.contents writer.old) replies.old.items)
        (with_replies (W.contents writer.new) replies.new.items)) }
    ensures front { OnErr result
        (AppendsFront (W.contents writer.old) (W.contents writer.new) replies.old.items) }
    ensures grown { Grows (W.contents writer.old) (W.contents writer.new) }
    ensures ending { IfErr result (λ e. e ≡ Ending.OutputFault) }
{
    if at_hand {
        return Ok(());
    }
    write_out(writer, replies)
}
