//! Lines in from a reader, replies out to a writer. What a line says is not looked at here.
ghost use Rattle.std.specs.Prelude.{◌≡◌, ◌≢◌, ◌⊎◌, ◌<◌, ◌≤◌, [], ℕ, List, Option, Some, IfOk, IfErr, OnOk, OnErr, IsErrOf, IfSome, IsTrue, Err, true, false, vec_len};
ghost use Rattle.std.specs.Io.KnownBytes.{Appends, Consumes, Keeps, IsAtEnd};
ghost use Rattle.ing_session.specs.Endings.{is_of_run};
ghost use Rattle.ing_session.specs.Causes.{GoesOn};
ghost use Rattle.ing_session.specs.FlushCalls.{FlushesSo};
ghost use Rattle.ing_session.specs.Fronts.{AppendsFront, Grows};
ghost use Rattle.ing_session.specs.Lines.{TakesLine};
ghost use Rattle.ing_session.specs.Parts.{HasNoFeed};
ghost use Rattle.ing_session.specs.Replies.{line_text};
ghost use Rattle.ing_session.specs.Views.{reply_data};
ghost use Rattle.ing_session.specs.Runs.{AnswersAll, AnswersWhatWasRead, AnswersFirstLines, AnswersFront, AnswersLines, BreaksOff, HasWritten, IsLeft, Reports, with_replies};
ghost use Rattle.ing_session.specs.Steps.{StepsTo};
ghost use Rattle.ing_session.specs.declared.ticks.Tick.{Tick};
ghost use Rattle.ing_session.specs.Unread.{left, is_ended, progress};

use crate::answer::{AtHand, Scratches, answer, refuse_long};
use crate::ending::Ending;
use crate::heeding::heed_all;
use crate::lines::{Lines, MAX_LINE, NextLine, Part, found};
use crate::reply::{Reply, add_line};
use crate::service::{Reporter, Service};
use crate::ticks::{NoTicker, Ticker};
use ing_commands::Flush;
use json::Scratch;
use std::alloc::{AllocError, Global};
use std::io;
use std::io::{Error, ErrorKind, Read, Write};

/// How many bytes of replies are enough to be written out, though a further line is at hand.
const ENOUGH: usize = 65_536;

/// Reads commands line by line, has each obeyed by the service, answers it in a line, and writes the service's report at the end
/// of input. Replies are held back while they have fewer than 64 KiB together and a whole further line is at hand: so the memory
/// that they take does not grow with the lines that are read ahead. They are written out before anything is read, and before the
/// run ends. Before each line that is taken the clock is asked, also while nothing comes: what it says is done, and nobody is told.
///
/// `InputFault` where a read failed or the input took more than 2^40 reads, `NoMemory` where memory ran out: then what was
/// answered before is written, and no report. `OutputFault` where a write failed: then a front of the answers is written, with
/// the report behind them where the input was at its end, and nothing else. (Own.)
pub fn serve_all<
    R: Read,
    W: Write,
    S,
    C: Reporter<S>,
    X: Fn(&mut C, &mut S, Flush) -> Result<Reply, AllocError>,
    P: Ticker,
>(
    alloc: Global,
    reader: &mut R,
    writer: &mut W,
    end: &mut S,
    service: C,
    flush: &X,
    ticker: &mut P,
) -> Result<(), Ending>
    requires may_flush { X.IsAlwaysCallable flush.now }
    requires flushes { FlushesSo C.manner C.holds C.leaves C.settings_of C.failures C.never_fails (X.post flush.now) }
    requires unsaid { IfSome (P.said ticker.old) (λ said. said ≡ []) }
    requires nothing { C.holds service C.manner.nothing }
    // What is written is, line for line, what the service may answer to the lines read.
    ensures written { HasWritten C.manner (C.settings_of service) record {
      input = R.remaining reader.old;
      rest = R.remaining reader.new;
      ticks = P.said ticker.new;
      before = C.failures end.old;
      after = C.failures end.new;
      old = W.contents writer.old;
      new = W.contents writer.new;
    } result }
    ensures end { GoesOn C.never_fails C.failures end.old end.new }
{
    let mut service = service;
    let ended = serve_lines(alloc, reader, writer, end, &mut service, flush, ticker);
    // All is written by now: nobody waits for what letting go takes.
    service.put_away();
    ended
}

/// As `serve_all`, of one channel of several, whose service goes on afterwards: it writes no report. Where all went well each line is
/// answered, and what these lines leave is held.
///
/// `InputFault`, `NoMemory` and `OutputFault` as `serve_all`; then the answers to the first lines of the input are written, or a front
/// of them where a write failed, and nothing else; what is held is what these lines leave, or where memory ran out at least that. (Own.)
pub fn serve_channel<
    R: Read,
    W: Write,
    S,
    C: Service<S>,
    X: Fn(&mut C, &mut S, Flush) -> Result<Reply, AllocError>,
>(
    alloc: Global,
    reader: &mut R,
    writer: &mut W,
    end: &mut S,
    service: &mut C,
    flush: &X,
) -> Result<(), Ending>
    requires may_flush { X.IsAlwaysCallable flush.now }
    requires flushes { FlushesSo C.manner C.holds C.leaves C.settings_of C.failures C.never_fails (X.post flush.now) }
    requires nothing { C.holds service.old C.manner.nothing }
    ensures output { OnOk result (IfSome (R.remaining reader.old) (λ input.
        AnswersLines C.manner (C.settings_of service.old) (Some []) (C.holds service.new) input (C.failures end.old) (C.failures end.new)
        (W.contents writer.old) (W.contents writer.new))) }
    ensures broken { OnErr result (IfSome (R.remaining reader.old) (λ input.
        BreaksOff C.manner (C.settings_of service.old) (Some []) (IsLeft C.holds C.leaves service.new) input
        (C.failures end.old) (C.failures end.new)
        (AppendsFront (W.contents writer.old) (W.contents writer.new)))) }
    ensures end { GoesOn C.never_fails C.failures end.old end.new }
    ensures ending { IfErr result (λ e. IsTrue (is_of_run e)) }
{
    let mut replies = Vec::new(alloc);
    let ended = answer_channel(alloc, reader, writer, end, service, flush, &mut replies);
    if is_output_fault(&ended) {
        return Err(Ending::OutputFault);
    }
    write_out(writer, &mut replies)?;
    ended
}

/// Answers all lines of the input. What it leaves in `replies` is still to be written.
fn answer_channel<
    R: Read,
    W: Write,
    S,
    C: Service<S>,
    X: Fn(&mut C, &mut S, Flush) -> Result<Reply, AllocError>,
>(
    alloc: Global,
    reader: &mut R,
    writer: &mut W,
    end: &mut S,
    service: &mut C,
    flush: &X,
    replies: &mut Vec<u8>,
) -> Result<(), Ending>
    requires may_flush { X.IsAlwaysCallable flush.now }
    requires flushes { FlushesSo C.manner C.holds C.leaves C.settings_of C.failures C.never_fails (X.post flush.now) }
    requires nothing { C.holds service.old C.manner.nothing }
    requires none { replies.old.items ≡ [] }
    ensures output { OnOk result (IfSome (R.remaining reader.old) (λ input.
        AnswersLines C.manner (C.settings_of service.old) (Some []) (C.holds service.new) input (C.failures end.old) (C.failures end.new)
        (W.contents writer.old) (with_replies (W.contents writer.new) replies.new.items))) }
    ensures broken { (e : Ending) → IsErrOf result e → e ≢ Ending.OutputFault → IfSome (R.remaining reader.old) (λ input.
        BreaksOff C.manner (C.settings_of service.old) (Some []) (IsLeft C.holds C.leaves service.new) input
        (C.failures end.old) (C.failures end.new)
        (Appends (W.contents writer.old) (with_replies (W.contents writer.new) replies.new.items))) }
    ensures cut { IsErrOf result Ending.OutputFault → IfSome (R.remaining reader.old) (λ input.
        BreaksOff C.manner (C.settings_of service.old) (Some []) (IsLeft C.holds C.leaves service.new) input
        (C.failures end.old) (C.failures end.new)
        (AppendsFront (W.contents writer.old) (W.contents writer.new))) }
    ensures grown { Grows (W.contents writer.old) (W.contents writer.new) }
    ensures end { GoesOn C.never_fails C.failures end.old end.new }
    ensures ending { IfErr result (λ e. IsTrue (is_of_run e)) }
{
    let mut lines = Lines::new(alloc)?;
    let mut no_clock = NoTicker;
    answer_lines(
        alloc,
        reader,
        writer,
        end,
        &mut lines,
        service,
        flush,
        &mut no_clock,
        replies,
    )
}

/// The same, of a service that is put away afterwards.
fn serve_lines<
    R: Read,
    W: Write,
    S,
    C: Reporter<S>,
    X: Fn(&mut C, &mut S, Flush) -> Result<Reply, AllocError>,
    P: Ticker,
>(
    alloc: Global,
    reader: &mut R,
    writer: &mut W,
    end: &mut S,
    service: &mut C,
    flush: &X,
    ticker: &mut P,
) -> Result<(), Ending>
    requires may_flush { X.IsAlwaysCallable flush.now }
    requires flushes { FlushesSo C.manner C.holds C.leaves C.settings_of C.failures C.never_fails (X.post flush.now) }
    requires unsaid { IfSome (P.said ticker.old) (λ said. said ≡ []) }
    requires nothing { C.holds service.old C.manner.nothing }
    ensures output { OnOk result (IfSome (R.remaining reader.old) (λ input.
        AnswersAll C.manner (C.settings_of service.old) (P.said ticker.new) input (C.failures end.old) (C.failures end.new)
        (W.contents writer.old) (W.contents writer.new))) }
    ensures input_fault { IsErrOf result Ending.InputFault → IfSome (R.remaining reader.old) (λ input.
        AnswersWhatWasRead C.manner (C.settings_of service.old) (P.said ticker.new) input (R.remaining reader.new)
        (C.failures end.old) (C.failures end.new)
        (W.contents writer.old) (W.contents writer.new)) }
    ensures no_memory { IsErrOf result Ending.NoMemory → IfSome (R.remaining reader.old) (λ input.
        AnswersFirstLines C.manner (C.settings_of service.old) (P.said ticker.new) input (C.failures end.old) (C.failures end.new)
        (W.contents writer.old) (W.contents writer.new)) }
    ensures output_fault { IsErrOf result Ending.OutputFault →
        IfSome (R.remaining reader.old) (λ input.
        AnswersFront C.manner (C.settings_of service.old) (P.said ticker.new) input (C.failures end.old) (C.failures end.new)
        (W.contents writer.old) (W.contents writer.new)) }
    ensures end { GoesOn C.never_fails C.failures end.old end.new }
    ensures ending { IfErr result (λ e. IsTrue (is_of_run e)) }
{
    let mut replies = Vec::new(alloc);
    let ended = answer_all(
        alloc,
        reader,
        writer,
        end,
        service,
        flush,
        ticker,
        &mut replies,
    );
    if is_output_fault(&ended) {
        return Err(Ending::OutputFault);
    }
    write_out(writer, &mut replies)?;
    ended
}

/// Whether a write has failed.
fn is_output_fault(ended: &Result<(), Ending>) -> bool
    ensures yes { result ≡ true → ended.now ≡ Err Ending.OutputFault }
    ensures no { result ≡ false → ended.now ≢ Err Ending.OutputFault }
{
    matches!(ended, Err(Ending::OutputFault))
}

/// Answers all lines of the input, and makes the report. What it leaves in `replies` is still to be written.
fn answer_all<
    R: Read,
    W: Write,
    S,
    C: Reporter<S>,
    X: Fn(&mut C, &mut S, Flush) -> Result<Reply, AllocError>,
    P: Ticker,
>(
    alloc: Global,
    reader: &mut R,
    writer: &mut W,
    end: &mut S,
    service: &mut C,
    flush: &X,
    ticker: &mut P,
    replies: &mut Vec<u8>,
) -> Result<(), Ending>
    requires may_flush { X.IsAlwaysCallable flush.now }
    requires flushes { FlushesSo C.manner C.holds C.leaves C.settings_of C.failures C.never_fails (X.post flush.now) }
    requires unsaid { IfSome (P.said ticker.old) (λ said. said ≡ []) }
    requires nothing { C.holds service.old C.manner.nothing }
    requires none { replies.old.items ≡ [] }
    ensures output { OnOk result (IfSome (R.remaining reader.old) (λ input.
        AnswersAll C.manner (C.settings_of service.old) (P.said ticker.new) input (C.failures end.old) (C.failures end.new)
        (W.contents writer.old) (with_replies (W.contents writer.new) replies.new.items))) }
    ensures input_fault { IsErrOf result Ending.InputFault → IfSome (R.remaining reader.old) (λ input.
        AnswersWhatWasRead C.manner (C.settings_of service.old) (P.said ticker.new) input (R.remaining reader.new)
        (C.failures end.old) (C.failures end.new)
        (W.contents writer.old) (with_replies (W.contents writer.new) replies.new.items)) }
    ensures no_memory { IsErrOf result Ending.NoMemory → IfSome (R.remaining reader.old) (λ input.
        AnswersFirstLines C.manner (C.settings_of service.old) (P.said ticker.new) input (C.failures end.old) (C.failures end.new)
        (W.contents writer.old) (with_replies (W.contents writer.new) replies.new.items)) }
    ensures output_fault { IsErrOf result Ending.OutputFault →
        IfSome (R.remaining reader.old) (λ input.
        AnswersFront C.manner (C.settings_of service.old) (P.said ticker.new) input (C.failures end.old) (C.failures end.new)
        (W.contents writer.old) (W.contents writer.new)) }
    ensures grown { Grows (W.contents writer.old) (W.contents writer.new) }
    ensures end { GoesOn C.never_fails C.failures end.old end.new }
    ensures ending { IfErr result (λ e. IsTrue (is_of_run e)) }
{
    let mut lines = Lines::new(alloc)?;
    answer_lines(
        alloc, reader, writer, end, &mut lines, service, flush, ticker, replies,
    )?;
    report(alloc, service, replies)
}

/// Makes the report.
fn report<S, C: Reporter<S>>(
    alloc: Global,
    service: &C,
    replies: &mut Vec<u8>,
) -> Result<(), Ending>
    ensures text { OnOk result ((held : C.manner.Held) → C.holds service.now held →
        Reports C.manner held replies.old.items replies.new.items) }
    ensures err { OnErr result (replies.new.items ≡ replies.old.items) }
    ensures ending { IfErr result (λ e. e ≡ Ending.NoMemory) }
{
    let reply = service.report()?;
    add_line(alloc, replies, &reply)?;
    Ok(())
}

/// Answers line after line, until there is none.
fn answer_lines<
    R: Read,
    W: Write,
    S,
    C: Service<S>,
    X: Fn(&mut C, &mut S, Flush) -> Result<Reply, AllocError>,
    P: Ticker,
>(
    alloc: Global,
    reader: &mut R,
    writer: &mut W,
    end: &mut S,
    lines: &mut Lines,
    service: &mut C,
    flush: &X,
    ticker: &mut P,
    replies: &mut Vec<u8>,
) -> Result<(), Ending>
    requires may_flush { X.IsAlwaysCallable flush.now }
    requires flushes { FlushesSo C.manner C.holds C.leaves C.settings_of C.failures C.never_fails (X.post flush.now) }
    // From whatever lines are answered so far, to the end.
    ensures step { StepsTo C.manner (λ _. false)
        record {
          ticks = P.said ticker.old;
          settings = C.settings_of service.old;
          holds = C.holds service.old;
          leaves = C.leaves service.old;
          failed = C.failures end.old;
          contents = W.contents writer.old;
          replies = replies.old.items;
          at_end = is_ended lines.old;
          left = left lines.old (R.remaining reader.old);
          rest = R.remaining reader.old;
        }
        record {
          ticks = P.said ticker.new;
          settings = C.settings_of service.new;
          holds = C.holds service.new;
          leaves = C.leaves service.new;
          failed = C.failures end.new;
          contents = W.contents writer.new;
          replies = replies.new.items;
          at_end = is_ended lines.new;
          left = left lines.new (R.remaining reader.new);
          rest = R.remaining reader.new;
        } result }
    ensures grown { Grows (W.contents writer.old) (W.contents writer.new) }
    ensures end { GoesOn C.never_fails C.failures end.old end.new }
    ensures ending { IfErr result (λ e. IsTrue (is_of_run e)) }
{
    let mut scratches = Scratches {
        line: Scratch::new(alloc),
        ahead: Scratch::new(alloc),
    };
    let mut line = Vec::new(alloc);
    loop {
        if !serve(
            alloc,
            reader,
            writer,
            end,
            lines,
            &mut line,
            &mut scratches,
            service,
            flush,
            ticker,
            replies,
        )? {
            return Ok(());
        }
    }
}

/// Does what the clock says before the next line, and answers that line, and with it those at hand that may share a sync with it. Gives
/// whether there was one.
fn serve<
    R: Read,
    W: Write,
    S,
    C: Service<S>,
    X: Fn(&mut C, &mut S, Flush) -> Result<Reply, AllocError>,
    P: Ticker,
>(
    alloc: Global,
    reader: &mut R,
    writer: &mut W,
    end: &mut S,
    lines: &mut Lines,
    line: &mut Vec<u8>,
    scratches: &mut Scratches,
    service: &mut C,
    flush: &X,
    ticker: &mut P,
    replies: &mut Vec<u8>,
) -> Result<bool, Ending>
    requires may_flush { X.IsAlwaysCallable flush.now }
    requires flushes { FlushesSo C.manner C.holds C.leaves C.settings_of C.failures C.never_fails (X.post flush.now) }
    ensures step { StepsTo C.manner (λ more. more)
        record {
          ticks = P.said ticker.old;
          settings = C.settings_of service.old;
          holds = C.holds service.old;
          leaves = C.leaves service.old;
          failed = C.failures end.old;
          contents = W.contents writer.old;
          replies = replies.old.items;
          at_end = is_ended lines.old;
          left = left lines.old (R.remaining reader.old);
          rest = R.remaining reader.old;
        }
        record {
          ticks = P.said ticker.new;
          settings = C.settings_of service.new;
          holds = C.holds service.new;
          leaves = C.leaves service.new;
          failed = C.failures end.new;
          contents = W.contents writer.new;
          replies = replies.new.items;
          at_end = is_ended lines.new;
          left = left lines.new (R.remaining reader.new);
          rest = R.remaining reader.new;
        } result }
    ensures grown { Grows (W.contents writer.old) (W.contents writer.new) }
    ensures progress { IfOk result (λ more. more ≡ true → progress lines.old < progress lines.new) }
    ensures end { GoesOn C.never_fails C.failures end.old end.new }
    ensures ending { IfErr result (λ e. IsTrue (is_of_run e)) }
{
    heed_all(writer, end, lines, service, flush, ticker, replies)?;
    serve_line(
        alloc, reader, writer, end, lines, line, scratches, service, flush, replies,
    )
}

/// Answers the next line, and with it those at hand that may share a sync with it. Gives whether there was one.
fn serve_line<
    R: Read,
    W: Write,
    S,
    C: Service<S>,
    X: Fn(&mut C, &mut S, Flush) -> Result<Reply, AllocError>,
>(
    alloc: Global,
    reader: &mut R,
    writer: &mut W,
    end: &mut S,
    lines: &mut Lines,
    line: &mut Vec<u8>,
    scratches: &mut Scratches,
    service: &mut C,
    flush: &X,
    replies: &mut Vec<u8>,
) -> Result<bool, Ending>
    requires may_flush { X.IsAlwaysCallable flush.now }
    requires flushes { FlushesSo C.manner C.holds C.leaves C.settings_of C.failures C.never_fails (X.post flush.now) }
    ensures step { (ticks : Option (List Tick)) → StepsTo C.manner (λ more. more)
        record {
          ticks = ticks;
          settings = C.settings_of service.old;
          holds = C.holds service.old;
          leaves = C.leaves service.old;
          failed = C.failures end.old;
          contents = W.contents writer.old;
          replies = replies.old.items;
          at_end = is_ended lines.old;
          left = left lines.old (R.remaining reader.old);
          rest = R.remaining reader.old;
        }
        record {
          ticks = ticks;
          settings = C.settings_of service.new;
          holds = C.holds service.new;
          leaves = C.leaves service.new;
          failed = C.failures end.new;
          contents = W.contents writer.new;
          replies = replies.new.items;
          at_end = is_ended lines.new;
          left = left lines.new (R.remaining reader.new);
          rest = R.remaining reader.new;
        } result }
    ensures grown { Grows (W.contents writer.old) (W.contents writer.new) }
    ensures progress { IfOk result (λ more. more ≡ true → progress lines.old < progress lines.new) }
    ensures end { GoesOn C.never_fails C.failures end.old end.new }
    ensures ending { IfErr result (λ e. IsTrue (is_of_run e)) }
{
    match next_line(reader, writer, lines, line, replies)? {
        NextLine::Line => {
            let at_hand = AtHand {
                line,
                ahead: lines.ahead(),
            };
            let taken = answer(alloc, service, flush, end, at_hand, scratches, replies)?;
            lines.skip(taken);
            Ok(true)
        }
        NextLine::TooLong => {
            refuse_long(alloc, replies)?;
            Ok(true)
        }
        NextLine::End => Ok(false),
    }
}

/// The next line. Where it is not at hand whole, or they are enough, the replies that are held back are written out before it
/// is taken.
fn next_line<R: Read, W: Write>(
    reader: &mut R,
    writer: &mut W,
    lines: &mut Lines,
    line: &mut Vec<u8>,
    replies: &mut Vec<u8>,
) -> Result<NextLine, Ending>
    ensures line { IfOk result (λ next.
        (is_ended lines.old ≡ true → IsAtEnd (left lines.old (R.remaining reader.old))) →
        TakesLine (left lines.old (R.remaining reader.old)) (left lines.new (R.remaining reader.new))
        (is_ended lines.new) next line.new.items) }
    ensures held { IfOk result (λ _. Keeps (with_replies (W.contents writer.old) replies.old.items)
        (with_replies (W.contents writer.new) replies.new.items)) }
    ensures kept { IfErr result (λ e. e ≢ Ending.OutputFault →
        Keeps (with_replies (W.contents writer.old) replies.old.items)
        (with_replies (W.contents writer.new) replies.new.items)) }
    ensures fault { IsErrOf result Ending.InputFault → (is_ended lines.old ≡ false)
        × (read : List ℕ) × HasNoFeed read
        × Consumes (left lines.old (R.remaining reader.old)) (R.remaining reader.new) read }
    ensures output_fault { IsErrOf result Ending.OutputFault →
        AppendsFront (W.contents writer.old) (W.contents writer.new) replies.old.items }
    ensures grown { Grows (W.contents writer.old) (W.contents writer.new) }
    // What is still held back is less than enough.
    ensures few { OnOk result (vec_len replies.new < ENOUGH) }
    ensures short { OnOk result (vec_len line.new ≤ MAX_LINE) }
    ensures progress { IfOk result (λ next. next ≢ NextLine.End →
        progress lines.old < progress lines.new) }
    ensures ending { IfErr result (λ e. IsTrue (is_of_run e)) }
{
    write_enough(writer, replies)?;
    if lines.is_ended() {
        line.clear();
        return Ok(NextLine::End);
    }
    match lines.begin(line)? {
        Part::Ended(too_long) => Ok(found(too_long)),
        Part::Open(too_long) => {
            write_out(writer, replies)?;
            Ok(lines.read_on(reader, line, too_long)?)
        }
    }
}

/// Writes a reply as one line, and flushes the writer.
///
/// `NoMemory`, and then nothing is written; `OutputFault`, and then a front of the line is written. (Own.)
pub fn put_reply<W: Write>(alloc: Global, writer: &mut W, reply: &Reply) -> Result<(), Ending>
    ensures output { OnOk result
        (Appends (W.contents writer.old) (W.contents writer.new) (line_text (reply_data reply.now))) }
    ensures no_memory { IsErrOf result Ending.NoMemory → writer.new ≡ writer.old }
    ensures output_fault { IsErrOf result Ending.OutputFault →
        AppendsFront (W.contents writer.old) (W.contents writer.new) (line_text (reply_data reply.now)) }
    ensures ending { IfErr result (λ e. (e ≡ Ending.NoMemory) ⊎ (e ≡ Ending.OutputFault)) }
{
    let mut line = Vec::new(alloc);
    add_line(alloc, &mut line, reply)?;
    write_out(writer, &mut line)
}

/// Writes out the replies that are held back where they are enough.
fn write_enough<W: Write>(writer: &mut W, replies: &mut Vec<u8>) -> Result<(), Ending>
    ensures held { OnOk result (Keeps (with_replies (W.contents writer.old) replies.old.items)
        (with_replies (W.contents writer.new) replies.new.items)) }
    ensures few { OnOk result (vec_len replies.new < ENOUGH) }
    ensures front { OnErr result
        (AppendsFront (W.contents writer.old) (W.contents writer.new) replies.old.items) }
    ensures grown { Grows (W.contents writer.old) (W.contents writer.new) }
    ensures ending { IfErr result (λ e. e ≡ Ending.OutputFault) }
{
    if replies.len() < ENOUGH {
        return Ok(());
    }
    write_out(writer, replies)
}

/// Writes the replies that are held back, and flushes them. After an error a front of them is written, and nothing else.
pub(crate) fn write_out<W: Write>(writer: &mut W, replies: &mut Vec<u8>) -> Result<(), Ending>
    ensures written { OnOk result
        (Appends (W.contents writer.old) (W.contents writer.new) replies.old.items) }
    ensures none { OnOk result (replies.new.items ≡ []) }
    ensures front { OnErr result
        (AppendsFront (W.contents writer.old) (W.contents writer.new) replies.old.items) }
    ensures grown { Grows (W.contents writer.old) (W.contents writer.new) }
    ensures ending { IfErr result (λ e. e ≡ Ending.OutputFault) }
{
    if replies.is_empty() {
        return Ok(());
    }
    match put_out(writer, replies) {
        Ok(()) => {
            replies.clear();
            Ok(())
        }
        Err(_) => Err(Ending::OutputFault),
    }
}

/// Writes bytes, and flushes the writer. After an error a front of them is written, and nothing else. Takes no memory.
pub(crate) fn put_out<W: Write>(writer: &mut W, bytes: &[u8]) -> io::Result<()>
    ensures whole { OnOk result
        (Appends (W.contents writer.old) (W.contents writer.new) bytes.now) }
    ensures front { OnErr result
        (AppendsFront (W.contents writer.old) (W.contents writer.new) bytes.now) }
{
    put(writer, bytes)?;
    writer.flush()
}

/// Writes bytes. A write that a signal interrupted is tried again. After an error a front of them is written, and nothing
/// else. Takes no memory.
///
/// The error of the writer, or `WriteZero` where it takes no byte. (Own.)
pub(crate) fn put<W: Write>(writer: &mut W, bytes: &[u8]) -> io::Result<()>
    ensures whole { OnOk result
        (Appends (W.contents writer.old) (W.contents writer.new) bytes.now) }
    ensures front { OnErr result
        (AppendsFront (W.contents writer.old) (W.contents writer.new) bytes.now) }
{
    let mut rest = bytes;
    for _ in 0..u64::MAX {
        if rest.is_empty() {
            return Ok(());
        }
        match writer.write(rest) {
            Ok(0) => return Err(Error::from(ErrorKind::WriteZero)),
            Ok(count) => rest = &rest[count..],
            Err(error) if error.kind() == ErrorKind::Interrupted => {}
            Err(error) => return Err(error),
        }
    }
    Err(Error::from(ErrorKind::Interrupted))
}
