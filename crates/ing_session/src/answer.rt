//! What is answered to a line. It knows of no reader and no writer.
ghost use Rattle.std.specs.Prelude.{◌≡◌, ◌≤◌, ◌++◌, ℕ, List, length, IfOk, IsErr, Ok, OnOk, OnErr, false};
ghost use Rattle.ing_commands.specs.Commands.{command_of};
ghost use Rattle.ing_commands.specs.Views.{push_view};
ghost use Rattle.ing_session.specs.Causes.{GoesOn};
ghost use Rattle.ing_session.specs.FlushCalls.{FlushesSo};
ghost use Rattle.ing_session.specs.Manners.{is_blank, is_long, line_fault};
ghost use Rattle.ing_session.specs.PushLines.{SaysPush};
ghost use Rattle.ing_session.specs.Replies.{line_text};
ghost use Rattle.ing_session.specs.Runs.{AnswersAhead, IsLeft, IsObeyed};
ghost use Rattle.ing_session.specs.Ticks.{command_of_tick};
ghost use Rattle.ing_session.specs.Views.{reply_data};

use crate::push_lines::PushLines;
use crate::reply::{Reply, add_line, add_lines};
use crate::service::Service;
use crate::ticks::Tick;
use ing_commands::{Command, Flush, LineFault, Push, Sweep, command_of, read_value};
use ing_pushes::usual_push;
use json::Scratch;
use std::alloc::{AllocError, Global};

/// A line, and what is read ahead behind it.
#[derive(Clone, Copy)]
pub struct AtHand<'a> {
    pub line: &'a [u8],
    pub ahead: &'a [u8],
}

/// Room that reading takes, kept from line to line: for a line, and for those at hand behind it.
#[derive(Drop)]
pub struct Scratches {
    pub line: Scratch,
    pub ahead: Scratch,
}

/// Answers a line of at most the length that a line may have: puts the reply behind `replies`. Where it is a push in the usual form,
/// the lines at hand behind it are answered with it, as far as they are such pushes, too. Gives how many bytes of what is read ahead
/// these take. It fails only where memory runs out; then there is no reply, and a part of what the lines say may be done.
pub fn answer<S, C: Service<S>, X: Fn(&mut C, &mut S, Flush) -> Result<Reply, AllocError>>(
    alloc: Global,
    service: &mut C,
    flush: &X,
    end: &mut S,
    at_hand: AtHand<'_>,
    scratches: &mut Scratches,
    replies: &mut Vec<u8>,
) -> Result<usize, AllocError>
    requires short { is_long at_hand.line.now ≡ false }
    requires few { length at_hand.ahead.now ≤ 16777216 }
    requires may_flush { X.IsAlwaysCallable flush.now }
    requires flushes { FlushesSo C.manner C.holds C.leaves C.settings_of C.failures C.never_fails (X.post flush.now) }
    ensures answered { IfOk result (λ taken. (old : C.manner.Held) → C.holds service.old old →
        AnswersAhead C.manner (C.settings_of service.old) at_hand.entry.line.now at_hand.entry.ahead.now taken old (C.holds service.new)
        (C.failures end.old) (C.failures end.new) replies.old.items replies.new.items) }
    ensures within { IfOk result (λ taken. taken ≤ length at_hand.entry.ahead.now) }
    ensures settings { C.settings_of service.new ≡ C.settings_of service.old }
    ensures end { GoesOn C.never_fails C.failures end.old end.new }
    ensures left { OnErr result ((old : C.manner.Held) → C.holds service.old old →
        IsLeft C.holds C.leaves service.new old) }
    ensures err { OnErr result (replies.new.items ≡ replies.old.items) }
{
    let line = at_hand.line;
    if is_blank(line) {
        return Ok(0);
    }
    // Nearly all lines are pushes in one form, which is read without a copy of its texts.
    if let Some(push) = usual_push(alloc, line, &mut scratches.line)? {
        return answer_pushes(
            alloc,
            service,
            push,
            at_hand.ahead,
            &mut scratches.ahead,
            replies,
        );
    }
    let reply = reply_to(alloc, service, flush, end, line)?;
    add_line(alloc, replies, &reply)?;
    Ok(0)
}

/// Answers a push, and those of the whole lines at the front of what is read ahead. Gives how many bytes these lines take.
fn answer_pushes<S, C: Service<S>>(
    alloc: Global,
    service: &mut C,
    push: Push<'_>,
    ahead: &[u8],
    scratch: &mut Scratch,
    replies: &mut Vec<u8>,
) -> Result<usize, AllocError>
    requires few { length ahead.now ≤ 16777216 }
    ensures answered { IfOk result (λ taken. (line : List ℕ) (count : ℕ) (old : C.manner.Held) →
        SaysPush line (push_view push.entry) → C.holds service.old old →
        AnswersAhead C.manner (C.settings_of service.old) line ahead.now taken old (C.holds service.new)
        count count replies.old.items replies.new.items) }
    ensures within { IfOk result (λ taken. taken ≤ length ahead.now) }
    ensures settings { C.settings_of service.new ≡ C.settings_of service.old }
    ensures left { (old : C.manner.Held) → C.holds service.old old → C.leaves service.new old }
    ensures err { OnErr result (replies.new.items ≡ replies.old.items) }
{
    let mut lines = PushLines::new(ahead);
    let told = service.push_lines(push, &mut lines, scratch)?;
    add_lines(alloc, replies, &told)?;
    Ok(ahead.len().saturating_sub(lines.left()))
}

/// Does what a clock says, and gives the reply, which nobody reads. It fails only where memory runs out; then a part of it may be done.
pub fn obey_tick<S, C: Service<S>, X: Fn(&mut C, &mut S, Flush) -> Result<Reply, AllocError>>(
    service: &mut C,
    flush: &X,
    end: &mut S,
    tick: Tick,
) -> Result<Reply, AllocError>
    requires may_flush { X.IsAlwaysCallable flush.now }
    requires flushes { FlushesSo C.manner C.holds C.leaves C.settings_of C.failures C.never_fails (X.post flush.now) }
    ensures obeyed { IfOk result (λ reply. (old : C.manner.Held) → C.holds service.old old →
        IsObeyed C.manner (C.settings_of service.old) (Ok (command_of_tick tick)) old (C.holds service.new)
        (C.failures end.old) (C.failures end.new) (reply_data reply)) }
    ensures settings { C.settings_of service.new ≡ C.settings_of service.old }
    ensures end { GoesOn C.never_fails C.failures end.old end.new }
    ensures left { (old : C.manner.Held) → C.holds service.old old → C.leaves service.new old }
{
    match tick {
        Tick::Sweep { now } => service.obey(end, Command::Sweep(Sweep { now })),
        Tick::Flush => flush(service, end, Flush { forced: false }),
        Tick::Checkpoint => service.obey(end, Command::Checkpoint),
    }
}

/// Answers a line that is too long.
pub fn refuse_long(alloc: Global, replies: &mut Vec<u8>) -> Result<(), AllocError>
    ensures text { OnOk result (replies.new.items
        ≡ replies.old.items ++ line_text (line_fault LineFault.BadCommand)) }
    ensures err { OnErr result (replies.new.items ≡ replies.old.items) }
{
    let reply = fault_reply(LineFault::BadCommand)?;
    add_line(alloc, replies, &reply)
}

/// The reply to a line that is no push in the usual form, and what it does.
fn reply_to<S, C: Service<S>, X: Fn(&mut C, &mut S, Flush) -> Result<Reply, AllocError>>(
    alloc: Global,
    service: &mut C,
    flush: &X,
    end: &mut S,
    line: &[u8],
) -> Result<Reply, AllocError>
    requires may_flush { X.IsAlwaysCallable flush.now }
    requires flushes { FlushesSo C.manner C.holds C.leaves C.settings_of C.failures C.never_fails (X.post flush.now) }
    ensures obeyed { IfOk result (λ reply. (old : C.manner.Held) → C.holds service.old old →
        IsObeyed C.manner (C.settings_of service.old) (command_of line.now) old (C.holds service.new)
        (C.failures end.old) (C.failures end.new) (reply_data reply)) }
    ensures settings { C.settings_of service.new ≡ C.settings_of service.old }
    ensures end { GoesOn C.never_fails C.failures end.old end.new }
    ensures left { (old : C.manner.Held) → C.holds service.old old →
        IsLeft C.holds C.leaves service.new old }
{
    let value = match read_value(alloc, line) {
        Ok(value) => value,
        Err(fault) => return fault_reply(fault),
    };
    match command_of(alloc, &value) {
        Ok(Command::Flush(said)) => flush(service, end, said),
        Ok(command) => service.obey(end, command),
        Err(fault) => fault_reply(fault),
    }
}

/// The reply to a line that is refused.
fn fault_reply(fault: LineFault) -> Result<Reply, AllocError>
    ensures reply { IfOk result (λ reply. reply_data reply ≡ line_fault fault) }
    ensures memory { fault ≡ LineFault.NoMemory → IsErr result }
{
    if fault == LineFault::NoMemory {
        return Err(AllocError);
    }
    Ok(Reply::Fault(fault.refusal()))
}

/// Whether a line has nothing but spaces, tabs and carriage returns.
pub(crate) fn is_blank(line: &[u8]) -> bool
    ensures { result ≡ is_blank line.now }
{
    line.iter()
        .all(|byte| matches!(*byte, b' ' | b'\t' | b'\r'))
}
