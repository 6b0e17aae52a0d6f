//! What a run stands on.

use crate::push_lines::PushLines;
use crate::reply::Reply;
use ing_commands::{Command, Push};
use json::Scratch;
use std::alloc::AllocError;

/// What obeys the commands of a run: shards, whoever has them. S is an end of the store, which is passed to each command.
pub trait Service<S> {
    ghost use Rattle.std.specs.Prelude.{◌≡◌, ℕ, IfOk, Ok, false, map};
    ghost use Rattle.ing_limits.specs.Settings.{StoreSettings};
    ghost use Rattle.ing_commands.specs.Views.{command_view, push_view};
    ghost use Rattle.ing_session.specs.Causes.{GoesOn};
    ghost use Rattle.ing_session.specs.FlushCalls.{is_flush};
    ghost use Rattle.ing_session.specs.Manners.{Manner};
    ghost use Rattle.ing_session.specs.PushLines.{rest_of};
    ghost use Rattle.ing_session.specs.Runs.{IsObeyed, PushesLines};
    ghost use Rattle.ing_session.specs.Views.{reply_data};

    /// What it may do at a command, and report at the end.
    ghost manner: { Manner };

    /// What is held, as far as it can be known.
    ghost holds: { Self → manner.Held → Type 0 };

    /// What a call leaves of what was held, as far as that can be known also where memory ran out in it.
    ghost leaves: { Self → manner.Held → Type 0 };

    /// The settings.
    ghost settings_of: { Self → StoreSettings };

    /// How often an end of the store has failed.
    ghost failures: { S → ℕ };

    /// An end of the store never fails.
    ghost never_fails: { S → Type 0 };

    /// Does what a command says, and gives the reply; a flush is given to the function that stands beside the service. It fails
    /// only where memory runs out; then a part of what the command says may be done.
    fn obey(&mut self, end: &mut S, command: Command<'_>) -> Result<Reply, AllocError>
        requires other { is_flush (command_view command) ≡ false }
        ensures obeyed { IfOk result (λ reply. (old : manner.Held) → holds self.old old →
            IsObeyed manner (settings_of self.old) (Ok (command_view command.entry)) old (holds self.new)
            (failures end.old) (failures end.new) (reply_data reply)) }
        ensures left { (old : manner.Held) → holds self.old old → leaves self.new old }
        ensures settings { settings_of self.new ≡ settings_of self.old }
        ensures end { GoesOn never_fails failures end.old end.new };

    /// Does what pushes say, one after another, and gives their replies: `first`, and those of the lines at hand behind it, as far as
    /// these are pushes in the usual form. What is written for them may share a sync, so none of them is replied to before all are
    /// done. `scratch` is room that reading takes. It fails only where memory runs out; then a part may be done.
    fn push_lines(
        &mut self,
        first: Push<'_>,
        lines: &mut PushLines<'_>,
        scratch: &mut Scratch,
    ) -> Result<Vec<Reply>, AllocError>
        ensures obeyed { IfOk result (λ replies. (old : manner.Held) → holds self.old old →
            PushesLines manner (settings_of self.old) (push_view first.entry) (rest_of lines.old) (rest_of lines.new)
            old (holds self.new) (map reply_data replies.items)) }
        ensures left { (old : manner.Held) → holds self.old old → leaves self.new old }
        ensures settings { settings_of self.new ≡ settings_of self.old };
}

/// A service that reports what became of all. It cannot be dropped: it is put away.
pub trait Reporter<S>: Service<S> {
    ghost use Rattle.std.specs.Prelude.{IfOk};
    ghost use Rattle.ing_session.specs.Views.{reply_data};

    /// Makes the report.
    fn report(&self) -> Result<Reply, AllocError>
        ensures { IfOk result (λ reply. (held : Self.manner.Held) → Self.holds self.now held →
            Self.manner.reports held (reply_data reply)) };

    /// Lets go what is in memory. Takes no memory.
    fn put_away(self);
}
