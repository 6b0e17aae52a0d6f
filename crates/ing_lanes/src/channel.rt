//! One channel, as its thread serves it.
ghost use Rattle.std.specs.Prelude.{◌≡◌};
ghost use Rattle.ing_lanes.specs.ByLane.{by_lane, nothing_held};
ghost use Rattle.ing_lanes.specs.Counted.{IsHeld, IsHeldAtLeast, counted_by};
ghost use Rattle.ing_lanes.specs.Served.{IsServed, account_of};
ghost use Rattle.ing_session.specs.FlushCalls.{ObeysFlush};

use crate::lane::Lane;
use crate::line::{Line, Opens};
use ing_commands::Flush;
use ing_node::NodeName;
use ing_session::{Ending, serve_channel};
use ing_store::{Receipt, StoreEnd};
use ing_wal::LogDisk;
use std::io::{Read, Write};
use std::sync::Wait;
use std::thread::Threads;

/// A channel, and who obeys its commands. It cannot be dropped.
pub struct Channel<
    'r,
    N: NodeName,
    I: Read,
    O: Write,
    D: LogDisk + Drop,
    R: Receipt,
    F: StoreEnd<Receipt = R>,
    S: StoreEnd<Receipt = R>,
    W: Wait,
> {
    pub(crate) line: Line<I, O, S>,
    pub(crate) lane: Lane<'r, N, D, R, F, W>,
}

impl<
    'r,
    N: NodeName + Send + Sync,
    I: Read,
    O: Write,
    D: LogDisk + Drop + Send,
    R: Receipt + Send + Sync,
    F: StoreEnd<Receipt = R> + Drop + Send,
    S: StoreEnd<Receipt = R>,
    W: Threads + Wait + Sync,
> Channel<'r, N, I, O, D, R, F, S, W> {
    /// Opens the channel, reads to the end of the input, answers each line, and closes it; or until an open, a read or a write fails, or
    /// memory runs out.
    pub(crate) fn serve<X: Opens<I, O>>(&mut self, opens: &X)
        requires { IsHeld self.old.lane.pusher (counted_by self.old.lane.workers.items) self.old.lane.board nothing_held }
        ensures { IsServed S.is_honest N.has_logs N.settings (I.remaining self.old.line.reader)
            (S.failure_count self.old.line.end) (S.failure_count self.new.line.end)
            (O.contents self.old.line.writer) (O.contents self.new.line.writer)
            (account_of self.new.lane.pusher self.new.lane.workers.items) self.new.line.ended }
    {
        self.line.ended = self.answer(opens);
        opens.close(&mut self.line.reader, &mut self.line.writer);
    }

    /// Opens the channel, and answers the lines of its input.
    fn answer<X: Opens<I, O>>(&mut self, opens: &X) -> Result<(), Ending>
        requires { IsHeld self.old.lane.pusher (counted_by self.old.lane.workers.items) self.old.lane.board nothing_held }
        ensures { IsServed S.is_honest N.has_logs N.settings (I.remaining self.old.line.reader)
            (S.failure_count self.old.line.end) (S.failure_count self.new.line.end)
            (O.contents self.old.line.writer) (O.contents self.new.line.writer)
            (account_of self.new.lane.pusher self.new.lane.workers.items) result }
    {
        let flush = |lane: &mut Lane<'_, N, D, R, F, W>, end: &mut S, said: Flush|
            ensures { ObeysFlush (by_lane S.is_honest N.has_logs)
                (λ lane held. IsHeld lane.pusher (counted_by lane.workers.items) lane.board held)
                (λ lane held. IsHeldAtLeast lane.pusher (counted_by lane.workers.items) held) (λ _. N.settings)
                S.failure_count S.never_fails said lane.entry.now lane.exit.now
                end.entry.now end.exit.now result }
        { lane.flush::<S>(said) };
        match opens.open(&mut self.line.reader, &mut self.line.writer) {
            Ok(()) => serve_channel(
                self.lane.alloc,
                &mut self.line.reader,
                &mut self.line.writer,
                &mut self.line.end,
                &mut self.lane,
                &flush,
            ),
            Err(ending) => Err(ending),
        }
    }
}
