//! The flush queue, and the passes of those who put and take.
ghost use Rattle.std.specs.Prelude.{◌≡◌, ◌<◌, [], ◌∷◌, ◌++◌, IfOk, IfErr, IfSome, IfNone, IsTrue, OnOk, OnErr, false, length, true};
ghost use Rattle.ing_flush.specs.Queues.{standing};

use crate::line::{Another, Line, Moved, Puts, Takes};
use crossbeam_queue::{Pass, RuledArrayQueue};
use ing_refusals::Refusal;
use ing_shard::Op;
use std::alloc::{AllocError, Global};
use std::marker::Model;
use std::sync::Wait;

/// A queue of operations, which any number of threads may put into and take from, each by a pass of its own (own). What was put
/// was taken or stands in the queue, as often as it was put: none is taken twice, and none is made up. Contracts see its name,
/// and how many operations it has room for.
#[derive(Drop)]
pub struct FlushQueue {
    queue: RuledArrayQueue<Op, Moved, Line>,
}

impl Model for FlushQueue {
    ghost use Rattle.crossbeam_queue.specs.Passes.{ruled_capacity};
    ghost use Rattle.ing_flush.specs.Queues.{QueueState};

    ghost Value = { QueueState };

    ghost view = { λ queue. record {
      name = queue.queue.table.shared.table_id;
      capacity = ruled_capacity queue.queue;
    } };
}

/// The right to put into a queue and to take from it. Contracts see the name of its queue, what was put and taken by it, in order,
/// and whether the queue has no other pass: then they see what stands in it, too.
#[derive(Drop)]
pub struct QueuePass {
    pass: Pass<Op, Moved>,
}

impl Model for QueuePass {
    ghost use Rattle.std.specs.Prelude.{◌≡◌, []};
    ghost use Rattle.ing_flush.specs.Queues.{PassState, pass_of};

    ghost Value = { PassState };

    ghost view = { λ pass. pass_of pass.pass };

    ghost invariant = { λ pass. pass.pass.me.1 ≡ [] };
}

/// The queue was full. It has the operation that was not put.
#[derive(Clone, Copy, Debug, PartialEq, Eq)]
pub struct QueueFull {
    /// The operation.
    pub op: Op,
}

impl QueueFull {
    /// Which refusal it is. Takes no memory.
    pub fn refusal(&self) -> Refusal
        ensures { result ≡ Refusal.QueueFull }
    {
        Refusal::QueueFull
    }
}

impl FlushQueue {
    /// A queue with room for so many operations, and its first pass. All room is made here: no later call takes memory.
    /// `AllocError` where memory runs out.
    pub fn open(alloc: Global, length: usize) -> Result<(FlushQueue, QueuePass), AllocError>
        requires { 0 < length }
        ensures capacity { IfOk result (λ opened. opened.0.capacity ≡ length) }
        ensures pass { IfOk result (λ opened.
            opened.1 ≡ record { queue = opened.0.name; put = []; taken = []; alone = true }) }
    {
        let (queue, pass) = RuledArrayQueue::ruled(alloc, length)?;
        Ok((FlushQueue { queue }, QueuePass { pass }))
    }

    /// Puts an operation at the back. `QueueFull`, with the operation, only where the queue was full at a moment of the call.
    /// Takes no memory.
    pub fn put<W: Wait>(&self, rt: &W, pass: &mut QueuePass, op: Op) -> Result<(), QueueFull>
        requires { pass.old.queue ≡ self.now.name }
        ensures put { OnOk result (pass.new ≡ record pass.old { put = pass.old.put ++ op ∷ [] }) }
        ensures back { IfErr result (λ full. full.op ≡ op) }
        ensures err { OnErr result (pass.new ≡ pass.old) }
        // What other passes put and took no clause can know.
        ensures full { OnErr result (IsTrue pass.old.alone →
            length (standing pass.old) ≡ self.now.capacity) }
    {
        match self.queue.push_as::<Puts, W>(rt, &mut pass.pass, op) {
            Ok(()) => Ok(()),
            Err(op) => Err(QueueFull { op }),
        }
    }

    /// Takes the operation at the front. `None` only where the queue was empty at a moment of the call. Takes no memory.
    pub fn take<W: Wait>(&self, rt: &W, pass: &mut QueuePass) -> Option<Op>
        requires { pass.old.queue ≡ self.now.name }
        ensures taken { IfSome result (λ op.
            pass.new ≡ record pass.old { taken = pass.old.taken ++ op ∷ [] }) }
        ensures none { IfNone result (pass.new ≡ pass.old) }
        // What other passes put and took no clause can know.
        ensures front { IfSome result (λ op. IsTrue pass.old.alone →
            standing pass.old ≡ op ∷ standing pass.new) }
        ensures empty { IfNone result (IsTrue pass.old.alone → standing pass.old ≡ []) }
    {
        self.queue.pop_as::<Takes, W>(rt, &mut pass.pass)
    }

    /// A pass more, by which nothing was put or taken yet. Takes no memory.
    pub fn another(&self, pass: &mut QueuePass) -> QueuePass
        requires { pass.old.queue ≡ self.now.name }
        ensures new { result ≡
            record { queue = self.now.name; put = []; taken = []; alone = false } }
        ensures old { pass.new ≡ record pass.old { alone = false } }
    {
        let pass = self.queue.another::<Another>(&mut pass.pass);
        QueuePass { pass }
    }
}
