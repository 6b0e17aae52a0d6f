//! The rule of a flush queue, and its kinds of step.

use crossbeam_queue::protocol::{Lesson, Outcome, Protocol, Split};
use ing_shard::Op;
use std::collections::LinkedList;

// What a pass put and took, in order, and whether there is no other pass. No value of it is made.
pub struct Moved {
    pub put: LinkedList<Op>,
    pub taken: LinkedList<Op>,
    pub alone: bool,
}

// What was put was taken or stands in the queue, as often as it was put.
pub struct Line;

impl Protocol<Op, Moved> for Line {
    ghost use Rattle.ing_flush.specs.Lines.{IsLine, first};

    ghost holds = { IsLine };

    ghost first = { first };
}

// An operation joins at the back.
pub struct Puts;

impl Outcome<Op, Moved> for Puts {
    ghost use Rattle.std.specs.Prelude.{◌≡◌};
    ghost use Rattle.ing_flush.specs.Lines.{with_put};

    ghost then = { λ old op new. new ≡ with_put op old };
}

impl Lesson<Op, Moved> for Puts {
    ghost use Rattle.ing_flush.specs.Lines.{Learned};

    ghost fact = { Learned };
}

// An operation leaves at the front.
pub struct Takes;

impl Outcome<Op, Moved> for Takes {
    ghost use Rattle.ing_flush.specs.Lines.{IsTaken};

    ghost then = { IsTaken };
}

impl Lesson<Op, Moved> for Takes {
    ghost use Rattle.ing_flush.specs.Lines.{Learned};

    ghost fact = { Learned };
}

// A pass more.
pub struct Another;

impl Split<Moved> for Another {
    ghost use Rattle.ing_flush.specs.Lines.{in_company, later};

    ghost left = { in_company };

    ghost right = { λ _. later };
}
