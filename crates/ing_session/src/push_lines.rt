//! Lines at hand that command pushes: they are read one after another, so that what they write may share a sync.
ghost use Rattle.std.specs.Prelude.{◌≡◌, ◌≤◌, length, IfOk, MatchOption};

use crate::answer::is_blank;
use crate::lines::feed_at;
use ing_commands::Push;
use ing_pushes::usual_push;
use json::Scratch;
use std::alloc::{AllocError, Global};

/// The whole lines at hand behind a line.
#[derive(Drop)]
pub struct PushLines<'a> {
    /// What of them is not taken yet.
    rest: &'a [u8],
    ghost short: { length rest.now ≤ 16777216 },
}

impl<'a> PushLines<'a> {
    ghost use Rattle.ing_commands.specs.Views.{push_view};
    ghost use Rattle.ing_session.specs.PushLines.{TakesPush, rest_of};

    /// The lines at the front of these bytes.
    pub(crate) fn new(ahead: &'a [u8]) -> PushLines<'a>
        requires { length ahead.now ≤ 16777216 }
        ensures { rest_of result ≡ ahead.now }
    {
        PushLines { rest: ahead }
    }

    /// Takes the next line, if it is whole and commands a push in the usual form, and gives that push. `scratch` is room that reading
    /// takes. It fails only where memory runs out.
    pub fn next<'b>(
        &mut self,
        alloc: Global,
        scratch: &'b mut Scratch,
    ) -> Result<Option<Push<'b>>, AllocError>
    where
        'a: 'b,
        ensures { IfOk result (λ found. MatchOption found (rest_of self.new ≡ rest_of self.old)
            (λ push. TakesPush (rest_of self.old) (rest_of self.new) (push_view push))) }
    {
        let rest = self.rest;
        let Some(index) = feed_at(rest) else {
            return Ok(None);
        };
        let line = &rest[..index];
        if is_blank(line) {
            return Ok(None);
        }
        let Some(push) = usual_push(alloc, line, scratch)? else {
            return Ok(None);
        };
        self.rest = &rest[index + 1..];
        Ok(Some(push))
    }

    /// How many bytes are not taken yet.
    pub(crate) fn left(&self) -> usize
        ensures { result ≡ length (rest_of self.now) }
    {
        self.rest.len()
    }
}
