//! What a channel reads and writes.

use ing_session::Ending;
use ing_store::StoreEnd;
use std::io::{Read, Write};

/// What opens the two ends of a channel, and closes them, in the thread that serves it: an open may take as long as it takes the other
/// side to come.
pub trait Opens<I: Read, O: Write> {
    ghost use Rattle.std.specs.Prelude.{◌≡◌, IfErr, IsTrue};
    ghost use Rattle.ing_session.specs.Endings.{is_of_run};

    /// Opens the input, and right behind it the output: so does who is at the other side. `InputFault`, `OutputFault` and `NoMemory`.
    fn open(&self, reader: &mut I, writer: &mut O) -> Result<(), Ending>
        ensures reader { I.remaining reader.new ≡ I.remaining reader.old }
        ensures writer { O.contents writer.new ≡ O.contents writer.old }
        ensures ending { IfErr result (λ e. IsTrue (is_of_run e)) };

    /// Closes both, so that the other side sees the end. Takes no memory.
    fn close(&self, reader: &mut I, writer: &mut O)
        ensures reader { I.remaining reader.new ≡ I.remaining reader.old }
        ensures writer { O.contents writer.new ≡ O.contents writer.old };
}

/// What is open already, and is closed with its line.
#[derive(Clone, Copy, Debug)]
pub struct StandOpen;

impl<I: Read, O: Write> Opens<I, O> for StandOpen {
    fn open(&self, reader: &mut I, writer: &mut O) -> Result<(), Ending> {
        Ok(())
    }

    fn close(&self, reader: &mut I, writer: &mut O) {}
}

/// What a channel reads and writes, an end of the store by which its queries read, and how it ended.
#[derive(Drop)]
pub struct Line<I: Read, O: Write, S: StoreEnd> {
    /// Where its commands come from.
    pub reader: I,
    /// Where its replies go.
    pub writer: O,
    /// The end of the store.
    pub end: S,
    /// Whether its input was read to its end and all of it answered; before it is served it is so.
    pub ended: Result<(), Ending>,
}
