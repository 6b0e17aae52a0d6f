//! The end of the program: its exit status, and what is written to standard error.
ghost use Rattle.std.specs.Prelude.{◌≡◌, IfErr, OnOk, OnErr};
ghost use Rattle.std.specs.Io.KnownBytes.{Appends};
ghost use Rattle.ing_session.specs.Endings.{ending_text, status_of};
ghost use Rattle.ing_session.specs.Fronts.{AppendsFront};

use crate::ending::Ending;
use crate::transport::{put, put_out};
use std::io;
use std::io::Write;

/// The end of the program: writes why it ended to standard error, where it did not end well, and gives the exit status.
/// Where that cannot be written, a front of the line may stand there, and the status still tells. Takes no memory.
pub fn conclude<E: Write>(ended: Result<(), Ending>, errors: &mut E) -> u8
    ensures status { result ≡ status_of ended }
    ensures line { IfErr ended (λ e.
        AppendsFront (E.contents errors.old) (E.contents errors.new) (ending_text e)) }
    ensures silent { OnOk ended (errors.new ≡ errors.old) }
{
    match ended {
        Ok(()) => 0,
        Err(ending) => {
            let _ = write_ending(&ending, errors);
            ending.status()
        }
    }
}

/// Writes the line that says why the program ended. After an error a front of it is written.
fn write_ending<E: Write>(ending: &Ending, errors: &mut E) -> io::Result<()>
    ensures whole { OnOk result
        (Appends (E.contents errors.old) (E.contents errors.new) (ending_text ending.now)) }
    ensures front { OnErr result
        (AppendsFront (E.contents errors.old) (E.contents errors.new) (ending_text ending.now)) }
{
    put(errors, b"ingestd: ")?;
    put(errors, ending.refusal().name().as_bytes())?;
    put(errors, ending.detail().as_bytes())?;
    put_out(errors, b"\n")
}
