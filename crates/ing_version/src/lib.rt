//! Which programs these are.
#![tactic(auto)]

ghost use Rattle.std.specs.Prelude.{◌≡◌, ◌↔◌, [], ◌∷◌, IsTrue, OnOk, codes, map, string_bytes};
ghost use Rattle.std.specs.Io.KnownBytes.{Appends};
ghost use Rattle.ing_version.specs.Version.{line_of};

use std::io;
use std::io::Write;

/// The version, and the toolchain and the logic that both programs are proved with.
pub const VERSION: &str = "0.1.0 (rattle-kit-13f logic dac8208d650f15bf)";

/// Whether the words behind a program's name ask which program it is: `--version` alone. A file of that name is `./--version`. Takes
/// no memory. (Own.)
pub fn asks_version(words: &[String]) -> bool
    ensures { IsTrue result ↔ (map string_bytes words.now ≡ codes "--version" ∷ []) }
{
    match words {
        [word] => word.as_str() == "--version",
        _ => false,
    }
}

/// Writes a program's name and its version as a line. After an error a front of it may be written. (Own.)
pub fn write_version<W: Write>(writer: &mut W, name: &str) -> io::Result<()>
    ensures { OnOk result (Appends (W.contents writer.old) (W.contents writer.new) (line_of name.now)) }
{
    writer.write_all(name.as_bytes())?;
    writer.write_all(b" ")?;
    writer.write_all(VERSION.as_bytes())?;
    writer.write_all(b"\n")
}
