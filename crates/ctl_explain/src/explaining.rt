//! Why a line of input is refused.
ghost use Rattle.std.specs.Prelude.{◌≡◌, IfOk, Some, Ok, Err};
ghost use Rattle.serde_json.specs.View.{view};
ghost use Rattle.ing_commands.specs.Commands.{data_of, said_by};
ghost use Rattle.ing_commands.specs.Views.{catalog_view, command_view};
ghost use Rattle.ctl_explain.specs.Lines as lines;
ghost use Rattle.ctl_explain.specs.Explanations.{Tells, TellsCatalog, TellsCommand, TellsText, HasCause, IsCause};

use crate::explained::{Cause, Explained};
use crate::stream::push_faults;
use crate::walk::member_at_fault;
use ing_commands::{Catalog, Command, LineFault, command_of, read_value};
use ing_labels::{Selector, TextFault};
use ing_limits::Settings;
use serde_json::Value;
use std::alloc::{AllocError, Global};

/// How many bytes a line may have, its line feed not counted.
const MAX_LINE: usize = 16_777_216;

/// Why `ingestd` with these settings refuses a line: as a whole, by a stream of a push, or by the selector
/// of a query or of a question for a catalog. It is told exactly where `ingestd` refuses, by the functions by which it reads; verdicts,
/// `CounterFull`, `StoreFault` and `BadObject`, which depend on what is held, are not told. It fails only
/// where memory runs out. (Own.)
pub fn explain(alloc: Global, settings: &Settings, line: &[u8]) -> Result<Explained, AllocError>
    ensures told { IfOk result (Tells settings.now (lines.said_in line.now)) }
    ensures cause { IfOk result (HasCause line.now) }
{
    if line.len() > MAX_LINE {
        return Ok(Explained::Line(LineFault::BadCommand, Cause::Length));
    }
    if is_blank(line) {
        return Ok(Explained::Skipped);
    }
    let value = match read_value(alloc, line) {
        Ok(value) => value,
        Err(LineFault::NoMemory) => return Err(AllocError),
        Err(fault) => return Ok(Explained::Line(fault, json_cause(alloc, line)?)),
    };
    match command_of(alloc, &value) {
        Ok(command) => explain_command(alloc, settings, &command),
        Err(LineFault::NoMemory) => Err(AllocError),
        Err(fault) => Ok(Explained::Line(fault, Cause::Member(member_at_fault(fault, &value)))),
    }
}

/// Whether a line has nothing but spaces, tabs and carriage returns.
fn is_blank(line: &[u8]) -> bool
    ensures { result ≡ lines.is_blank line.now }
{
    line.iter()
        .all(|byte| matches!(*byte, b' ' | b'\t' | b'\r'))
}

/// What the reader of JSON says of a line that has no value.
fn json_cause(alloc: Global, line: &[u8]) -> Result<Cause, AllocError>
    requires { data_of line.now ≡ Err LineFault.BadCommand }
    ensures { IfOk result (IsCause line.now LineFault.BadCommand) }
{
    match Value::from_slice(alloc, line) {
        Ok(_) => unreachable!("the line has no value"),
        Err(error) => {
            if error.is_memory() {
                Err(AllocError)
            } else {
                Ok(Cause::Json(error))
            }
        }
    }
}

/// Why a command is refused in part.
fn explain_command(
    alloc: Global,
    settings: &Settings,
    command: &Command<'_>,
) -> Result<Explained, AllocError>
    ensures { IfOk result (TellsCommand settings.now (command_view command.now)) }
{
    match command {
        Command::Push(push) => Ok(Explained::Push(push_faults(alloc, settings, push)?)),
        Command::Query(query) => Ok(Explained::Query(text_fault(alloc, query.text)?)),
        Command::Catalog(catalog) => explain_catalog(alloc, catalog),
        Command::Sweep(_)
        | Command::Flush(_)
        | Command::Gauges(_)
        | Command::Board
        | Command::Checkpoint => Ok(Explained::Taken),
    }
}

/// Why a question for a catalog is refused: by its text, where it has one.
fn explain_catalog(alloc: Global, catalog: &Catalog<'_>) -> Result<Explained, AllocError>
    ensures { IfOk result (TellsCatalog (catalog_view catalog.now).text) }
{
    match catalog.text {
        Some(text) => Ok(Explained::Query(text_fault(alloc, text)?)),
        None => Ok(Explained::Taken),
    }
}

/// Why the text of a query is refused.
fn text_fault(alloc: Global, text: &str) -> Result<Option<TextFault>, AllocError>
    ensures { IfOk result (TellsText text.now) }
{
    match Selector::parse(alloc, text) {
        Ok(_) => Ok(None),
        Err(TextFault::NoMemory) => Err(AllocError),
        Err(fault) => Ok(Some(fault)),
    }
}
