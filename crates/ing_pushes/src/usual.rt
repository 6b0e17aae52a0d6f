//! The push.
ghost use Rattle.std.specs.Prelude.{◌≡◌, IfOk, IfSome, Ok, Some, map};
ghost use Rattle.std.specs.Option.{option_and_then};
ghost use Rattle.json.specs.Json as json;
ghost use Rattle.json.specs.Lex.{tokens};
ghost use Rattle.json.specs.Value.{value_view};
ghost use Rattle.ing_commands.specs.Commands as commands;
ghost use Rattle.ing_commands.specs.Views.{push_view, stream_view};
ghost use Rattle.ing_pushes.specs.Usual.{Each, IsEntry, IsPush, IsStream};

use crate::labels::labels_in;
use crate::parts::{push_parts, stream_parts};
use crate::shape::{members_in, texts_in};
use ing_commands::{Push, StreamPush};
use ing_rows::{Entry, Line, RowFault, Stamp, Tenant};
use json::{Error, Reader, Scratch, Value};
use std::alloc::{AllocError, Global};

/// How deep arrays and objects may nest, as in the reader of commands.
const MAX_DEPTH: usize = 127;

/// The push that a line commands, where nothing in it has a fault and it has these members, each once and no
/// other, in any order: `cmd`, `tenant`, `now` and `streams`; in each stream `values`, each of two elements, and
/// `stream`, where a label's place by byte order of names is among the last 64 of those before it. `None` says
/// nothing of the line. `scratch` is room for texts with escapes, kept from line to line.
///
/// `AllocError` only where memory runs out. (Loki documentation: push API; the command's form is own.)
pub fn usual_push<'a>(
    alloc: Global,
    line: &'a [u8],
    scratch: &'a mut Scratch,
) -> Result<Option<Push<'a>>, AllocError>
    ensures { IfOk result (λ found. IfSome found (λ push.
        commands.command_of line.now ≡ Ok (commands.Push (push_view push)))) }
{
    let Ok(text) = simdutf8::compat::from_utf8(line) else {
        return Ok(None);
    };
    let Some(value) = value_of(alloc, text, scratch)? else {
        return Ok(None);
    };
    push_in(alloc, &value)
}

/// The value that a text is, if it is one.
fn value_of<'a>(
    alloc: Global,
    text: &'a str,
    scratch: &'a mut Scratch,
) -> Result<Option<Value<'a>>, AllocError>
    ensures { IfOk result (λ found. IfSome found (λ value.
        option_and_then (λ p. json.if_last p.0 p.1) (json.value 127 (tokens text.now))
        ≡ Some (value_view value))) }
{
    let mut reader = Reader::new(text, scratch)?;
    let value = match Value::read(alloc, &mut reader, MAX_DEPTH) {
        Ok(value) => value,
        Err(Error::OutOfMemory) => return Err(AllocError),
        Err(_) => return Ok(None),
    };
    if reader.next().is_some() {
        return Ok(None);
    }
    Ok(Some(value))
}

/// The push that a value commands.
fn push_in<'a>(alloc: Global, value: &Value<'a>) -> Result<Option<Push<'a>>, AllocError>
    ensures { IfOk result (λ found. IfSome found (λ push.
        IsPush (value_view value.now) (push_view push))) }
{
    let Some(members) = members_in(value) else {
        return Ok(None);
    };
    let Some(parts) = push_parts(members) else {
        return Ok(None);
    };
    if parts.cmd != "push" {
        return Ok(None);
    }
    let Some(streams) = streams_in(alloc, parts.streams)? else {
        return Ok(None);
    };
    let Ok(now) = Stamp::of_text(parts.now) else {
        return Ok(None);
    };
    match Tenant::of_text(alloc, parts.tenant) {
        Ok(tenant) => Ok(Some(Push {
            tenant,
            now,
            streams,
        })),
        Err(RowFault::NoMemory) => Err(AllocError),
        Err(_) => Ok(None),
    }
}

/// The streams that values are.
fn streams_in<'a>(
    alloc: Global,
    values: &[Value<'a>],
) -> Result<Option<Vec<StreamPush<'a>>>, AllocError>
    ensures { IfOk result (λ found. IfSome found (λ streams.
        Each IsStream (map value_view values.now) (map stream_view streams.items))) }
{
    let mut streams = Vec::with_capacity(alloc, values.len())?;
    for value in values {
        let Some(stream) = stream_in(alloc, value)? else {
            return Ok(None);
        };
        streams.push(stream)?;
    }
    Ok(Some(streams))
}

/// The stream that a value is.
fn stream_in<'a>(alloc: Global, value: &Value<'a>) -> Result<Option<StreamPush<'a>>, AllocError>
    ensures { IfOk result (λ found. IfSome found (λ stream.
        IsStream (value_view value.now) (stream_view stream))) }
{
    let Some(members) = members_in(value) else {
        return Ok(None);
    };
    let Some(parts) = stream_parts(members) else {
        return Ok(None);
    };
    let Some(labels) = labels_in(alloc, parts.labels)? else {
        return Ok(None);
    };
    let Some(entries) = entries_in(alloc, parts.values)? else {
        return Ok(None);
    };
    Ok(Some(StreamPush { labels, entries }))
}

/// The entries that values are.
fn entries_in(alloc: Global, values: &[Value<'_>]) -> Result<Option<Vec<Entry>>, AllocError>
    ensures { IfOk result (λ found. IfSome found (λ entries.
        Each IsEntry (map value_view values.now) entries.items)) }
{
    let mut entries = Vec::with_capacity(alloc, values.len())?;
    for value in values {
        let Some(entry) = entry_in(alloc, value)? else {
            return Ok(None);
        };
        entries.push(entry)?;
    }
    Ok(Some(entries))
}

/// The entry that a value is. Its line is copied once.
fn entry_in(alloc: Global, value: &Value<'_>) -> Result<Option<Entry>, AllocError>
    ensures { IfOk result (λ found. IfSome found (λ entry. IsEntry (value_view value.now) entry)) }
{
    let Some(texts) = texts_in(value) else {
        return Ok(None);
    };
    let Ok(stamp) = Stamp::of_text(texts.first) else {
        return Ok(None);
    };
    let line = Line::of_text(alloc, texts.second)?;
    Ok(Some(Entry { stamp, line }))
}
