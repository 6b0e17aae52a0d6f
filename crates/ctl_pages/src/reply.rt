//! What a reply has.
ghost use Rattle.std.specs.Prelude.{◌≡◌, option_map};
ghost use Rattle.serde_json.specs.View.{view, items_view};
ghost use Rattle.ing_refusals.specs.Results.{Gives, Returns};
ghost use Rattle.ing_rows.specs.Cursors.{cursor_view};
ghost use Rattle.ctl_pages.specs.Replies.{entries_in, next_in, number_at, page_in, place_in, text_at, told_in};

use crate::fault::ReplyFault;
use crate::told::{Name, Told};
use ing_rows::{Cursor, Line, Stamp};
use serde_json::Value;
use std::alloc::Global;

/// The entries that a reply to a query has, in their order. `NoAnswer` exactly where the value is
/// no such reply, as a refusal or the reply to another command. (Own.)
pub fn page_of(alloc: Global, reply: &Value) -> Result<Vec<Told>, ReplyFault>
    ensures { Gives ReplyFault.NoMemory (λ page. page.items) result (page_in (view reply.now)) }
{
    let list = entries_in(reply)?;
    let mut page = Vec::with_capacity(alloc, list.len())?;
    for value in list {
        page.push(told_in(alloc, value)?)?;
    }
    Ok(page)
}

/// The place behind which the next page begins, where a reply to a query tells one. `NoAnswer`
/// exactly where the value is no such reply, or what stands there is no place: an integer `number`
/// from 0 to 2^64-1, a stamp `stamp`, and a text `stream`. Takes no memory. (Own.)
pub fn next_of(reply: &Value) -> Result<Option<Cursor<'_>>, ReplyFault>
    ensures { Returns (option_map cursor_view) result (next_in (view reply.now)) }
{
    let query = reply.get("query").ok_or(ReplyFault::NoAnswer)?;
    match query.get("next") {
        Some(value) => Ok(Some(place_in(value)?)),
        None => Ok(None),
    }
}

/// The values of the entries of a reply.
fn entries_in(reply: &Value) -> Result<&[Value], ReplyFault>
    ensures { Returns (λ list. items_view list.now) result (entries_in (view reply.now)) }
{
    let list = reply
        .get("query")
        .and_then(|query| query.get("entries"))
        .and_then(Value::as_array)
        .ok_or(ReplyFault::NoAnswer)?;
    Ok(list.as_slice())
}

/// The entry that a value says.
fn told_in(alloc: Global, value: &Value) -> Result<Told, ReplyFault>
    ensures { Gives ReplyFault.NoMemory (λ told. told) result (told_in (view value.now)) }
{
    let line = text_at(value, "line")?;
    let Ok(stamp) = Stamp::of_text(text_at(value, "stamp")?) else {
        return Err(ReplyFault::NoAnswer);
    };
    let stream = text_at(value, "stream")?;
    Ok(Told {
        stream: Name::of_text(alloc, stream)?,
        stamp,
        line: Line::of_text(alloc, line)?,
    })
}

/// The place that a value says.
fn place_in(value: &Value) -> Result<Cursor<'_>, ReplyFault>
    ensures { Returns cursor_view result (place_in (view value.now)) }
{
    let number = number_at(value, "number")?;
    let Ok(stamp) = Stamp::of_text(text_at(value, "stamp")?) else {
        return Err(ReplyFault::NoAnswer);
    };
    let stream = text_at(value, "stream")?;
    Ok(Cursor {
        stamp: stamp.nanoseconds(),
        stream,
        number,
    })
}

/// The member of a name, if it is a text.
fn text_at<'a>(value: &'a Value, name: &str) -> Result<&'a str, ReplyFault>
    ensures { Returns (λ text. text.now) result (text_at name.now (view value.now)) }
{
    value
        .get(name)
        .and_then(Value::as_str)
        .ok_or(ReplyFault::NoAnswer)
}

/// The member of a name, if it is an integer from 0 to 2^64-1.
fn number_at(value: &Value, name: &str) -> Result<u64, ReplyFault>
    ensures { Returns (λ number. number) result (number_at name.now (view value.now)) }
{
    value
        .get(name)
        .and_then(Value::as_u64)
        .ok_or(ReplyFault::NoAnswer)
}
