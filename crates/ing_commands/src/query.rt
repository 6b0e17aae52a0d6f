//! The command that asks for entries.
ghost use Rattle.std.specs.Prelude.{option_map};
ghost use Rattle.serde_json.specs.View.{view};
ghost use Rattle.ing_refusals.specs.Results.{Gives, Returns};
ghost use Rattle.ing_rows.specs.Cursors.{cursor_view};
ghost use Rattle.ing_commands.specs.QueryCommands.{after_at, behind_of, checked, cursor_in, end_of, limit_at, limit_in, order_of, query_of, raw_query};
ghost use Rattle.ing_commands.specs.Views.{cursor_texts, query_texts, query_view};

use crate::fault::LineFault;
use crate::shape::{flag_at, number_at, text_at, text_or};
use ing_rows::{Cursor, Order, Stamp, Tenant};
use serde_json::Value;
use std::alloc::Global;

/// The first number of nanoseconds that is no stamp.
const STAMP_END: u64 = 0x8000_0000_0000_0000;

/// How many entries are given where the query says nothing of it.
const DEFAULT_LIMIT: usize = 100;

/// How many entries may be asked for.
const MAX_LIMIT: u64 = 5000;

/// A question for entries (Loki documentation: HTTP API, query range).
#[derive(Debug, Drop)]
pub struct Query<'a> {
    /// Whose streams are asked for.
    pub tenant: Tenant,
    /// The text of the selector.
    pub text: &'a str,
    /// The least stamp that is wanted, in nanoseconds.
    pub start: u64,
    /// What each stamp that is wanted is below, in nanoseconds.
    pub end: u64,
    /// How many entries are wanted at most.
    pub limit: usize,
    /// Which of them come first.
    pub order: Order,
    /// What they stand behind in that order, where a page goes on.
    pub after: Option<Cursor<'a>>,
    /// Whether the reply is to tell where the next page begins.
    pub pages: bool,
}

/// The texts of a cursor, and its number.
#[derive(Clone, Copy, Debug)]
pub struct CursorTexts<'a> {
    stamp: &'a str,
    stream: &'a str,
    number: u64,
}

/// The texts of a query, and its numbers.
#[derive(Clone, Copy, Debug)]
pub struct QueryTexts<'a> {
    tenant: &'a str,
    text: &'a str,
    start: &'a str,
    end: &'a str,
    limit: usize,
    order: Order,
    after: Option<CursorTexts<'a>>,
    pages: bool,
}

/// The query that a value with its command says. The faults in their order: `BadCommand` where `tenant` or `query` is missing,
/// a member is no text or `limit` no integer from 1 to 5000, or `direction` neither `forward` nor `backward`, or `after` no object with
/// the texts `stamp` and `stream` and an integer `number` from 0 to 2^64-1, or `pages` neither true nor false; `BadTenant` where the tenant is no tenant id; `BadStamp`
/// where `start` is no stamp, or `end` neither one nor 2^63, or the stamp of `after` none. All but the first two members may be absent:
/// all stamps are wanted then, and the newest 100 entries, and no next page is told. Other members are ignored. (Loki documentation: HTTP
/// API, query range; the command's form is own.)
pub fn query_of(alloc: Global, value: &Value) -> Result<Query<'_>, LineFault>
    ensures { Gives LineFault.NoMemory query_view result (query_of (view value.now)) }
{
    let texts = texts_of(value)?;
    checked(alloc, texts)
}

/// The texts and numbers of a query.
#[tactic(auto, unfolding(crate::specs::QueryCommands::raw_query))]
fn texts_of(value: &Value) -> Result<QueryTexts<'_>, LineFault>
    ensures { Returns query_texts result (raw_query (view value.now)) }
{
    let tenant = text_at(value, "tenant")?;
    let text = text_at(value, "query")?;
    let start = text_or(value, "start", "0")?;
    let end = text_or(value, "end", "9223372036854775808")?;
    let limit = limit_at(value)?;
    let order = order_of(text_or(value, "direction", "backward")?)?;
    let after = after_at(value)?;
    let pages = flag_at(value, "pages", false)?;
    Ok(QueryTexts {
        tenant,
        text,
        start,
        end,
        limit,
        order,
        after,
        pages,
    })
}

/// The cursor that a value has, an entry as a reply has it, where there is one.
fn after_at(value: &Value) -> Result<Option<CursorTexts<'_>>, LineFault>
    ensures { Returns (option_map cursor_texts) result (after_at (view value.now)) }
{
    match value.get("after") {
        Some(cursor) => Ok(Some(cursor_in(cursor)?)),
        None => Ok(None),
    }
}

/// The texts and the number of a cursor.
#[tactic(auto, unfolding(crate::specs::QueryCommands::cursor_in))]
fn cursor_in(value: &Value) -> Result<CursorTexts<'_>, LineFault>
    ensures { Returns cursor_texts result (cursor_in (view value.now)) }
{
    let stamp = text_at(value, "stamp")?;
    let stream = text_at(value, "stream")?;
    let number = number_at(value, "number")?;
    Ok(CursorTexts {
        stamp,
        stream,
        number,
    })
}

/// The query that the texts say, or their first fault.
#[tactic(auto, unfolding(crate::specs::QueryCommands::checked))]
fn checked(alloc: Global, texts: QueryTexts<'_>) -> Result<Query<'_>, LineFault>
    ensures { Gives LineFault.NoMemory query_view result (checked (query_texts texts.entry)) }
{
    let tenant = Tenant::of_text(alloc, texts.tenant)?;
    let start = Stamp::of_text(texts.start)?;
    let end = end_of(texts.end)?;
    let after = behind_of(texts.after)?;
    Ok(Query {
        tenant,
        text: texts.text,
        start: start.nanoseconds(),
        end,
        limit: texts.limit,
        order: texts.order,
        after,
        pages: texts.pages,
    })
}

/// The cursor that the texts say, where there is one.
fn behind_of(texts: Option<CursorTexts<'_>>) -> Result<Option<Cursor<'_>>, LineFault>
    ensures { Returns (option_map cursor_view) result
        (behind_of (option_map cursor_texts texts.entry)) }
{
    let Some(cursor) = texts else {
        return Ok(None);
    };
    let stamp = Stamp::of_text(cursor.stamp)?;
    Ok(Some(Cursor {
        stamp: stamp.nanoseconds(),
        stream: cursor.stream,
        number: cursor.number,
    }))
}

/// What all stamps that are wanted are below.
fn end_of(text: &str) -> Result<u64, LineFault>
    ensures { Returns (λ end. end) result (end_of text.now) }
{
    match text {
        "9223372036854775808" => Ok(STAMP_END),
        _ => Ok(Stamp::of_text(text)?.nanoseconds()),
    }
}

/// How many entries a value asks for.
fn limit_at(value: &Value) -> Result<usize, LineFault>
    ensures { Returns (λ limit. limit) result (limit_at (view value.now)) }
{
    match value.get("limit") {
        Some(limit) => limit_in(limit.as_u64().ok_or(LineFault::BadCommand)?),
        None => Ok(DEFAULT_LIMIT),
    }
}

/// A number of entries that may be asked for.
fn limit_in(number: u64) -> Result<usize, LineFault>
    ensures { Returns (λ limit. limit) result (limit_in number) }
{
    if number > 0 && number <= MAX_LIMIT {
        Ok(number as usize)
    } else {
        Err(LineFault::BadCommand)
    }
}

/// The order of a direction.
fn order_of(text: &str) -> Result<Order, LineFault>
    ensures { Returns (λ order. order) result (order_of text.now) }
{
    match text {
        "forward" => Ok(Order::Forward),
        "backward" => Ok(Order::Backward),
        _ => Err(LineFault::BadCommand),
    }
}
