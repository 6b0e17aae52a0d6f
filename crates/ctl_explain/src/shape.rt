//! What is tested of each member of a command by itself. It takes no memory.
ghost use Rattle.std.specs.Prelude.{◌≡◌, Bool};
ghost use Rattle.serde_json.specs.View.{view, items_view};
ghost use Rattle.ctl_explain.specs.Members as members;

use crate::member::Field;
use ing_commands::LineFault;
use ing_commands::shape::{array_at, number_at, text_at, text_of, text_or};
use ing_rows::{Stamp, is_tenant_id};
use serde_json::Value;

/// The most entries that may be asked for.
const MAX_LIMIT: u64 = 5000;

/// The member `after`.
fn test_after(value: &Value) -> Result<(), LineFault>
    ensures { result ≡ members.field_test Field.After (view value.now) }
{
    match value.get("after") {
        Some(cursor) => test_cursor(cursor),
        None => Ok(()),
    }
}

/// A cursor: its members, and then its stamp.
#[tactic(auto, unfolding(ing_commands::specs::QueryCommands::cursor_in))]
fn test_cursor(value: &Value) -> Result<(), LineFault>
    ensures { result ≡ members.test_cursor (view value.now) }
{
    let stamp = text_at(value, "stamp")?;
    let _ = text_at(value, "stream")?;
    let _ = number_at(value, "number")?;
    test_stamp(stamp)
}

/// The member of a name, which is true or false where it is there.
fn test_flag(value: &Value, name: &str) -> Result<(), LineFault>
    ensures { (absent : Bool) →
        result ≡ members.test_flag name.now absent (view value.now) }
{
    match value.get(name) {
        Some(flag) => match flag.as_bool() {
            Some(_) => Ok(()),
            None => Err(LineFault::BadCommand),
        },
        None => Ok(()),
    }
}

/// The member of a name, which is a text where it is there.
fn test_text(value: &Value, name: &str) -> Result<(), LineFault>
    ensures { result ≡ members.test_text name.now (view value.now) }
{
    match value.get(name) {
        Some(text) => text_of(text).map(|_| ()),
        None => Ok(()),
    }
}

/// The member `limit`.
fn test_limit(value: &Value) -> Result<(), LineFault>
    ensures { result ≡ members.field_test Field.Limit (view value.now) }
{
    match value.get("limit") {
        Some(limit) => match limit.as_u64() {
            Some(number) if number > 0 && number <= MAX_LIMIT => Ok(()),
            _ => Err(LineFault::BadCommand),
        },
        None => Ok(()),
    }
}

/// One of the nine commands.
fn test_cmd(text: &str) -> Result<(), LineFault>
    ensures { result ≡ members.test_cmd text.now }
{
    match text {
        "push"
        | "sweep"
        | "flush"
        | "gauges"
        | "board"
        | "checkpoint"
        | "query"
        | "series"
        | "labels" => Ok(()),
        _ => Err(LineFault::BadCommand),
    }
}

/// A tenant id.
fn test_tenant(text: &str) -> Result<(), LineFault>
    ensures { result ≡ members.test_tenant text.now }
{
    if is_tenant_id(text) {
        Ok(())
    } else {
        Err(LineFault::BadTenant)
    }
}

/// A stamp.
fn test_stamp(text: &str) -> Result<(), LineFault>
    ensures { result ≡ members.test_stamp text.now }
{
    match Stamp::of_text(text) {
        Ok(_) => Ok(()),
        Err(_) => Err(LineFault::BadStamp),
    }
}

/// A stamp, or the first number that is none.
fn test_end(text: &str) -> Result<(), LineFault>
    ensures { result ≡ members.test_end text.now }
{
    match text {
        "9223372036854775808" => Ok(()),
        _ => test_stamp(text),
    }
}

/// One of the two directions.
fn test_direction(text: &str) -> Result<(), LineFault>
    ensures { result ≡ members.test_direction text.now }
{
    match text {
        "forward" | "backward" => Ok(()),
        _ => Err(LineFault::BadCommand),
    }
}

/// What is tested of a member of the line's object by itself.
pub(crate) fn field_test(field: Field, value: &Value) -> Result<(), LineFault>
    ensures { result ≡ members.field_test field (view value.now) }
{
    match field {
        Field::Cmd => test_cmd(text_at(value, "cmd")?),
        Field::Tenant => test_tenant(text_at(value, "tenant")?),
        Field::Now => test_stamp(text_at(value, "now")?),
        Field::Streams => array_at(value, "streams").map(|_| ()),
        Field::Query => text_at(value, "query").map(|_| ()),
        Field::Start => test_stamp(text_or(value, "start", "0")?),
        Field::End => test_end(text_or(value, "end", "9223372036854775808")?),
        Field::Limit => test_limit(value),
        Field::Direction => test_direction(text_or(value, "direction", "backward")?),
        Field::After => test_after(value),
        Field::Pages => test_flag(value, "pages"),
        Field::Forced => test_flag(value, "forced"),
        Field::Selector => test_text(value, "query"),
        Field::Name => test_text(value, "name"),
    }
}

/// What is tested of the value of a label by itself: a text.
pub(crate) fn label_test(value: &Value) -> Result<(), LineFault>
    ensures { result ≡ members.label_test (view value.now) }
{
    text_of(value).map(|_| ())
}

/// What is tested of a value of a push by itself: two texts, or three elements of which these are two; no
/// third one; and the stamp.
pub(crate) fn value_test(value: &Value) -> Result<(), LineFault>
    ensures { result ≡ members.value_test (view value.now) }
{
    let list = value.as_array().ok_or(LineFault::BadCommand)?;
    elements_test(list.as_slice())
}

/// The same of the elements of a value.
fn elements_test(list: &[Value]) -> Result<(), LineFault>
    ensures { result ≡ members.elements_test (items_view list.now) }
{
    match list {
        [stamp, line] => texts_test(stamp, line, false),
        [stamp, line, _] => texts_test(stamp, line, true),
        _ => Err(LineFault::BadCommand),
    }
}

/// The same of the two texts of a value.
fn texts_test(stamp: &Value, line: &Value, has_metadata: bool) -> Result<(), LineFault>
    ensures { result ≡ members.texts_test (view stamp.now) (view line.now) has_metadata }
{
    let stamp = text_of(stamp)?;
    let _ = text_of(line)?;
    if has_metadata {
        return Err(LineFault::Metadata);
    }
    test_stamp(stamp)
}
