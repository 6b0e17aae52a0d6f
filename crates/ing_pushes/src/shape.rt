//! Parts of one shape in a JSON value whose texts are borrowed. They take no memory.
ghost use Rattle.std.specs.Prelude.{◌≡◌, IfSome};
ghost use Rattle.json.specs.Json as json;
ghost use Rattle.json.specs.Value.{value_view, items_view, members_view};

use json::Value;

/// A member of an object: its name and its value.
pub(crate) type Member<'a> = (&'a str, Value<'a>);

/// The text that a value is.
pub(crate) fn text_in<'a>(value: &Value<'a>) -> Option<&'a str>
    ensures { IfSome result (λ text. value_view value.now ≡ json.string text.now) }
{
    match value {
        Value::String(text) => Some(*text),
        _ => None,
    }
}

/// The elements of the array that a value is.
pub(crate) fn items_in<'v, 'a>(value: &'v Value<'a>) -> Option<&'v [Value<'a>]>
    ensures { IfSome result (λ items. value_view value.now ≡ json.array (items_view items.now)) }
{
    match value {
        Value::Array(items) => Some(items.as_slice()),
        _ => None,
    }
}

/// The members of the object that a value is.
pub(crate) fn members_in<'v, 'a>(value: &'v Value<'a>) -> Option<&'v [Member<'a>]>
    ensures { IfSome result (λ members.
        value_view value.now ≡ json.object (members_view members.now)) }
{
    match value {
        Value::Object(members) => Some(members.as_slice()),
        _ => None,
    }
}

/// Two texts.
#[derive(Clone, Copy)]
pub(crate) struct Texts<'a> {
    pub first: &'a str,
    pub second: &'a str,
}

/// The texts that an array of two has.
pub(crate) fn texts_in<'a>(value: &Value<'a>) -> Option<Texts<'a>>
    ensures { IfSome result (λ texts. value_view value.now ≡ json.array (json.item (json.string texts.first.now)
        (json.item (json.string texts.second.now) json.no_items))) }
{
    let Value::Array(items) = value else {
        return None;
    };
    let [first, second] = items.as_slice() else {
        return None;
    };
    Some(Texts {
        first: text_in(first)?,
        second: text_in(second)?,
    })
}
