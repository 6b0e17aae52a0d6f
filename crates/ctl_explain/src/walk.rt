//! Looking for the member that is at fault: the first one in the order of the tests. It takes no memory.
ghost use Rattle.std.specs.Prelude.{◌≡◌, Err};
ghost use Rattle.std.specs.List.{position_from};
ghost use Rattle.serde_json.specs.View.{view, items_view};
ghost use Rattle.ing_commands.specs.Commands.{said_by};
ghost use Rattle.ctl_explain.specs.Members.{IsAtFault};
ghost use Rattle.ctl_explain.specs.Walks as walks;

use crate::member::{Field, Member, Part};
use crate::shape::{field_test, label_test, value_test};
use ing_commands::LineFault;
use ing_commands::shape::{array_at, object_at, text_at};
use serde_json::{Map, Value};

/// Whether a test ended with this fault.
fn is_fault(fault: LineFault, test: Result<(), LineFault>) -> bool
    ensures { result ≡ walks.is_fault fault test }
{
    match test {
        Ok(()) => false,
        Err(found) => found.refusal().number() == fault.refusal().number(),
    }
}

/// The first of these fields that has the fault.
fn first_field(fault: LineFault, fields: &[Field], value: &Value) -> Option<Member>
    ensures { result ≡ walks.first_field fault fields.now (view value.now) }
{
    for field in fields {
        if is_fault(fault, field_test(*field, value)) {
            return Some(Member::Own(*field));
        }
    }
    None
}

/// The first value of a list that has the fault.
fn first_value(fault: LineFault, list: &[Value]) -> Option<usize>
    ensures { result ≡ position_from (λ v. walks.value_has fault (view v)) 0 list.now }
{
    list.iter()
        .position(|value| is_fault(fault, value_test(value)))
}

/// The first label whose value has the fault.
fn first_label(fault: LineFault, map: &Map<String, Value>) -> Option<usize>
    ensures { result ≡ position_from (λ e. walks.label_has fault (view e.1)) 0 map.now.entries }
{
    map.iter()
        .position(|(_, value)| is_fault(fault, label_test(value)))
}

/// The first label of a stream whose value has the fault.
fn label_found(fault: LineFault, stream: &Value) -> Option<Part>
    ensures { result ≡ walks.label_found fault (view stream.now) }
{
    match object_at(stream, "stream") {
        Ok(map) => first_label(fault, map).map(Part::Label),
        Err(_) => None,
    }
}

/// The first value of a stream that has the fault.
fn value_found(fault: LineFault, stream: &Value) -> Option<Part>
    ensures { result ≡ walks.value_found fault (view stream.now) }
{
    match array_at(stream, "values") {
        Ok(list) => first_value(fault, list).map(Part::Value),
        Err(_) => None,
    }
}

/// The first part of a stream that has the fault.
fn first_part(fault: LineFault, stream: &Value) -> Option<Part>
    ensures { result ≡ walks.first_part fault (view stream.now) }
{
    if is_fault(fault, object_at(stream, "stream").map(|_| ())) {
        return Some(Part::Labels);
    }
    if let Some(part) = label_found(fault, stream) {
        return Some(part);
    }
    if is_fault(fault, array_at(stream, "values").map(|_| ())) {
        return Some(Part::Values);
    }
    value_found(fault, stream)
}

/// The first part of a list of streams that has the fault.
fn first_of_streams(fault: LineFault, list: &[Value]) -> Option<Member>
    ensures { result ≡ walks.first_of_streams fault 0 (items_view list.now) }
{
    for (at, stream) in list.iter().enumerate() {
        if let Some(part) = first_part(fault, stream) {
            return Some(Member::OfStream(at, part));
        }
    }
    None
}

/// The members of the line's object that a command has.
pub(crate) fn fields_of(cmd: &str) -> &'static [Field]
    ensures { result.now ≡ walks.fields_of cmd.now }
{
    match cmd {
        "push" => &[Field::Tenant, Field::Now, Field::Streams],
        "sweep" => &[Field::Now],
        "flush" => &[Field::Forced],
        "gauges" => &[Field::Tenant],
        "board" | "checkpoint" => &[],
        "query" => &[
            Field::Tenant,
            Field::Query,
            Field::Start,
            Field::End,
            Field::Limit,
            Field::Direction,
            Field::After,
            Field::Pages,
        ],
        "series" => &[Field::Tenant, Field::Selector],
        "labels" => &[Field::Tenant, Field::Selector, Field::Name],
        _ => &[Field::Cmd],
    }
}

/// The first part of the streams of a push that has the fault.
fn rest_of(fault: LineFault, cmd: &str, value: &Value) -> Option<Member>
    ensures { result ≡ walks.rest_of fault cmd.now (view value.now) }
{
    if cmd != "push" {
        return None;
    }
    match array_at(value, "streams") {
        Ok(list) => first_of_streams(fault, list),
        Err(_) => None,
    }
}

/// The first member of a command that by itself has the fault.
#[tactic(auto, unfolding(crate::specs::Walks::first_member))]
fn first_member(fault: LineFault, value: &Value) -> Option<Member>
    ensures { result ≡ walks.first_member fault (view value.now) }
{
    match text_at(value, "cmd") {
        Ok(cmd) => {
            if let Some(member) = first_field(fault, fields_of(cmd), value) {
                return Some(member);
            }
            rest_of(fault, cmd, value)
        }
        Err(_) => first_field(fault, &[Field::Cmd], value),
    }
}

/// The first member of a command that by itself has the fault with which the command is refused.
pub(crate) fn member_at_fault(fault: LineFault, value: &Value) -> Member
    requires { said_by (view value.now) ≡ Err fault }
    ensures { IsAtFault (view value.now) fault result }
{
    match first_member(fault, value) {
        Some(member) => member,
        None => unreachable!("a command is refused by one of its members"),
    }
}
