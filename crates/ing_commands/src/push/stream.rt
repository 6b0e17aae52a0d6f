//! A stream of a push whose values were looked at, and not read yet.
ghost use Rattle.std.specs.Prelude.{◌≡◌, IsTrue, is_ok};
ghost use Rattle.serde_json.specs.View.{items_view};
ghost use Rattle.ing_commands.specs.PushCommands.{raw_value};
ghost use Rattle.ing_commands.specs.PushTexts.{third_in, values_in};
ghost use Rattle.ing_commands.specs.Shapes.{each};

use serde_json::Value;

/// A stream: the texts of its labels, and its values where they stand in the JSON, each of which has its shape.
#[derive(Drop)]
pub(super) struct StreamTexts<'a> {
    /// Pairs of a label's name and value, in byte order of the names.
    pub labels: Vec<(&'a str, &'a str)>,
    /// The values, in the order of the line.
    pub values: &'a [Value],
    /// Whether one of them has a third element.
    pub has_metadata: bool,
    ghost shaped: { IsTrue (is_ok (each raw_value (items_view values.now))) },
    ghost third: { has_metadata ≡ third_in (values_in (items_view values.now)) },
}
