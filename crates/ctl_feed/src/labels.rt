//! The labels of the stream that lines go to.
ghost use Rattle.std.specs.Prelude.{◌≡◌, Ok, OnOk, is_ok, true};
ghost use Rattle.std.specs.BTreeMap.{insert_entry};
ghost use Rattle.std.specs.Cmp.Lexicographic.{slice_cmp};
ghost use Rattle.std.specs.Option.{ok_or};
ghost use Rattle.std.specs.Ordering.{nat_cmp};
ghost use Rattle.serde_json.specs.View.{members_view};
ghost use Rattle.ing_refusals.specs.Results.{Gives, Returns};
ghost use Rattle.ctl_feed.specs.Labels.{label_of, members_labels, with_argument};
ghost use Rattle.ing_commands.specs.PushCommands.{raw_labels};

use ing_labels::TextFault;
use serde_json::{Map, Value, put};
use std::alloc::{AllocError, Global};
use std::marker::Model;

/// Why labels are refused. Arguments are counted from 0.
#[derive(Clone, Copy, Debug, PartialEq, Eq)]
pub enum LabelFault {
    /// Memory ran out.
    NoMemory,
    /// The argument at this index has no equals sign.
    NoEquals(usize),
    /// The argument at this index has the name of an earlier one.
    TwiceNamed(usize),
}

impl From<AllocError> for LabelFault {
    ghost use Rattle.std.specs.Prelude.{◌≡◌};
    ghost use Rattle.ctl_feed.specs.declared.labels.LabelFault.TheVariants.{NoMemory};

    ghost from_gives = { λ _ fault. fault ≡ NoMemory };

    fn from(_error: AllocError) -> LabelFault {
        LabelFault::NoMemory
    }
}

/// Labels of a stream: names with their values, in byte order of the names, none of them twice.
#[derive(Drop)]
pub struct Labels {
    object: Value,
}

impl Model for Labels {
    ghost use Rattle.std.specs.Prelude.{◌≡◌, List, ℕ, is_ok, true};
    ghost use Rattle.serde_json.specs.View.{view as value_data};
    ghost use Rattle.ctl_feed.specs.Labels.{labels_in, labels_read};

    ghost Value = { List (List ℕ × List ℕ) };

    ghost view = { λ labels. labels_in (value_data labels.object) };

    ghost invariant = { λ labels. is_ok (labels_read (value_data labels.object)) ≡ true };
}

impl Labels {
    ghost use Rattle.std.specs.Prelude.{◌≡◌, IfErr, IfOk, map};
    ghost use Rattle.serde_json.specs.View.{view};
    ghost use Rattle.ing_labels.specs.CanonicalTexts.{IsCanonicalFault};
    ghost use Rattle.ing_refusals.specs.Results.{Gives};
    ghost use Rattle.ctl_feed.specs.Labels.{IsNamed, labels_data, labels_of};

    /// The labels of arguments such as `job=app`, each with the name before its first equals sign and the
    /// value after it. The first fault: `NoEquals` where an argument has no such sign, `TwiceNamed` where its
    /// name came before. Whether names and values are good is left to `ingestd`, whose settings say how long
    /// they may be. (Own.)
    pub fn of_arguments(alloc: Global, arguments: &[&str]) -> Result<Labels, LabelFault>
        ensures { Gives LabelFault.NoMemory (λ labels. labels) result
            (labels_of (map (λ argument. argument.now) arguments.now)) }
    {
        let mut members = Map::new(alloc);
        for (at, argument) in arguments.iter().enumerate() {
            add(alloc, &mut members, at, argument)?;
        }
        Ok(Labels {
            object: Value::Object(members),
        })
    }

    /// The labels of a stream of this canonical name. `NotCanonical` exactly where no labels have
    /// it, `NoMemory` where memory runs out. (Loki documentation: labels; the name is own.)
    pub fn of_canonical(alloc: Global, name: &str) -> Result<Labels, TextFault>
        ensures named { IfOk result (IsNamed name.now) }
        ensures fault { IfErr result (IsCanonicalFault name.now) }
    {
        let labels = ing_labels::Labels::parse_canonical(alloc, name)?;
        let mut members = Map::new(alloc);
        for (name, value) in labels.pairs() {
            put_label(alloc, &mut members, name, value)?;
        }
        Ok(Labels {
            object: Value::Object(members),
        })
    }

    /// The object of them, as a push has it.
    pub(crate) fn object(&self) -> &Value
        ensures { view result.now ≡ labels_data self.now }
    {
        &self.object
    }
}

/// Adds the label of the argument at an index to those that are there.
fn add(
    alloc: Global,
    members: &mut Map<String, Value>,
    at: usize,
    argument: &str,
) -> Result<(), LabelFault>
    requires { is_ok (raw_labels (members_view members.old.entries)) ≡ true }
    ensures labels { Gives LabelFault.NoMemory (λ _. members_labels (members_view members.new.entries))
        result (with_argument at (members_labels (members_view members.old.entries)) argument.now) }
    ensures texts { OnOk result (is_ok (raw_labels (members_view members.new.entries)) ≡ true) }
{
    let (name, value) = label_of(at, argument)?;
    if members.contains_key(name) {
        return Err(LabelFault::TwiceNamed(at));
    }
    put_label(alloc, members, name, value)?;
    Ok(())
}

/// Puts a label among those that are there, in the place of one of its name.
fn put_label(
    alloc: Global,
    members: &mut Map<String, Value>,
    name: &str,
    value: &str,
) -> Result<(), AllocError>
    requires { is_ok (raw_labels (members_view members.old.entries)) ≡ true }
    ensures { let before = members_labels (members_view members.old.entries) in
        OnOk result (raw_labels (members_view members.new.entries)
        ≡ Ok (insert_entry (slice_cmp nat_cmp) before name.now value.now)) }
{
    put(members, alloc, name, Value::try_from_str(alloc, value)?)?;
    Ok(())
}

/// The name and the value of the argument at an index. Takes no memory.
fn label_of(at: usize, argument: &str) -> Result<(&str, &str), LabelFault>
    ensures { Returns (λ label. (label.0.now, label.1.now)) result
        (ok_or (label_of argument.now) (LabelFault.NoEquals at)) }
{
    argument.split_once('=').ok_or(LabelFault::NoEquals(at))
}
