//! Selectors.
ghost use Rattle.std.specs.Prelude.{◌≡◌, IfOk, IfErr};
ghost use Rattle.std.specs.List.{list_all, list_any};
ghost use Rattle.ing_labels.specs.Selectors.{match_holds, asks_for_value};
ghost use Rattle.std.specs.String.{string_bytes};

use crate::label_set::Labels;
use crate::selector_reader::read_matchers;
use crate::text_fault::TextFault;
use std::alloc::Global;
use std::marker::Model;

/// What picks streams by their labels, as `{app="loki", env!="dev"}` (Loki documentation: log stream
/// selector). Contracts see the list of its matchers. Each has a label name, and one of them at least is
/// `=` with a value that is not empty.
#[derive(Debug, Drop)]
pub struct Selector {
    matchers: Vec<Matcher>,
}

impl Model for Selector {
    ghost use Rattle.std.specs.Prelude.{List};
    ghost use Rattle.ing_labels.specs.Selectors.{Match, IsSelector};

    ghost Value = { List Match };

    ghost view = { λ s. s.matchers.items };

    ghost invariant = { λ s. IsSelector s.matchers.items };
}

impl Selector {
    ghost use Rattle.ing_labels.specs.Selectors.{selects, IsSelector, IsSelectorText};
    ghost use Rattle.ing_labels.specs.TextFaults.{IsSelectorFault};

    /// The selector that a text spells: `{`, matchers apart by `,`, `}`. A matcher is a label name, `=`
    /// or `!=`, and a quoted value, also an empty one, in which a backslash, a quote and a line feed are
    /// written `\\`, `\"` and `\n`, and everything else stands for itself. Spaces, tabs, line feeds and
    /// carriage returns may stand between these, before and after.
    ///
    /// `BadSelector`: the text is none; `at` is the length of its longest front, in bytes, with which
    /// some selector text begins. `TooWide`: it is one, but has no `=` matcher with a value that is not
    /// empty. `NoMemory` may stand in place of any other answer. (Loki documentation: log stream
    /// selector; that there are no `=~` and `!~`, and the three escapes, are this crate's own profile.)
    pub fn parse(alloc: Global, text: &str) -> Result<Selector, TextFault>
        ensures selector { IfOk result (λ s. IsSelectorText s text.now) }
        ensures narrow { IfOk result IsSelector }
        ensures fault { IfErr result (IsSelectorFault text.now) }
    {
        let matchers = read_matchers(alloc, text)?;
        if !any_asks_for_value(&matchers) {
            return Err(TextFault::TooWide);
        }
        Ok(Selector { matchers })
    }

    /// The matchers, in the order of the text. A name may occur in several. Takes no memory.
    pub fn matchers(&self) -> &[Matcher]
        ensures matchers { result.now ≡ self.now }
        ensures narrow { IsSelector self.now }
    {
        &self.matchers
    }

    /// Whether each matcher holds of these labels.
    pub fn matches(&self, labels: &Labels) -> bool
        ensures { result ≡ selects self.now labels.now }
    {
        all_hold(&self.matchers, labels)
    }
}

/// Whether some matcher asks for one value that is not empty.
fn any_asks_for_value(matchers: &[Matcher]) -> bool
    ensures { result ≡ list_any asks_for_value matchers.now }
{
    matchers.iter().any(|m| m.asks_for_value())
}

/// Whether each matcher holds of these labels.
fn all_hold(matchers: &[Matcher], labels: &Labels) -> bool
    ensures { result ≡ list_all (match_holds labels.now) matchers.now }
{
    matchers.iter().all(|m| m.holds(labels))
}

/// What a matcher asks of the value of its label.
#[derive(Clone, Copy, Debug, PartialEq, Eq)]
pub enum MatchOp {
    /// `=`: the value is the matcher's.
    Equals,
    /// `!=`: the value is another.
    Differs,
}

/// A matcher of a selector, as `name="value"` or `name!="value"` (Loki documentation: log stream
/// selector). Contracts see the bytes of its name and value, and what it asks.
#[derive(Debug, Drop)]
pub struct Matcher {
    name: String,
    op: MatchOp,
    value: String,
}

impl Model for Matcher {
    ghost use Rattle.std.specs.String.{string_bytes};
    ghost use Rattle.ing_labels.specs.Selectors.{Match};

    ghost Value = { Match };

    ghost view = { λ m. record { name = string_bytes m.name; op = m.op; value = string_bytes m.value } };
}

impl Matcher {
    ghost use Rattle.ing_labels.specs.Selectors.{match_holds, asks_for_value};

    /// The matcher of a name, an operator and a value. Takes no memory.
    pub(crate) fn new(name: String, op: MatchOp, value: String) -> Matcher
        ensures { result ≡
            record { name = string_bytes name; op = op; value = string_bytes value } }
    {
        Matcher { name, op, value }
    }

    /// The name of the label. Takes no memory.
    pub fn name(&self) -> &str
        ensures { result.now ≡ self.now.name }
    {
        self.name.as_str()
    }

    /// What is asked of the label's value.
    pub fn op(&self) -> MatchOp
        ensures { result ≡ self.now.op }
    {
        self.op
    }

    /// The value that the label's is compared with. It may be empty, which is the value of an absent
    /// label. Takes no memory.
    pub fn value(&self) -> &str
        ensures { result.now ≡ self.now.value }
    {
        self.value.as_str()
    }

    /// Whether the matcher holds of these labels: `=` where the label's value is the matcher's, `!=`
    /// where it differs. An absent label has the empty value (Loki documentation: log stream selector).
    pub fn holds(&self, labels: &Labels) -> bool
        ensures { result ≡ match_holds labels.now self.now }
    {
        let is_same = labels.value(self.name.as_str()) == self.value.as_str();
        match self.op {
            MatchOp::Equals => is_same,
            MatchOp::Differs => !is_same,
        }
    }

    /// Whether the matcher asks for one value that is not empty.
    pub fn asks_for_value(&self) -> bool
        ensures { result ≡ asks_for_value self.now }
    {
        match self.op {
            MatchOp::Equals => !self.value.is_empty(),
            MatchOp::Differs => false,
        }
    }
}
