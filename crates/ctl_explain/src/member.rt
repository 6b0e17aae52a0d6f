//! The member of a command that is at fault.

use std::fmt;

/// A member of the object that a line is (own).
#[derive(Clone, Copy, Debug, PartialEq, Eq)]
pub enum Field {
    /// Which command it is.
    Cmd,
    /// Whose streams.
    Tenant,
    /// The time of the command.
    Now,
    /// The streams of a push.
    Streams,
    /// The selector of a query.
    Query,
    /// The least stamp that a query asks for.
    Start,
    /// What each stamp that a query asks for is below.
    End,
    /// The most entries that a query asks for.
    Limit,
    /// The order of a query.
    Direction,
    /// What the entries that a query asks for stand behind, which may be absent.
    After,
    /// Whether a query asks for pages.
    Pages,
    /// Whether a flush is forced.
    Forced,
    /// The selector of a question for a catalog, which may be absent.
    Selector,
    /// The label whose values a catalog has, which may be absent.
    Name,
}

/// A part of a stream of a push (own).
#[derive(Clone, Copy, Debug, PartialEq, Eq)]
pub enum Part {
    /// The object of its labels.
    Labels,
    /// The value of a label, counted from 0 in byte order of the names.
    Label(usize),
    /// The list of its values.
    Values,
    /// A value, counted from 0.
    Value(usize),
}

/// A member of a command (own).
#[derive(Clone, Copy, Debug, PartialEq, Eq)]
pub enum Member {
    /// One of the line's object.
    Own(Field),
    /// One of a stream of a push, which is counted from 0.
    OfStream(usize, Part),
}

impl Field {
    ghost use Rattle.std.specs.Prelude.{◌≡◌};
    ghost use Rattle.ctl_explain.specs.Members.{field_name};

    /// Its name, as it stands in a line. Takes no memory.
    pub fn name(self) -> &'static str
        ensures { result.now ≡ field_name self }
    {
        match self {
            Field::Cmd => "cmd",
            Field::Tenant => "tenant",
            Field::Now => "now",
            Field::Streams => "streams",
            Field::Query => "query",
            Field::Start => "start",
            Field::End => "end",
            Field::Limit => "limit",
            Field::Direction => "direction",
            Field::After => "after",
            Field::Pages => "pages",
            Field::Forced => "forced",
            Field::Selector => "query",
            Field::Name => "name",
        }
    }
}

/// As `tenant`, `stream of stream 2` or `value 7 of stream 2`.
impl fmt::Display for Member {
    fn fmt<W: fmt::Write>(&self, f: &mut fmt::Formatter<W>) -> fmt::Result {
        match self {
            Member::Own(field) => f.write_str(field.name()),
            Member::OfStream(stream, Part::Labels) => write!(f, "`stream` of stream {stream}"),
            Member::OfStream(stream, Part::Label(label)) => {
                write!(f, "label {label} of stream {stream}")
            }
            Member::OfStream(stream, Part::Values) => write!(f, "`values` of stream {stream}"),
            Member::OfStream(stream, Part::Value(value)) => {
                write!(f, "value {value} of stream {stream}")
            }
        }
    }
}
