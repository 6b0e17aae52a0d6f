//! Why a stream of a push is refused.
ghost use Rattle.std.specs.Prelude.{◌≡◌, IfOk, map, length, nat_lt, if◌then◌else◌};
ghost use Rattle.ing_limits.specs.Ranges.{rules_for};
ghost use Rattle.ing_commands.specs.Views.{push_view, stream_view};
ghost use Rattle.ctl_explain.specs.Streams.{limits_of, stream_fault_of, stream_refusal_of};
ghost use Rattle.ctl_explain.specs.Streams.{stream_fault_place};

use ing_commands::{Push, StreamPush};
use ing_labels::{LabelFault, LabelLimits, Labels};
use ing_limits::Settings;
use ing_refusals::Refusal;
use ing_rows::Rules;
use std::alloc::{AllocError, Global};
use std::fmt;

/// Why a stream of a push is refused, whatever is held (own).
#[derive(Clone, Copy, Debug, PartialEq, Eq)]
pub enum StreamFault {
    /// Its labels are not those of a stream.
    Labels(LabelFault),
    /// It has more entries than one push of a stream may have.
    TooManyEntries,
}

impl StreamFault {
    /// Which refusal it is. Takes no memory.
    pub fn refusal(&self) -> Refusal
        ensures { result ≡ stream_refusal_of self.now }
    {
        match self {
            StreamFault::Labels(fault) => fault.refusal(),
            StreamFault::TooManyEntries => Refusal::TooManyEntries,
        }
    }

    /// The label at fault, counted from 0 in byte order of the names, of those faults that speak of one,
    /// and else `None`.
    pub fn at(&self) -> Option<usize>
        ensures { result ≡ stream_fault_place self.now }
    {
        match self {
            StreamFault::Labels(fault) => fault.at(),
            StreamFault::TooManyEntries => None,
        }
    }
}

/// As `1 BadName, label 2` or `32 TooManyEntries`.
impl fmt::Display for StreamFault {
    fn fmt<W: fmt::Write>(&self, f: &mut fmt::Formatter<W>) -> fmt::Result {
        let number = self.refusal().number();
        let name = self.refusal().name();
        write!(f, "{number} {name}")?;
        match self.at() {
            Some(at) => write!(f, ", label {at}"),
            None => Ok(()),
        }
    }
}

/// The limits on labels among a tenant's rules.
fn label_limits(rules: &Rules) -> LabelLimits
    ensures { result ≡ limits_of rules.now }
{
    LabelLimits {
        names: rules.max_label_names as usize,
        name_bytes: rules.max_label_name_length as usize,
        value_bytes: rules.max_label_value_length as usize,
    }
}

/// Why one stream is refused, by its tenant's rules.
fn stream_fault(
    alloc: Global,
    rules: &Rules,
    stream: &StreamPush<'_>,
) -> Result<Option<StreamFault>, AllocError>
    ensures { IfOk result (λ fault. fault ≡ stream_fault_of rules.now (stream_view stream.now)) }
{
    match Labels::of_pairs(alloc, &stream.labels, &label_limits(rules)) {
        Ok(_) => Ok(entries_fault(rules, stream)),
        Err(LabelFault::NoMemory) => Err(AllocError),
        Err(fault) => Ok(Some(StreamFault::Labels(fault))),
    }
}

/// Why a stream with good labels is refused.
fn entries_fault(rules: &Rules, stream: &StreamPush<'_>) -> Option<StreamFault>
    ensures { let said = stream_view stream.now in
        result ≡ (if nat_lt rules.now.max_entries_per_push (length said.entries)
        then Some StreamFault.TooManyEntries else None) }
{
    if stream.entries.len() as u64 > rules.max_entries_per_push {
        Some(StreamFault::TooManyEntries)
    } else {
        None
    }
}

/// Why each stream of a push is refused, in the order of the push; `None` for one that is not. It fails
/// only where memory runs out.
pub(crate) fn push_faults(
    alloc: Global,
    settings: &Settings,
    push: &Push<'_>,
) -> Result<Vec<Option<StreamFault>>, AllocError>
    ensures { let said = push_view push.entry.now in
        let rules = rules_for settings.now said.tenant in
        IfOk result (λ faults. faults.items ≡ map (stream_fault_of rules) said.streams) }
{
    let rules = settings.for_tenant(&push.tenant);
    let mut faults = Vec::with_capacity(alloc, push.streams.len())?;
    for stream in &push.streams {
        faults.push(stream_fault(alloc, rules, stream)?)?;
    }
    Ok(faults)
}
