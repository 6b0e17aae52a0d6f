//! Laws and worked values of the definitions, as contracts of functions that do nothing.
ghost use Rattle.ing_limits.specs.DurationTexts.{DurationsAreExact};
ghost use Rattle.ing_limits.specs.First.{LeastIsFirst};
ghost use Rattle.ing_limits.specs.Rows.{WorkedDurations, WorkedRefusals};

/// Eight durations, and texts that are none.
pub fn worked_durations()
    ensures { WorkedDurations }
{}

/// An empty text, and seven that are refused, with the name that is given.
pub fn worked_refusals()
    ensures { WorkedRefusals }
{}

/// Of the names that are refused, the one that is given is the first in byte order.
pub fn least_name_is_first()
    ensures { LeastIsFirst }
{}

/// A text is a duration exactly where it is the text of parts, and its nanoseconds are theirs together.
pub fn durations_are_sums_of_parts()
    ensures { DurationsAreExact }
{}
