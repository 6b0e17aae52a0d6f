//! The name that is meant by another.
use std::alloc::{AllocError, Global};
use strsim::damerau_levenshtein;

/// How many edits a name may lie away from the one that is meant.
const MOST_EDITS: usize = 2;

/// The first of the names that lie nearest to this one, if any lies near: letters left out, added, replaced or
/// turned round. It fails only where memory runs out.
pub(crate) fn nearest<'a>(
    alloc: Global,
    name: &str,
    all: &[&'a str],
) -> Result<Option<&'a str>, AllocError> {
    let mut found = None;
    let mut least = MOST_EDITS.saturating_add(1);
    for other in all {
        let edits = damerau_levenshtein(alloc, name, other)?;
        if edits < least {
            least = edits;
            found = Some(*other);
        }
    }
    Ok(found)
}
