//! The labels of a stream, put into order.
ghost use Rattle.std.specs.Prelude.{◌≡◌, ◌≤◌, IfOk, IfSome, length, map};
ghost use Rattle.json.specs.Value.{members_view};
ghost use Rattle.ing_commands.specs.Views.{label_view};
ghost use Rattle.ing_pushes.specs.Usual.{AreLabels, GoesAt, Rise};

use crate::shape::{Member, text_in};
use std::alloc::{AllocError, Global};
use std::cmp::Ordering;

/// With how many labels before it, at most, a label is compared: so many steps each is what labels out of order cost.
const REACH: usize = 64;

/// The labels that members are, in byte order of their names, where all are texts, no name stands twice, and each
/// has its place among the last `REACH` of those before it.
pub(crate) fn labels_in<'a>(
    alloc: Global,
    members: &[Member<'a>],
) -> Result<Option<Vec<(&'a str, &'a str)>>, AllocError>
    ensures { IfOk result (λ found. IfSome found (λ labels.
        AreLabels (members_view members.now) (map label_view labels.items))) }
{
    let mut labels = Vec::with_capacity(alloc, members.len())?;
    for member in members {
        let Some(value) = text_in(&member.1) else {
            return Ok(None);
        };
        let Some(place) = place_of(member.0, &labels) else {
            return Ok(None);
        };
        labels.insert(place, (member.0, value))?;
    }
    Ok(Some(labels))
}

/// Where a name goes among labels whose names rise, if it is none of theirs and its place is among the last `REACH`.
fn place_of(name: &str, labels: &[(&str, &str)]) -> Option<usize>
    ensures within { IfSome result (λ place. place ≤ length labels.now) }
    ensures goes { Rise (map label_view labels.now)
        → IfSome result (λ place. GoesAt name.now (map label_view labels.now) place) }
{
    for above in 0..labels.len().min(REACH) {
        let place = labels.len() - above;
        match name.cmp(labels[place - 1].0) {
            Ordering::Greater => return Some(place),
            Ordering::Equal => return None,
            Ordering::Less => {}
        }
    }
    if labels.len() > REACH {
        return None;
    }
    Some(0)
}
