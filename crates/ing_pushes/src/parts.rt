//! The members of a push and of a stream, in whatever order they stand.
ghost use Rattle.std.specs.Prelude.{IfSome};
ghost use Rattle.json.specs.Value.{items_view, members_view};
ghost use Rattle.ing_pushes.specs.Usual.{HasParts, HasStream};

use crate::shape::{Member, items_in, members_in, text_in};
use json::Value;

/// What the members of a push are.
#[derive(Clone, Copy)]
pub(crate) struct PushParts<'v, 'a> {
    pub cmd: &'a str,
    pub tenant: &'a str,
    pub now: &'a str,
    pub streams: &'v [Value<'a>],
}

/// The parts of a push that has these members, where each is there once and no other is.
pub(crate) fn push_parts<'v, 'a>(members: &'v [Member<'a>]) -> Option<PushParts<'v, 'a>>
    ensures { IfSome result (λ parts. HasParts (members_view members.now)
        parts.cmd.now parts.tenant.now parts.now.now (items_view parts.streams.now)) }
{
    let (mut cmd, mut tenant, mut now, mut streams) = (None, None, None, None);
    for member in members {
        match member.0 {
            "cmd" if cmd.is_none() => cmd = Some(text_in(&member.1)?),
            "tenant" if tenant.is_none() => tenant = Some(text_in(&member.1)?),
            "now" if now.is_none() => now = Some(text_in(&member.1)?),
            "streams" if streams.is_none() => streams = Some(items_in(&member.1)?),
            _ => return None,
        }
    }
    match (cmd, tenant, now, streams) {
        (Some(cmd), Some(tenant), Some(now), Some(streams)) => Some(PushParts {
            cmd,
            tenant,
            now,
            streams,
        }),
        _ => None,
    }
}

/// What the members of a stream are.
#[derive(Clone, Copy)]
pub(crate) struct StreamParts<'v, 'a> {
    pub labels: &'v [Member<'a>],
    pub values: &'v [Value<'a>],
}

/// The parts of a stream that has these members and no other.
pub(crate) fn stream_parts<'v, 'a>(members: &'v [Member<'a>]) -> Option<StreamParts<'v, 'a>>
    ensures { IfSome result (λ parts. HasStream (members_view members.now)
        (members_view parts.labels.now) (items_view parts.values.now)) }
{
    let [first, second] = members else {
        return None;
    };
    match (first.0, second.0) {
        ("stream", "values") => Some(StreamParts {
            labels: members_in(&first.1)?,
            values: items_in(&second.1)?,
        }),
        ("values", "stream") => Some(StreamParts {
            labels: members_in(&second.1)?,
            values: items_in(&first.1)?,
        }),
        _ => None,
    }
}
