//! Bodies of Loki's push API made into push commands.
ghost use Rattle.std.specs.Prelude.{◌≡◌, ◌≢◌, IfOk, IfErr, Err, codes, option_map};
ghost use Rattle.serde_json.specs.Find.{get};
ghost use Rattle.serde_json.specs.View.{view};
ghost use Rattle.ctl_feed.specs.Wraps.{IsTooLong, IsWrapped, command_data, wrapped};

use ing_commands::{LineFault, command_of, read_value};
use ing_refusals::Refusal;
use ing_rows::{Stamp, Tenant};
use serde_json::{Value, json};
use std::alloc::{AllocError, Global};

/// How many bytes a line of input may have for `ingestd`, its line feed not counted.
pub const MAX_LINE: usize = 16_777_216;

/// Why no line is made of a body.
#[derive(Clone, Copy, Debug, PartialEq, Eq)]
pub enum WrapFault {
    /// The line would be refused so; or memory ran out.
    Refused(LineFault),
    /// The line would have more than `MAX_LINE` bytes.
    TooLong,
}

impl WrapFault {
    ghost use Rattle.std.specs.Prelude.{◌≡◌};
    ghost use Rattle.ctl_feed.specs.Wraps.{refusal_of};

    /// The refusal that `ingestd` would answer the line with. Takes no memory.
    pub fn refusal(&self) -> Refusal
        ensures { result ≡ refusal_of self.now }
    {
        match self {
            WrapFault::Refused(fault) => fault.refusal(),
            WrapFault::TooLong => Refusal::BadCommand,
        }
    }
}

impl From<LineFault> for WrapFault {
    ghost use Rattle.std.specs.Prelude.{◌≡◌};
    ghost use Rattle.ctl_feed.specs.declared.wrap.WrapFault.TheVariants.{Refused};

    ghost from_gives = { λ part fault. fault ≡ Refused part };

    fn from(part: LineFault) -> WrapFault {
        WrapFault::Refused(part)
    }
}

impl From<AllocError> for WrapFault {
    ghost use Rattle.std.specs.Prelude.{◌≡◌};
    ghost use Rattle.ctl_feed.specs.declared.wrap.WrapFault.TheVariants.{Refused};
    ghost use Rattle.ing_commands.specs.declared.fault.LineFault.TheVariants.{NoMemory};

    ghost from_gives = { λ _ fault. fault ≡ Refused NoMemory };

    fn from(_error: AllocError) -> WrapFault {
        WrapFault::Refused(LineFault::NoMemory)
    }
}

/// The line, without a line feed, of a push of the streams of a body for a tenant at a time. The body is that
/// of Loki's push API, `{"streams":[..]}`; its other members are left out, as `ingestd` ignores them.
/// `Refused` exactly where the reader of commands refuses the line, with the same fault; else `TooLong` where
/// the line has more than `MAX_LINE` bytes. (Loki documentation: push API; the command's form is own.)
pub fn wrap_body(
    alloc: Global,
    tenant: &Tenant,
    now: Stamp,
    body: &[u8],
) -> Result<Vec<u8>, WrapFault>
    ensures wrapped { IfOk result (λ line. IsWrapped tenant.now now body.now line.items) }
    ensures refused { IfErr result (λ e. (fault : LineFault) → e ≡ WrapFault.Refused fault
        → fault ≢ LineFault.NoMemory → wrapped tenant.now now body.now ≡ Err fault) }
    ensures too_long { result ≡ Err WrapFault.TooLong → IsTooLong tenant.now now body.now }
{
    let mut value = read_value(alloc, body)?;
    let Some(streams) = taken_streams(&mut value) else {
        return Err(WrapFault::Refused(LineFault::BadCommand));
    };
    let command = command_value(alloc, tenant, now, streams)?;
    drop(command_of(alloc, &command)?);
    let line = command.to_vec(alloc)?;
    if line.len() > MAX_LINE {
        return Err(WrapFault::TooLong);
    }
    Ok(line)
}

/// The streams of a body, which are taken out of it.
fn taken_streams(body: &mut Value) -> Option<Value>
    ensures { option_map view result ≡ get (codes "streams") (view body.old) }
{
    let streams = body.get_mut("streams")?;
    Some(streams.take())
}

/// The JSON value of a push with these streams.
fn command_value(
    alloc: Global,
    tenant: &Tenant,
    now: Stamp,
    streams: Value,
) -> Result<Value, AllocError>
    ensures { IfOk result (λ value. view value
        ≡ command_data tenant.now now (view streams)) }
{
    let digits = now.nanoseconds().to_string(alloc)?;
    json!(in alloc; {
        "cmd": "push",
        "now": digits,
        "streams": streams,
        "tenant": tenant.as_str()
    })
}
