//! The line of a push command.
ghost use Rattle.std.specs.Prelude.{◌≡◌, ◌<◌, ◌^◌, IfOk, OnOk, map, true};
ghost use Rattle.std.specs.List.{list_all};
ghost use Rattle.serde_json.specs.Data.{array};
ghost use Rattle.serde_json.specs.View.{view, items_of};
ghost use Rattle.ing_rows.specs.Texts.{is_tenant};
ghost use Rattle.ctl_feed.specs.Pushes.{Says, is_stamp, push_data, push_of, value_data};
ghost use Rattle.serde_json.specs.Written.{compact_text};

use crate::labels::Labels;
use ing_rows::{Entry, Stamp, Tenant};
use serde_json::{Value, json};
use std::alloc::{AllocError, Global};

/// The line, without a line feed, of a push of entries to one stream, in the order of the entries. It may be
/// longer than `MAX_LINE`: `Loader` gives none that is. It fails only where memory runs out. (Loki
/// documentation: push API; the command's form is own.)
pub fn push_line(
    alloc: Global,
    tenant: &Tenant,
    now: Stamp,
    labels: &Labels,
    entries: Vec<Entry>,
) -> Result<Vec<u8>, AllocError>
    ensures says { IfOk result (λ line.
        Says line.items (push_of tenant.now now labels.now entries.items)) }
    ensures stamps { OnOk result (list_all is_stamp entries.items ≡ true) }
    ensures text { IfOk result (λ line.
        line.items ≡ compact_text (push_data tenant.now now labels.now entries.items)) }
{
    push_value(alloc, tenant, now, labels, entries)?.to_vec(alloc)
}

/// The JSON value of a push.
fn push_value(
    alloc: Global,
    tenant: &Tenant,
    now: Stamp,
    labels: &Labels,
    entries: Vec<Entry>,
) -> Result<Value, AllocError>
    ensures value { IfOk result (λ value. view value
        ≡ push_data tenant.now now labels.now entries.items) }
    ensures tenant { OnOk result (is_tenant tenant.now ≡ true) }
    ensures now { OnOk result (now < 2 ^ 63) }
    ensures stamps { OnOk result (list_all is_stamp entries.items ≡ true) }
{
    let values = values_of(alloc, entries)?;
    let digits = now.nanoseconds().to_string(alloc)?;
    json!(in alloc; {
        "cmd": "push",
        "now": digits,
        "streams": [{"stream": labels.object(), "values": values}],
        "tenant": tenant.as_str()
    })
}

/// The values of entries.
fn values_of(alloc: Global, entries: Vec<Entry>) -> Result<Value, AllocError>
    ensures value { IfOk result (λ value. view value
        ≡ array (items_of (map value_data entries.items))) }
    ensures stamps { OnOk result (list_all is_stamp entries.items ≡ true) }
{
    let mut values = Vec::with_capacity(alloc, entries.len())?;
    for entry in entries {
        values.push(value_of(alloc, entry)?)?;
    }
    Ok(Value::Array(values))
}

/// The value of an entry. Its line is not copied.
fn value_of(alloc: Global, entry: Entry) -> Result<Value, AllocError>
    ensures value { IfOk result (λ value. view value ≡ value_data entry) }
    ensures stamp { OnOk result (is_stamp entry ≡ true) }
{
    let digits = entry.stamp.nanoseconds().to_string(alloc)?;
    json!(in alloc; [digits, entry.line.into_string()])
}
