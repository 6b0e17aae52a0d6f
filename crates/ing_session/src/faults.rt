//! The replies to streams and queries that are refused.
ghost use Rattle.std.specs.Prelude.{◌≡◌, IfOk, IsErr, None};
ghost use Rattle.ing_labels.specs.TextFaults.{text_fault_place, text_refusal_of};
ghost use Rattle.ing_refusals.specs.PushFaults.{push_refusal_of};
ghost use Rattle.ing_query.specs.QueryFaults.{query_refusal_of};
ghost use Rattle.ing_session.specs.Replies.{fault_data};
ghost use Rattle.ing_session.specs.Faults.{label_fault, limits_of};
ghost use Rattle.ing_session.specs.Views.{reply_data, stream_data};

use crate::reply::{Reply, StreamReply};
use ing_labels::{LabelFault, LabelLimits, TextFault};
use ing_query::QueryFault;
use ing_refusals::{PushFault, Refusal};
use ing_rows::Rules;
use std::alloc::AllocError;

/// The limits on labels among a tenant's rules.
pub fn label_limits(rules: &Rules) -> LabelLimits
    ensures { result ≡ limits_of rules.now }
{
    LabelLimits {
        names: rules.max_label_names as usize,
        name_bytes: rules.max_label_name_length as usize,
        value_bytes: rules.max_label_value_length as usize,
    }
}

/// The reply to a stream whose labels are refused.
pub fn label_fault(fault: LabelFault) -> Result<StreamReply, AllocError>
    ensures reply { IfOk result (λ reply. stream_data reply ≡ label_fault fault) }
    ensures memory { fault ≡ LabelFault.NoMemory → IsErr result }
{
    if fault == LabelFault::NoMemory {
        return Err(AllocError);
    }
    Ok(StreamReply::Fault {
        refusal: fault.refusal(),
        at: fault.at(),
    })
}

/// The reply to a stream that is refused as a whole.
pub fn push_fault(fault: PushFault) -> Result<StreamReply, AllocError>
    ensures reply { IfOk result (λ reply. stream_data reply ≡ fault_data (push_refusal_of fault) None) }
    ensures memory { fault ≡ PushFault.NoMemory → IsErr result }
{
    if fault == PushFault::NoMemory {
        return Err(AllocError);
    }
    Ok(StreamReply::Fault {
        refusal: fault.refusal(),
        at: None,
    })
}

/// The reply to a query whose text is refused.
pub fn selector_fault(fault: TextFault) -> Result<Reply, AllocError>
    ensures reply { IfOk result (λ reply. reply_data reply ≡ fault_data (text_refusal_of fault) (text_fault_place fault)) }
    ensures memory { fault ≡ TextFault.NoMemory → IsErr result }
{
    if fault == TextFault::NoMemory {
        return Err(AllocError);
    }
    Ok(Reply::Refused {
        refusal: fault.refusal(),
        at: fault.at(),
    })
}

/// The reply to a query that the store does not let answer.
pub fn query_fault(fault: QueryFault) -> Result<Reply, AllocError>
    ensures reply { IfOk result (λ reply. reply_data reply ≡ fault_data (query_refusal_of fault) None) }
    ensures memory { fault ≡ QueryFault.NoMemory → IsErr result }
{
    match fault {
        QueryFault::NoMemory => Err(AllocError),
        QueryFault::StoreFault { .. } => Ok(Reply::Fault(Refusal::StoreFault)),
        QueryFault::BadObject { .. } => Ok(Reply::Fault(Refusal::BadObject)),
    }
}
