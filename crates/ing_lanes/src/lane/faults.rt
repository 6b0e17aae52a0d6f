//! The replies to what an ingester refuses.
ghost use Rattle.std.specs.Prelude.{◌≡◌, IfOk, IsErr, None};
ghost use Rattle.ing_node.specs.NodeFaults.{refusal_of};
ghost use Rattle.ing_node.specs.AnswerFaults.{answer_refusal_of};
ghost use Rattle.ing_session.specs.Replies.{fault_data};
ghost use Rattle.ing_session.specs.Views.{reply_data, stream_data};

use ing_node::{AnswerFault, NodeFault};
use ing_session::{Reply, StreamReply, query_fault};
use std::alloc::AllocError;

/// The reply to a command at which a lock was not passed.
pub(super) fn node_fault(fault: NodeFault) -> Result<Reply, AllocError>
    ensures { IfOk result (λ reply. reply_data reply ≡ fault_data (refusal_of fault) None) }
{
    if fault == NodeFault::NoMemory {
        return Err(AllocError);
    }
    Ok(Reply::Fault(fault.refusal()))
}

/// The reply to a query that is not answered.
pub(super) fn answer_fault(fault: AnswerFault) -> Result<Reply, AllocError>
    ensures { IfOk result (λ reply. reply_data reply ≡ fault_data (answer_refusal_of fault) None) }
{
    match fault {
        AnswerFault::Node(fault) => node_fault(fault),
        AnswerFault::Query(fault) => query_fault(fault),
    }
}

/// The reply to a stream that is refused as a whole.
pub(super) fn stream_fault(fault: NodeFault) -> Result<StreamReply, AllocError>
    ensures reply { IfOk result (λ reply. stream_data reply ≡ fault_data (refusal_of fault) None) }
    ensures memory { fault ≡ NodeFault.NoMemory → IsErr result }
{
    if fault == NodeFault::NoMemory {
        return Err(AllocError);
    }
    Ok(StreamReply::Fault {
        refusal: fault.refusal(),
        at: None,
    })
}
