//! Why a life of an ingester ends early.
use ing_labels::{LabelFault, TextFault};
use ing_limits::SettingsFault;
use ing_node::{AnswerFault, CloseRefusal};
use ing_query::QueryFault;
use ing_refusals::Refusal;
use ing_rows::RowFault;
use ing_shard::NodeFault;
use std::alloc::{AllocError, AllocFailed};
use thiserror::Error;

/// Why a life of an ingester ends early.
#[derive(Clone, Copy, Debug, PartialEq, Eq, Error)]
pub enum LifeFault {
    /// Memory ran out.
    #[error("out of memory")]
    NoMemory,
    /// The life was planned wrongly: some text or number in it is refused.
    #[error("a text is refused")]
    Text,
    /// The ingester refused a call.
    #[error("{0}")]
    Node(NodeFault),
    /// A query was not answered.
    #[error("a query is not answered: {0:?}")]
    Answer(AnswerFault),
    /// A chunk was in no flight at its finish.
    #[error("a ticket is strange to its shard")]
    Strange,
    /// An entry that was told as accepted was not found, or more were found than accepted.
    #[error("the entries found are not those accepted")]
    NotFound,
    /// The ingester was not closed.
    #[error("the ingester is not closed: {0:?}")]
    Close(Refusal),
    /// What is read without a lock is less than was told, or not what was counted in the end.
    #[error("the board is not what was counted")]
    Board,
    /// No time could be read.
    #[error("no clock")]
    Clock,
    /// The report of the closing is not what was counted.
    #[error("the report is not what was counted")]
    Report,
}

impl From<AllocError> for LifeFault {
    fn from(_error: AllocError) -> LifeFault {
        LifeFault::NoMemory
    }
}

impl<T: Drop> From<AllocFailed<T>> for LifeFault {
    fn from(_failed: AllocFailed<T>) -> LifeFault {
        LifeFault::NoMemory
    }
}

impl From<NodeFault> for LifeFault {
    fn from(fault: NodeFault) -> LifeFault {
        match fault {
            NodeFault::NoMemory => LifeFault::NoMemory,
            fault => LifeFault::Node(fault),
        }
    }
}

impl From<AnswerFault> for LifeFault {
    fn from(fault: AnswerFault) -> LifeFault {
        match fault {
            AnswerFault::Node(NodeFault::NoMemory) | AnswerFault::Query(QueryFault::NoMemory) => {
                LifeFault::NoMemory
            }
            fault => LifeFault::Answer(fault),
        }
    }
}

impl From<CloseRefusal> for LifeFault {
    fn from(why: CloseRefusal) -> LifeFault {
        match why.refusal() {
            Refusal::NoMemory => LifeFault::NoMemory,
            refusal => LifeFault::Close(refusal),
        }
    }
}

impl From<LabelFault> for LifeFault {
    fn from(fault: LabelFault) -> LifeFault {
        match fault {
            LabelFault::NoMemory => LifeFault::NoMemory,
            _ => LifeFault::Text,
        }
    }
}

impl From<RowFault> for LifeFault {
    fn from(fault: RowFault) -> LifeFault {
        match fault {
            RowFault::NoMemory => LifeFault::NoMemory,
            _ => LifeFault::Text,
        }
    }
}

impl From<TextFault> for LifeFault {
    fn from(fault: TextFault) -> LifeFault {
        match fault {
            TextFault::NoMemory => LifeFault::NoMemory,
            _ => LifeFault::Text,
        }
    }
}

impl From<SettingsFault> for LifeFault {
    fn from(fault: SettingsFault) -> LifeFault {
        match fault {
            SettingsFault::NoMemory => LifeFault::NoMemory,
            _ => LifeFault::Text,
        }
    }
}
