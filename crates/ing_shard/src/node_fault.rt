//! Why a call of an ingester is refused.
ghost use Rattle.std.specs.Prelude.{◌≡◌};
ghost use Rattle.ing_shard.specs.NodeFaults.{refusal_of};

use ing_refusals::{PushFault, Refusal};
use ing_tally::CounterFull;
use std::alloc::AllocError;
use thiserror::Error;

/// Why a call of an ingester is refused.
#[derive(Clone, Copy, Debug, PartialEq, Eq, Error)]
pub enum NodeFault {
    /// Memory ran out.
    #[error("out of memory")]
    NoMemory,
    /// A count would pass its last value.
    #[error("a counter is full")]
    CounterFull,
    /// More entries than one push of a stream may have.
    #[error("too many entries")]
    TooManyEntries,
    /// The shard behind the lock at this place has another number. No ingester that was opened has such a lock: a lock's type
    /// cannot say which number its shard has, so it is asked.
    #[error("a shard is misplaced")]
    Misplaced {
        /// The place.
        shard: u32,
    },
}

impl NodeFault {
    /// Which refusal it is. Takes no memory.
    pub fn refusal(&self) -> Refusal
        ensures { result ≡ refusal_of self.now }
    {
        match self {
            NodeFault::NoMemory => Refusal::NoMemory,
            NodeFault::CounterFull => Refusal::CounterFull,
            NodeFault::TooManyEntries => Refusal::TooManyEntries,
            NodeFault::Misplaced { .. } => Refusal::Misplaced,
        }
    }
}

impl From<AllocError> for NodeFault {
    ghost use Rattle.std.specs.Prelude.{◌≡◌};
    ghost use Rattle.ing_shard.specs.declared.node_fault.NodeFault.TheVariants.{NoMemory};

    ghost from_gives = { λ _ fault. fault ≡ NoMemory };

    fn from(_error: AllocError) -> NodeFault {
        NodeFault::NoMemory
    }
}

impl From<CounterFull> for NodeFault {
    ghost use Rattle.std.specs.Prelude.{◌≡◌};
    ghost use Rattle.ing_shard.specs.declared.node_fault.NodeFault.TheVariants as node;

    ghost from_gives = { λ _ fault. fault ≡ node.CounterFull };

    fn from(_error: CounterFull) -> NodeFault {
        NodeFault::CounterFull
    }
}

impl From<PushFault> for NodeFault {
    ghost use Rattle.std.specs.Prelude.{◌≡◌};
    ghost use Rattle.ing_shard.specs.PushFaults.{fault_of};

    ghost from_gives = { λ push fault. fault ≡ fault_of push };

    fn from(fault: PushFault) -> NodeFault {
        match fault {
            PushFault::NoMemory => NodeFault::NoMemory,
            PushFault::CounterFull => NodeFault::CounterFull,
            PushFault::TooManyEntries => NodeFault::TooManyEntries,
        }
    }
}
