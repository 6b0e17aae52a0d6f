//! Why the entries of a shard are not settled with what was noted.
ghost use Rattle.std.specs.Prelude.{◌≡◌};
ghost use Rattle.ing_diary.specs.Faults.{unsettled_refusal_of};

use ing_query::QueryFault;
use ing_refusals::Refusal;
use std::alloc::AllocError;

/// An entry that does not stand exactly once, and alike, in the shard and in what was noted. (Own.)
#[derive(Debug, PartialEq, Eq, Drop)]
pub struct Mismatch {
    /// Whose it is.
    pub tenant: String,
    /// The canonical name of its stream.
    pub stream: String,
    /// Its number in its stream, from 0.
    pub number: u64,
}

/// Why the entries of a shard are not settled with what was noted.
#[derive(Debug, PartialEq, Eq, Drop)]
pub enum Unsettled {
    /// They could not all be read.
    Query(QueryFault),
    /// One of them, or of those that were noted, has not its like.
    Differs(Mismatch),
}

impl Unsettled {
    /// Which refusal it is. Takes no memory.
    pub fn refusal(&self) -> Refusal
        ensures { result ≡ unsettled_refusal_of self.now }
    {
        match self {
            Unsettled::Query(fault) => fault.refusal(),
            Unsettled::Differs(_) => Refusal::Mismatch,
        }
    }
}

impl From<QueryFault> for Unsettled {
    ghost use Rattle.std.specs.Prelude.{◌≡◌};
    ghost use Rattle.ing_diary.specs.declared.fault.Unsettled.TheVariants.{Query};

    ghost from_gives = { λ query fault. fault ≡ Query query };

    fn from(fault: QueryFault) -> Unsettled {
        Unsettled::Query(fault)
    }
}

impl From<AllocError> for Unsettled {
    ghost use Rattle.std.specs.Prelude.{◌≡◌};
    ghost use Rattle.ing_query.specs.declared.fault.QueryFault.TheVariants.{NoMemory};
    ghost use Rattle.ing_diary.specs.declared.fault.Unsettled.TheVariants.{Query};

    ghost from_gives = { λ _ fault. fault ≡ Query NoMemory };

    fn from(_error: AllocError) -> Unsettled {
        Unsettled::Query(QueryFault::NoMemory)
    }
}
