//! Why the entries of a stream are not written.
use ctl_feed::{EntryFault, FeedEnding, LoadFault};
use ing_labels::TextFault;
use ing_query::QueryFault;
use std::alloc::{AllocError, AllocFailed};

/// Why the entries of a stream are not written.
#[derive(Clone, Copy, Debug, PartialEq, Eq)]
pub enum ExportFault {
    /// Memory ran out.
    NoMemory,
    /// Not all entries could be read.
    Query(QueryFault),
    /// A write failed.
    OutputFault,
    /// The stream's name is no canonical name; the streams of a shard have one.
    NoName,
    /// Its labels, or an entry, take more than a command may have; under no settings does `ingestd`
    /// accept such.
    TooLong,
}

impl From<AllocError> for ExportFault {
    ghost use Rattle.ctl_export.specs.Exports.{IsNoQuery};

    ghost from_gives = { λ _ fault. IsNoQuery fault };

    fn from(_error: AllocError) -> ExportFault {
        ExportFault::NoMemory
    }
}

impl<T: Drop> From<AllocFailed<T>> for ExportFault {
    ghost use Rattle.ctl_export.specs.Exports.{IsNoQuery};

    ghost from_gives = { λ _ fault. IsNoQuery fault };

    fn from(_error: AllocFailed<T>) -> ExportFault {
        ExportFault::NoMemory
    }
}

impl From<QueryFault> for ExportFault {
    ghost use Rattle.std.specs.Prelude.{◌≡◌};
    ghost use Rattle.ctl_export.specs.Exports.{query_fault};

    ghost from_gives = { λ query fault. fault ≡ query_fault query };

    fn from(fault: QueryFault) -> ExportFault {
        match fault {
            QueryFault::NoMemory => ExportFault::NoMemory,
            _ => ExportFault::Query(fault),
        }
    }
}

impl From<TextFault> for ExportFault {
    ghost use Rattle.ctl_export.specs.Exports.{IsNoQuery};

    ghost from_gives = { λ _ fault. IsNoQuery fault };

    fn from(fault: TextFault) -> ExportFault {
        match fault {
            TextFault::NoMemory => ExportFault::NoMemory,
            _ => ExportFault::NoName,
        }
    }
}

impl From<LoadFault> for ExportFault {
    ghost use Rattle.ctl_export.specs.Exports.{IsNoQuery};

    ghost from_gives = { λ _ fault. IsNoQuery fault };

    fn from(fault: LoadFault) -> ExportFault {
        match fault {
            LoadFault::NoMemory => ExportFault::NoMemory,
            _ => ExportFault::TooLong,
        }
    }
}

impl From<EntryFault> for ExportFault {
    ghost use Rattle.ctl_export.specs.Exports.{IsNoQuery};

    ghost from_gives = { λ _ fault. IsNoQuery fault };

    fn from(fault: EntryFault) -> ExportFault {
        match fault {
            EntryFault::TooLong => ExportFault::TooLong,
            EntryFault::Ended(FeedEnding::NoMemory) => ExportFault::NoMemory,
            EntryFault::Ended(_) => ExportFault::OutputFault,
        }
    }
}
