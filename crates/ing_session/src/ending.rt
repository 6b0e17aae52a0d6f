//! How the program ends on a fault.
ghost use Rattle.std.specs.Prelude.{◌≡◌};
ghost use Rattle.ing_session.specs.Endings.{ending_detail, ending_refusal, ending_status};

use crate::lines::LineError;
use ing_limits::SettingsFault;
use ing_refusals::{RecoverFault, Refusal, RelistFault};
use std::alloc::{AllocError, AllocFailed};

/// Why the program ended without a report. `name` is the dotted name of the setting, as `tenants.acme.max_line_size`.
#[derive(Debug, Drop, PartialEq, Eq)]
pub enum Ending {
    /// Memory ran out.
    NoMemory,
    /// The settings file is no TOML document, or not UTF-8.
    NotToml,
    /// There is no setting of this name.
    UnknownSetting { name: String },
    /// The value of this setting is bad.
    BadSetting { name: String },
    /// The input could not be read, or took more than 2^40 reads.
    InputFault,
    /// The output could not be written.
    OutputFault,
    /// The argument words are more than a settings file, a folder and pairs of paths, the folder's is empty, or one is not UTF-8.
    BadArguments,
    /// The settings file cannot be read.
    NoSettings,
    /// The folder or a log in it cannot be opened.
    NoFolder,
    /// The folder of the objects cannot be opened.
    NoObjects,
    /// Another program works in the folder.
    FolderInUse,
    /// The folder was begun, and the log of a shard is not in it.
    MissingLog,
    /// A shard was not made again from its log, before anything was read.
    NotRecovered(RecoverFault),
    /// Shards were not opened for several channels, or not closed behind them, for this reason.
    NotServed(Refusal),
    /// An entry that was accepted does not stand exactly once, and alike, in its shard and in what the channels noted. `place` tells which
    /// behind the refusal's name, as `: shard 2, tenant acme, stream {app="x"}, number 7`.
    Differs { place: String },
}

impl Ending {
    /// Which refusal it is. Takes no memory.
    pub fn refusal(&self) -> Refusal
        ensures { result ≡ ending_refusal self.now }
    {
        match self {
            Ending::NoMemory => Refusal::NoMemory,
            Ending::NotToml => Refusal::NotToml,
            Ending::UnknownSetting { .. } => Refusal::UnknownSetting,
            Ending::BadSetting { .. } => Refusal::BadSetting,
            Ending::InputFault => Refusal::InputFault,
            Ending::OutputFault => Refusal::OutputFault,
            Ending::BadArguments => Refusal::BadArguments,
            Ending::NoSettings => Refusal::NoSettings,
            Ending::NoFolder => Refusal::LogFault,
            Ending::NoObjects => Refusal::Failed,
            Ending::FolderInUse => Refusal::FolderInUse,
            Ending::MissingLog => Refusal::MissingLog,
            Ending::NotRecovered(fault) => fault.refusal(),
            Ending::NotServed(refusal) => *refusal,
            Ending::Differs { .. } => Refusal::Mismatch,
        }
    }

    /// What is told behind the refusal's name: a place, or nothing. Takes no memory.
    pub fn detail(&self) -> &str
        ensures { result.now ≡ ending_detail self.now }
    {
        match self {
            Ending::Differs { place } => place.as_str(),
            _ => "",
        }
    }

    /// The exit status of the program: 1 where arguments or settings are refused, 2 where input, output or a folder failed, the
    /// folder is in use or lacks a log, a shard was not made again, shards were not opened or closed, or an entry differs, 3 where memory ran out (own). Takes no memory.
    pub fn status(&self) -> u8
        ensures { result ≡ ending_status self.now }
    {
        match self {
            Ending::NotToml
            | Ending::UnknownSetting { .. }
            | Ending::BadSetting { .. }
            | Ending::BadArguments
            | Ending::NoSettings => 1,
            Ending::InputFault
            | Ending::OutputFault
            | Ending::NoFolder
            | Ending::NoObjects
            | Ending::FolderInUse
            | Ending::MissingLog
            | Ending::NotRecovered(_)
            | Ending::NotServed(_)
            | Ending::Differs { .. } => 2,
            Ending::NoMemory => 3,
        }
    }
}

impl From<AllocError> for Ending {
    ghost use Rattle.std.specs.Prelude.{◌≡◌};
    ghost use Rattle.ing_session.specs.declared.ending.Ending.TheVariants.{NoMemory};

    ghost from_gives = { λ _ ending. ending ≡ NoMemory };

    fn from(_error: AllocError) -> Ending {
        Ending::NoMemory
    }
}

impl<T: Drop> From<AllocFailed<T>> for Ending {
    ghost use Rattle.std.specs.Prelude.{◌≡◌};
    ghost use Rattle.ing_session.specs.declared.ending.Ending.TheVariants.{NoMemory};

    ghost from_gives = { λ _ ending. ending ≡ NoMemory };

    fn from(_error: AllocFailed<T>) -> Ending {
        Ending::NoMemory
    }
}

impl From<LineError> for Ending {
    ghost use Rattle.std.specs.Prelude.{◌≡◌};
    ghost use Rattle.ing_session.specs.Endings.{ending_of_line};

    ghost from_gives = { λ error ending. ending ≡ ending_of_line error };

    fn from(error: LineError) -> Ending {
        match error {
            LineError::ReadFailed | LineError::TooManyReads => Ending::InputFault,
            LineError::NoMemory => Ending::NoMemory,
        }
    }
}

impl From<SettingsFault> for Ending {
    ghost use Rattle.std.specs.Prelude.{◌≡◌};
    ghost use Rattle.ing_session.specs.Endings.{ending_of_settings};

    ghost from_gives = { λ fault ending. ending ≡ ending_of_settings fault };

    fn from(fault: SettingsFault) -> Ending {
        match fault {
            SettingsFault::NoMemory => Ending::NoMemory,
            SettingsFault::NotToml => Ending::NotToml,
            SettingsFault::UnknownSetting { name } => Ending::UnknownSetting { name },
            SettingsFault::BadSetting { name } => Ending::BadSetting { name },
        }
    }
}

impl From<RecoverFault> for Ending {
    ghost use Rattle.std.specs.Prelude.{◌≡◌};
    ghost use Rattle.ing_session.specs.Endings.{ending_of_recover};

    ghost from_gives = { λ fault ending. ending ≡ ending_of_recover fault };

    fn from(fault: RecoverFault) -> Ending {
        match fault {
            RecoverFault::NoMemory | RecoverFault::Relist(RelistFault::NoMemory) =>
                Ending::NoMemory,
            fault => Ending::NotRecovered(fault),
        }
    }
}
