//! Why a text gives no settings.
ghost use Rattle.std.specs.Prelude.{◌≡◌};
ghost use Rattle.ing_limits.specs.Faults.{fault_refusal};

use ing_refusals::Refusal;
use std::alloc::AllocError;
use thiserror::Error;

/// Why a text gives no settings. `name` is the dotted name of the setting, as `tenants.acme.max_line_size`.
#[derive(Debug, Drop, Error)]
pub enum SettingsFault {
    /// Memory ran out.
    #[error("out of memory")]
    NoMemory,
    /// The text is no TOML document.
    #[error("no TOML")]
    NotToml,
    /// There is no setting of this name.
    #[error("unknown setting {name}")]
    UnknownSetting { name: String },
    /// The value of this setting is bad.
    #[error("bad setting {name}")]
    BadSetting { name: String },
}

impl SettingsFault {
    /// Which refusal it is. Takes no memory.
    pub fn refusal(&self) -> Refusal
        ensures { result ≡ fault_refusal self.now }
    {
        match self {
            SettingsFault::NoMemory => Refusal::NoMemory,
            SettingsFault::NotToml => Refusal::NotToml,
            SettingsFault::UnknownSetting { .. } => Refusal::UnknownSetting,
            SettingsFault::BadSetting { .. } => Refusal::BadSetting,
        }
    }
}

impl From<AllocError> for SettingsFault {
    ghost use Rattle.std.specs.Prelude.{◌≡◌};
    ghost use Rattle.ing_limits.specs.declared.fault.SettingsFault.TheVariants.{NoMemory};

    ghost from_gives = { λ _ fault. fault ≡ NoMemory };

    fn from(_error: AllocError) -> SettingsFault {
        SettingsFault::NoMemory
    }
}
