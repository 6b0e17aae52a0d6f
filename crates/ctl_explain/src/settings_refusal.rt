//! Why settings are not shown.
ghost use Rattle.std.specs.Prelude.{◌≡◌};
ghost use Rattle.ctl_explain.specs.InForce.{settings_refusal};

use ing_limits::SettingsFault;
use ing_refusals::Refusal;
use std::alloc::AllocError;
use std::fmt;
use toml::de::Error;

/// Why the settings in force are not shown (own).
#[derive(Debug, Drop)]
pub enum SettingsRefusal {
    /// Memory ran out.
    NoMemory,
    /// The text is no TOML document: what the reader of TOML says, with line and column.
    NotToml(Error),
    /// A setting is refused, by its dotted name.
    Refused(SettingsFault),
}

impl SettingsRefusal {
    /// Which refusal of `ingestd` it is. Takes no memory.
    pub fn refusal(&self) -> Refusal
        ensures { result ≡ settings_refusal self.now }
    {
        match self {
            SettingsRefusal::NoMemory => Refusal::NoMemory,
            SettingsRefusal::NotToml(_) => Refusal::NotToml,
            SettingsRefusal::Refused(fault) => fault.refusal(),
        }
    }
}

impl From<AllocError> for SettingsRefusal {
    ghost use Rattle.std.specs.Prelude.{◌≡◌};
    ghost use Rattle.ctl_explain.specs.declared.settings_refusal.SettingsRefusal.TheVariants.{NoMemory};

    ghost from_gives = { λ _ refusal. refusal ≡ NoMemory };

    fn from(_error: AllocError) -> SettingsRefusal {
        SettingsRefusal::NoMemory
    }
}

/// The refusal by its number and its name, and where it is, as `12 BadSetting: tenants.acme.max_line_size`.
impl fmt::Display for SettingsRefusal {
    fn fmt<W: fmt::Write>(&self, f: &mut fmt::Formatter<W>) -> fmt::Result {
        let number = self.refusal().number();
        let name = self.refusal().name();
        write!(f, "{number} {name}")?;
        match self {
            SettingsRefusal::NotToml(error) => write!(f, ": {error}"),
            SettingsRefusal::Refused(SettingsFault::UnknownSetting { name })
            | SettingsRefusal::Refused(SettingsFault::BadSetting { name }) => write!(f, ": {name}"),
            SettingsRefusal::Refused(_) | SettingsRefusal::NoMemory => Ok(()),
        }
    }
}
