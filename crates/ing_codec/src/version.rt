//! The versions of chunks and logs.
ghost use Rattle.std.specs.Prelude.{◌≡◌};
ghost use Rattle.ing_codec.specs.Versions.{version_byte};

/// How a chunk, or a log, spells its entries (own).
#[derive(Clone, Copy, Debug, PartialEq, Eq)]
pub enum Version {
    /// An entry ends with its line. It is read, and no longer written.
    First,
    /// Behind its line an entry has one byte, how many pairs of metadata it has, and today no entry has any. It is read, and written.
    Second,
}

/// The version in which chunks and logs are written (own).
pub const WRITTEN_VERSION: Version = Version::Second;

impl Version {
    /// The byte that tells it.
    pub fn byte(self) -> u8
        ensures { result ≡ version_byte self }
    {
        match self {
            Version::First => 1,
            Version::Second => 2,
        }
    }
}
