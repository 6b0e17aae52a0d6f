//! Files by name, as a folder has them.
use std::alloc::{AllocError, Global};

/// Why files do not do what they are asked.
#[derive(Clone, Copy, Debug, PartialEq, Eq)]
pub enum FileFault {
    /// Memory ran out.
    NoMemory,
    /// The files failed.
    Failed,
}

impl From<AllocError> for FileFault {
    ghost use Rattle.std.specs.Prelude.{◌≡◌};
    ghost use Rattle.test_files.specs.declared.files.FileFault.TheVariants.{NoMemory};

    ghost from_gives = { λ _ fault. fault ≡ NoMemory };

    fn from(_: AllocError) -> Self {
        Self::NoMemory
    }
}

/// Files by name. **They promise nothing**: what is read may be anything, at any time.
pub trait Files: Drop {
    /// What the file of this name has. `None` where there is none.
    fn read(&mut self, alloc: Global, name: &str) -> Result<Option<Vec<u8>>, FileFault>;

    /// Writes a file.
    fn write(&mut self, alloc: Global, name: &str, bytes: &[u8]) -> Result<(), FileFault>;
}

/// A file with its name.
#[derive(Drop)]
struct File {
    name: String,
    bytes: Vec<u8>,
}

/// Files that a test damages.
#[derive(Drop)]
pub struct Shelf {
    files: Vec<File>,
}

impl Shelf {
    /// No file.
    pub fn new(alloc: Global) -> Shelf {
        Shelf {
            files: Vec::new(alloc),
        }
    }

    /// Changes the last byte of each file.
    pub fn damage(&mut self) {
        for file in &mut self.files {
            if let Some(last) = file.bytes.last_mut() {
                *last ^= 1;
            }
        }
    }

    /// Removes each file.
    pub fn lose(&mut self) {
        self.files.clear();
    }
}

impl Files for Shelf {
    fn read(&mut self, alloc: Global, name: &str) -> Result<Option<Vec<u8>>, FileFault> {
        for file in &self.files {
            if file.name.as_str() == name {
                return Ok(Some(file.bytes.as_slice().to_vec(alloc)?));
            }
        }
        Ok(None)
    }

    /// The file of this name that was written first is read: a test writes each name once.
    fn write(&mut self, alloc: Global, name: &str, bytes: &[u8]) -> Result<(), FileFault> {
        let file = File {
            name: String::from_str(alloc, name)?,
            bytes: bytes.to_vec(alloc)?,
        };
        if self.files.push(file).is_err() {
            return Err(FileFault::NoMemory);
        }
        Ok(())
    }
}
