//! A store in a folder.
ghost use Rattle.std.specs.Prelude.{◌≡◌, ◌≤◌, IfOk};
ghost use Rattle.ing_refusals.specs.Failures.{HasFailed};
ghost use Rattle.ing_store.specs.StoreFaults.{IsCounted};

use crate::folder::{FolderFault, make_folder, path_in, read_file, replace_file};
use ing_store::{DigestReceipt, StoreEnd, StoreFault};
use sha2::{Digest, Sha256};
use std::alloc::{AllocError, Global};
use std::borrow::CowSlice;
use std::marker::Model;
use std::rt::Files;

/// An end of a store in a folder, in which each object is the file of its name. Contracts see how often it has failed, up to
/// 2^64-1.
///
/// A file is written beside, synced and renamed, so that a stop leaves the whole object or none, and `put` answers Ok only after
/// that. Its receipts hold the SHA-256 (FIPS 180-4) of the bytes, not the bytes. It does not claim to be honest: it gives no
/// bytes of another digest, and more no file can show. (Own.)
#[derive(Drop)]
pub struct FolderStore<'a, R: Files + AllocGlobal> {
    rt: &'a R,
    folder: String,
    number: u32,
    failures: u64,
}

impl<'a, R: Files + AllocGlobal> Model for FolderStore<'a, R> {
    ghost use Rattle.std.specs.Prelude.{ℕ};

    ghost Value = { ℕ };

    ghost view = { λ e. e.failures };
}

impl<'a, R: Files + AllocGlobal> FolderStore<'a, R> {
    /// An end over the folder at this path, which is made where it is absent. The ends of one folder have numbers of their own:
    /// what they write beside has that number in its name. `Failed` where there is no such folder and none can be made.
    pub fn open(
        rt: &'a R,
        alloc: Global,
        folder: &str,
        number: u32,
    ) -> Result<FolderStore<'a, R>, FolderFault>
        ensures { IfOk result (λ end. end ≡ 0) }
    {
        make_folder(rt, alloc, folder)?;
        Ok(FolderStore::over(rt, alloc, folder, number)?)
    }

    /// An end over the folder at this path, for one who reads alone: where there is no such folder, nothing is found in it.
    pub fn reading(rt: &'a R, alloc: Global, folder: &str) -> Result<FolderStore<'a, R>, AllocError>
        ensures { IfOk result (λ end. end ≡ 0) }
    {
        FolderStore::over(rt, alloc, folder, 0)
    }

    /// An end of this number over a folder.
    fn over(
        rt: &'a R,
        alloc: Global,
        folder: &str,
        number: u32,
    ) -> Result<FolderStore<'a, R>, AllocError>
        ensures { IfOk result (λ end. end ≡ 0) }
    {
        Ok(FolderStore {
            rt,
            folder: String::from_str(alloc, folder)?,
            number,
            failures: 0,
        })
    }

    /// Counts a failure.
    fn count(&mut self)
        ensures risen { HasFailed self.old self.new }
        ensures kept { self.old ≤ self.new }
    {
        self.failures = self.failures.saturating_add(1);
    }

    /// What the file of this name has now.
    fn read(&mut self, alloc: Global, name: &str) -> Result<Option<Vec<u8>>, StoreFault>
        ensures count { IsCounted self.old self.new result }
    {
        match self.try_read(alloc, name) {
            Ok(found) => Ok(found),
            Err(FolderFault::NoMemory) => Err(StoreFault::NoMemory),
            Err(FolderFault::Failed) => {
                self.count();
                Err(StoreFault::Failed)
            }
        }
    }

    /// The same, without a count. `Failed` where the name is no plain name of a file.
    fn try_read(&self, alloc: Global, name: &str) -> Result<Option<Vec<u8>>, FolderFault> {
        if !is_plain(name) {
            return Err(FolderFault::Failed);
        }
        let path = path_in(alloc, self.folder.as_str(), name)?;
        read_file(self.rt, path.as_str())
    }

    /// Writes the file of this name, without a count.
    fn try_write(&self, alloc: Global, name: &str, bytes: &[u8]) -> Result<(), FolderFault> {
        if !is_plain(name) {
            return Err(FolderFault::Failed);
        }
        let path = path_in(alloc, self.folder.as_str(), name)?;
        let beside = format!(in alloc; "{}.{}.new", path.as_str(), self.number)?;
        replace_file(
            self.rt,
            self.folder.as_str(),
            path.as_str(),
            beside.as_str(),
            bytes,
        )?;
        Ok(())
    }
}

/// Whether a text is the name of a file of a folder and of nothing else: not empty, without a slash, and no dot in front.
fn is_plain(name: &str) -> bool {
    !name.is_empty() && !name.starts_with(".") && !name.contains("/")
}

impl<'a, R: Files + AllocGlobal> StoreEnd for FolderStore<'a, R> {
    type Receipt = DigestReceipt;

    ghost failure_count = { λ e. e };

    ghost never_fails = { λ _. ⊥ };

    /// Not shown: files may give other bytes of the same digest.
    ghost is_honest = { ⊥ };

    fn failures(&self) -> u64 {
        self.failures
    }

    fn put(
        &mut self,
        alloc: Global,
        name: &str,
        bytes: &[u8],
    ) -> Result<DigestReceipt, StoreFault> {
        let digest = Sha256::digest(bytes);
        self.put_digested(alloc, name, bytes, &digest)
    }

    fn put_digested(
        &mut self,
        alloc: Global,
        name: &str,
        bytes: &[u8],
        digest: &[u8; 32],
    ) -> Result<DigestReceipt, StoreFault> {
        let receipt = DigestReceipt::of_digested(alloc, name, bytes, digest)?;
        match self.try_write(alloc, name, bytes) {
            Ok(()) => Ok(receipt),
            Err(FolderFault::NoMemory) => Err(StoreFault::NoMemory),
            Err(FolderFault::Failed) => {
                self.count();
                Err(StoreFault::Failed)
            }
        }
    }

    /// `Failed` where there is no such file, and `Damaged` where its bytes have another digest.
    fn get<'r>(
        &mut self,
        alloc: Global,
        receipt: &'r DigestReceipt,
    ) -> Result<CowSlice<'r, u8, Global>, StoreFault> {
        let Some(bytes) = self.read(alloc, receipt.name())? else {
            self.count();
            return Err(StoreFault::Failed);
        };
        if receipt.is_of(&bytes) {
            Ok(CowSlice::Owned(bytes))
        } else {
            self.count();
            Err(StoreFault::Damaged)
        }
    }

    /// Reads the whole file, as the receipt means the bytes that it has now.
    fn find(&mut self, alloc: Global, name: &str) -> Result<Option<DigestReceipt>, StoreFault> {
        match self.read(alloc, name)? {
            Some(bytes) => Ok(Some(DigestReceipt::of(alloc, name, &bytes)?)),
            None => Ok(None),
        }
    }

    fn found(
        &mut self,
        alloc: Global,
        name: &str,
    ) -> Result<Option<(DigestReceipt, Vec<u8>)>, StoreFault> {
        match self.read(alloc, name)? {
            Some(bytes) => {
                let receipt = DigestReceipt::of(alloc, name, &bytes)?;
                Ok(Some((receipt, bytes)))
            }
            None => Ok(None),
        }
    }
}
