//! An end of a store over files.
ghost use Rattle.std.specs.Prelude.{◌≡◌, ◌≤◌, IfOk};
ghost use Rattle.ing_refusals.specs.Failures.{HasFailed};
ghost use Rattle.ing_store.specs.StoreFaults.{IsCounted};

use crate::files::{FileFault, Files};
use ing_store::{DigestReceipt, StoreEnd, StoreFault};
use std::alloc::{AllocError, Global};
use std::borrow::CowSlice;
use std::marker::Model;

/// An end of a store over files of which nothing is known. Contracts see how often it has failed, up to 2^64-1.
#[derive(Drop)]
pub struct FilesEnd<F: Files> {
    /// The files.
    pub files: F,
    failures: u64,
}

impl<F: Files> Model for FilesEnd<F> {
    ghost use Rattle.std.specs.Prelude.{ℕ};

    ghost Value = { ℕ };

    ghost view = { λ e. e.failures };
}

impl<F: Files> FilesEnd<F> {
    /// An end over these files, which has not failed.
    pub fn of(files: F) -> FilesEnd<F>
        ensures { result ≡ 0 }
    {
        FilesEnd { files, failures: 0 }
    }

    /// Counts a failure.
    fn count(&mut self)
        ensures risen { HasFailed self.old self.new }
        ensures kept { self.old ≤ self.new }
    {
        self.failures = self.failures.saturating_add(1);
    }

    /// What the file of this name has now.
    fn read(&mut self, alloc: Global, name: &str) -> Result<Option<Vec<u8>>, StoreFault>
        ensures count { IsCounted self.old self.new result }
    {
        match self.files.read(alloc, name) {
            Ok(found) => Ok(found),
            Err(FileFault::NoMemory) => Err(StoreFault::NoMemory),
            Err(FileFault::Failed) => {
                self.count();
                Err(StoreFault::Failed)
            }
        }
    }
}

/// What was read of a file, behind the receipt that means it.
fn with_receipt(
    alloc: Global,
    name: &str,
    bytes: Vec<u8>,
) -> Result<(DigestReceipt, Vec<u8>), AllocError>
    ensures name { IfOk result (λ f. f.0.name ≡ name.now) }
    ensures bytes { IfOk result (λ f. f.0.bytes ≡ f.1.items) }
{
    let receipt = DigestReceipt::of(alloc, name, &bytes)?;
    Ok((receipt, bytes))
}

impl<F: Files> StoreEnd for FilesEnd<F> {
    type Receipt = DigestReceipt;

    ghost failure_count = { λ e. e };

    ghost never_fails = { λ _. ⊥ };

    /// Not shown: files may give other bytes of the same digest.
    ghost is_honest = { ⊥ };

    fn failures(&self) -> u64 {
        self.failures
    }

    fn put(
        &mut self,
        alloc: Global,
        name: &str,
        bytes: &[u8],
    ) -> Result<DigestReceipt, StoreFault> {
        let receipt = DigestReceipt::of(alloc, name, bytes)?;
        match self.files.write(alloc, name, bytes) {
            Ok(()) => Ok(receipt),
            Err(FileFault::NoMemory) => Err(StoreFault::NoMemory),
            Err(FileFault::Failed) => {
                self.count();
                Err(StoreFault::Failed)
            }
        }
    }

    /// `Failed` where there is no such file, and `Damaged` where its bytes have another digest.
    fn get<'r>(
        &mut self,
        alloc: Global,
        receipt: &'r DigestReceipt,
    ) -> Result<CowSlice<'r, u8, Global>, StoreFault> {
        let Some(bytes) = self.read(alloc, receipt.name())? else {
            self.count();
            return Err(StoreFault::Failed);
        };
        if receipt.is_of(&bytes) {
            Ok(CowSlice::Owned(bytes))
        } else {
            self.count();
            Err(StoreFault::Damaged)
        }
    }

    fn find(&mut self, alloc: Global, name: &str) -> Result<Option<DigestReceipt>, StoreFault> {
        match self.read(alloc, name)? {
            Some(bytes) => Ok(Some(DigestReceipt::of(alloc, name, &bytes)?)),
            None => Ok(None),
        }
    }

    fn found(
        &mut self,
        alloc: Global,
        name: &str,
    ) -> Result<Option<(DigestReceipt, Vec<u8>)>, StoreFault> {
        match self.read(alloc, name)? {
            Some(bytes) => {
                let (receipt, bytes) = with_receipt(alloc, name, bytes)?;
                Ok(Some((receipt, bytes)))
            }
            None => Ok(None),
        }
    }
}
