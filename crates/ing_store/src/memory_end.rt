//! An end of a store in memory, and which of its calls fail.
ghost use Rattle.std.specs.Prelude.{◌≡◌, ◌≢◌, ◌↔◌, IfOk, IfErr, IsErr, IfSome, true, Err};
ghost use Rattle.std.specs.Cow.{cow_slice_items};
ghost use Rattle.ing_store.specs.Digests.{HasDigestOf};
ghost use Rattle.ing_store.specs.MemoryEnds.{called, is_failing, new_end, fails_at};
ghost use Rattle.ing_store.specs.StoreFaults.{IsCounted};
ghost use Rattle.ing_store.specs.StoredObjects.{stored_object};

use crate::fault::StoreFault;
use crate::memory_store::{MemoryReceipt, MemoryStore};
use crate::store_end::StoreEnd;
use std::alloc::Global;
use std::borrow::CowSlice;
use std::marker::Model;
use std::sync::Wait;

/// An honest end of a store in memory. Contracts see which of its calls fail, how many calls it was given,
/// and how often it has failed, both up to 2^64-1. (Own.)
#[derive(Drop)]
pub struct MemoryEnd<'a, R: Wait> {
    rt: &'a R,
    store: &'a MemoryStore,
    fuse: Fuse,
    calls: u64,
    failures: u64,
}

impl<'a, R: Wait> Model for MemoryEnd<'a, R> {
    ghost use Rattle.ing_store.specs.MemoryEnds.{EndState};

    ghost Value = { EndState };

    ghost view = { λ e. record { fuse = e.fuse; calls = e.calls; failures = e.failures } };
}

impl<'a, R: Wait> MemoryEnd<'a, R> {
    /// An end of this store that was given no call.
    pub(crate) fn of(rt: &'a R, store: &'a MemoryStore, fuse: Fuse) -> MemoryEnd<'a, R>
        ensures { result ≡ new_end fuse }
    {
        MemoryEnd {
            rt,
            store,
            fuse,
            calls: 0,
            failures: 0,
        }
    }

    /// Counts a call, and says whether it fails.
    fn fails(&mut self) -> bool
        ensures fails { result ≡ is_failing self.old }
        ensures counted { self.new ≡ called self.old }
    {
        let fails = self.fuse.fails_at(self.calls);
        self.calls = self.calls.saturating_add(1);
        if fails {
            self.failures = self.failures.saturating_add(1);
        }
        fails
    }
}

impl<'a, R: Wait> StoreEnd for MemoryEnd<'a, R> {
    ghost use Rattle.std.specs.Prelude.{◌≡◌, ⊤};
    ghost use Rattle.ing_store.specs.declared.memory_end.Fuse.{Fuse};

    type Receipt = MemoryReceipt<'a>;

    ghost failure_count = { λ e. e.failures };

    ghost never_fails = { λ e. e.fuse ≡ Fuse.None };

    ghost is_honest = { ⊤ };

    fn failures(&self) -> u64 {
        self.failures
    }

    /// Stores an object. Where one of this name with these bytes is there, nothing is written again. `Failed`
    /// where the call fails, and `NoMemory` where memory ran out.
    fn put(
        &mut self,
        alloc: Global,
        name: &str,
        bytes: &[u8],
    ) -> Result<MemoryReceipt<'a>, StoreFault>
        ensures name { IfOk result (λ r. r.object.now.name ≡ name.now) }
        ensures bytes { IfOk result (λ r. r.object.now.bytes ≡ bytes.now) }
        ensures count { IsCounted self.old.failures self.new.failures result }
        ensures sure { self.old.fuse ≡ Fuse.None → (self.new.fuse ≡ Fuse.None)
            × (self.new.failures ≡ self.old.failures) }
        // Exactly the calls of the fuse fail, and each call counts.
        ensures fails { (is_failing self.old ≡ true) ↔ (result ≡ Err StoreFault.Failed) }
        ensures undamaged { result ≢ Err StoreFault.Damaged }
        ensures called { self.new ≡ called self.old }
    {
        if self.fails() {
            if matches!(self.fuse, Fuse::StoredYetFailed(_)) {
                let _ = self.store.write(self.rt, alloc, name, bytes);
            }
            return Err(StoreFault::Failed);
        }
        let object = self.store.write(self.rt, alloc, name, bytes)?;
        Ok(MemoryReceipt { object })
    }

    /// The bytes of an object, lent. `Failed` where the call fails. Takes no memory.
    fn get<'r>(
        &mut self,
        alloc: Global,
        receipt: &'r MemoryReceipt<'a>,
    ) -> Result<CowSlice<'r, u8, Global>, StoreFault>
        ensures digest { IfOk result (λ v.
            HasDigestOf (cow_slice_items v) receipt.now.object.now.bytes) }
        ensures bytes { IfOk result (λ v. cow_slice_items v ≡ receipt.now.object.now.bytes) }
        ensures count { IsCounted self.old.failures self.new.failures result }
        ensures sure { self.old.fuse ≡ Fuse.None → (self.new.fuse ≡ Fuse.None)
            × (self.new.failures ≡ self.old.failures) }
        ensures fails { (is_failing self.old ≡ true) ↔ IsErr result }
        ensures fault { IfErr result (λ fault. fault ≡ StoreFault.Failed) }
        ensures called { self.new ≡ called self.old }
    {
        if self.fails() {
            return Err(StoreFault::Failed);
        }
        Ok(CowSlice::Borrowed(receipt.object.bytes()))
    }

    /// The object of this name that was written last. `None` claims nothing. `Failed` where the call fails.
    /// Takes no memory.
    fn find(&mut self, alloc: Global, name: &str) -> Result<Option<MemoryReceipt<'a>>, StoreFault>
        ensures name { IfOk result (λ found. IfSome found (λ r. r.object.now.name ≡ name.now)) }
        ensures count { IsCounted self.old.failures self.new.failures result }
        ensures sure { self.old.fuse ≡ Fuse.None → (self.new.fuse ≡ Fuse.None)
            × (self.new.failures ≡ self.old.failures) }
        ensures fails { (is_failing self.old ≡ true) ↔ IsErr result }
        ensures fault { IfErr result (λ fault. fault ≡ StoreFault.Failed) }
        ensures called { self.new ≡ called self.old }
    {
        if self.fails() {
            return Err(StoreFault::Failed);
        }
        Ok(
            self.store
                .object(self.rt, name)
                .map(|object| MemoryReceipt { object }),
        )
    }

    /// The object of this name that was written last, and a copy of its bytes. `None` claims nothing. `Failed` where the call
    /// fails, and `NoMemory` where memory ran out.
    fn found(
        &mut self,
        alloc: Global,
        name: &str,
    ) -> Result<Option<(MemoryReceipt<'a>, Vec<u8>)>, StoreFault>
        ensures name { IfOk result (λ found.
            IfSome found (λ f. f.0.object.now.name ≡ name.now)) }
        ensures bytes { IfOk result (λ found.
            IfSome found (λ f. f.0.object.now.bytes ≡ f.1.items)) }
        ensures count { IsCounted self.old.failures self.new.failures result }
        ensures sure { self.old.fuse ≡ Fuse.None → (self.new.fuse ≡ Fuse.None)
            × (self.new.failures ≡ self.old.failures) }
        // Exactly the calls of the fuse fail, and each call counts.
        ensures fails { (is_failing self.old ≡ true) ↔ (result ≡ Err StoreFault.Failed) }
        ensures undamaged { result ≢ Err StoreFault.Damaged }
        ensures called { self.new ≡ called self.old }
    {
        if self.fails() {
            return Err(StoreFault::Failed);
        }
        let Some(object) = self.store.object(self.rt, name) else {
            return Ok(None);
        };
        let bytes = object.bytes().to_vec(alloc)?;
        Ok(Some((MemoryReceipt { object }, bytes)))
    }
}

/// Which calls of an end of a store in memory fail, by their numbers. The calls `put`, `get`, `find` and `found` are
/// counted together, from 0. (Own.)
#[derive(Clone, Copy, Debug, PartialEq, Eq)]
pub enum Fuse {
    /// None fails.
    None,
    /// The call of this number fails, and does nothing.
    Failed(u64),
    /// The call of this number fails; where it is a `put`, it stores the object and fails yet.
    StoredYetFailed(u64),
    /// The call of this number and each later one fail, and do nothing.
    FailedFrom(u64),
}

impl Fuse {
    /// Whether the call of this number fails. Takes no memory.
    pub fn fails_at(self, call: u64) -> bool
        ensures { result ≡ fails_at self call }
    {
        match self {
            Fuse::None => false,
            Fuse::Failed(k) => call == k,
            Fuse::StoredYetFailed(k) => call == k,
            Fuse::FailedFrom(k) => k <= call,
        }
    }
}
