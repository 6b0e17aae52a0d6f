//! What a worker has of a store.
ghost use Rattle.std.specs.Prelude.{◌≡◌, ℕ, List, IfOk, IfSome};
ghost use Rattle.std.specs.Cow.{cow_slice_items};
ghost use Rattle.sha2.specs.Sha256.{sha256};
ghost use Rattle.ing_store.specs.Digests.{HasDigestOf};
ghost use Rattle.ing_store.specs.StoreFaults.{IsCounted};

use crate::fault::StoreFault;
use std::alloc::Global;
use std::borrow::CowSlice;

/// What a store end gives for an object, and takes to give its bytes again. It means a name and bytes, which need not be in
/// memory (own).
pub trait Receipt: Drop {
    /// The name of the object.
    ghost name: { Self → List ℕ };

    /// The bytes of the object.
    ghost bytes: { Self → List ℕ };

    /// The SHA-256 (FIPS 180-4) of the bytes, where the receipt has it, so that nobody takes it again. Takes no memory.
    fn digest(&self) -> Option<[u8; 32]>
        ensures { IfSome result (λ digest. digest ≡ sha256 (bytes self.now)) }
    {
        None
    }
}

/// What one worker has of a store of objects, each of which has a name and bytes. Its calls may wait. (Own.)
///
/// Each call answers `NoMemory` where memory ran out, and any other fault only where the end has failed
/// during the call: its count of failures rose, or stood at its last value, 2^64-1.
pub trait StoreEnd {
    /// What it gives for an object.
    type Receipt: Receipt;

    /// How often it has failed.
    ghost failure_count: { Self → ℕ };

    /// It never fails: no call raises its count of failures, and it stays such an end.
    ghost never_fails: { Self → Type 0 };

    /// An end is honest where `get` gives the bytes that its receipts mean. One over a medium where bytes may change cannot
    /// show that it is: of each end `get` gives bytes with the digest of those, and never others.
    ghost is_honest: { Type 0 };

    /// How often it has failed, up to 2^64-1. Takes no memory.
    fn failures(&self) -> u64
        ensures { result ≡ failure_count self.now };

    /// Stores an object, and gives a receipt for it. A fault leaves open whether the object is stored.
    fn put(&mut self, alloc: Global, name: &str, bytes: &[u8]) -> Result<Self::Receipt, StoreFault>
        // The receipt means what was given.
        ensures name { IfOk result (λ r. Self.Receipt.name r ≡ name.now) }
        ensures bytes { IfOk result (λ r. Self.Receipt.bytes r ≡ bytes.now) }
        // A fault has a cause.
        ensures count { IsCounted (failure_count self.old) (failure_count self.new) result }
        // One that never fails stays such an end.
        ensures sure { never_fails self.old → (never_fails self.new)
            × (failure_count self.new ≡ failure_count self.old) };

    /// Stores an object of which the SHA-256 (FIPS 180-4) is known, so that an end which needs it does not take it again. As `put`.
    fn put_digested(
        &mut self,
        alloc: Global,
        name: &str,
        bytes: &[u8],
        digest: &[u8; 32],
    ) -> Result<Self::Receipt, StoreFault>
        requires { digest.now ≡ sha256 bytes.now }
        ensures name { IfOk result (λ r. Self.Receipt.name r ≡ name.now) }
        ensures bytes { IfOk result (λ r. Self.Receipt.bytes r ≡ bytes.now) }
        ensures count { IsCounted (failure_count self.old) (failure_count self.new) result }
        ensures sure { never_fails self.old → (never_fails self.new)
            × (failure_count self.new ≡ failure_count self.old) }
    {
        self.put(alloc, name, bytes)
    }

    /// The bytes of an object, lent where they lie in memory already. `Damaged` where what lies there has another digest.
    fn get<'r>(
        &mut self,
        alloc: Global,
        receipt: &'r Self::Receipt,
    ) -> Result<CowSlice<'r, u8, Global>, StoreFault>
        // What is given has the digest of what the receipt means, and is that where the end is honest.
        ensures digest { IfOk result (λ v.
            HasDigestOf (cow_slice_items v) (Self.Receipt.bytes receipt.now)) }
        ensures bytes { is_honest →
            IfOk result (λ v. cow_slice_items v ≡ Self.Receipt.bytes receipt.now) }
        ensures count { IsCounted (failure_count self.old) (failure_count self.new) result }
        ensures sure { never_fails self.old → (never_fails self.new)
            × (failure_count self.new ≡ failure_count self.old) };

    /// A receipt of an object of this name. `None` claims nothing.
    fn find(&mut self, alloc: Global, name: &str) -> Result<Option<Self::Receipt>, StoreFault>
        ensures name { IfOk result (λ found. IfSome found (λ r. Self.Receipt.name r ≡ name.now)) }
        ensures count { IsCounted (failure_count self.old) (failure_count self.new) result }
        ensures sure { never_fails self.old → (never_fails self.new)
            × (failure_count self.new ≡ failure_count self.old) };

    /// A receipt of an object of this name, and the bytes that were read for it. The receipt means exactly these bytes. `None`
    /// claims nothing.
    fn found(
        &mut self,
        alloc: Global,
        name: &str,
    ) -> Result<Option<(Self::Receipt, Vec<u8>)>, StoreFault>
        ensures name { IfOk result (λ found.
            IfSome found (λ f. Self.Receipt.name f.0 ≡ name.now)) }
        ensures bytes { IfOk result (λ found.
            IfSome found (λ f. Self.Receipt.bytes f.0 ≡ f.1.items)) }
        ensures count { IsCounted (failure_count self.old) (failure_count self.new) result }
        ensures sure { never_fails self.old → (never_fails self.new)
            × (failure_count self.new ≡ failure_count self.old) };
}
