//! The ends of one store that a service has.
ghost use Rattle.std.specs.Prelude.{◌≡◌, ◌+◌, All, sum_by};
ghost use Rattle.ing_service.specs.Ends.{NeverFail, failures_in, up_to_last};

use ing_store::{StoreEnd, StoreFault};
use std::alloc::Global;
use std::borrow::CowSlice;

/// The ends of one store: one of a thread's own, and others, through which it has chunks uploaded side by side. As an end it is the thread's
/// own, but that all of them count their failures together, up to 2^64-1. (Own.)
#[derive(Drop)]
pub struct Ends<S> {
    pub(crate) own: S,
    pub(crate) others: Vec<S>,
}

impl<S: StoreEnd> Ends<S> {
    /// An end of a thread's own, and others; without others nothing is uploaded side by side. Takes no memory.
    pub fn of(own: S, others: Vec<S>) -> Ends<S>
        ensures failures { failures_in S.failure_count result ≡ up_to_last (S.failure_count own + sum_by S.failure_count others.items) }
        ensures sure { S.never_fails own → All S.never_fails others.items → NeverFail S.never_fails result }
    {
        Ends { own, others }
    }
}

impl<S: StoreEnd> StoreEnd for Ends<S> {
    type Receipt = S::Receipt;

    ghost use Rattle.ing_service.specs.Ends.{NeverFail, failures_in};

    ghost failure_count = { failures_in S.failure_count };

    ghost never_fails = { NeverFail S.never_fails };

    ghost is_honest = { S.is_honest };

    fn failures(&self) -> u64 {
        let mut all = self.own.failures();
        for other in &self.others {
            all = all.saturating_add(other.failures());
        }
        all
    }

    fn put(&mut self, alloc: Global, name: &str, bytes: &[u8]) -> Result<S::Receipt, StoreFault> {
        self.own.put(alloc, name, bytes)
    }

    fn put_digested(
        &mut self,
        alloc: Global,
        name: &str,
        bytes: &[u8],
        digest: &[u8; 32],
    ) -> Result<S::Receipt, StoreFault> {
        self.own.put_digested(alloc, name, bytes, digest)
    }

    fn get<'r>(
        &mut self,
        alloc: Global,
        receipt: &'r S::Receipt,
    ) -> Result<CowSlice<'r, u8, Global>, StoreFault> {
        self.own.get(alloc, receipt)
    }

    fn find(&mut self, alloc: Global, name: &str) -> Result<Option<S::Receipt>, StoreFault> {
        self.own.find(alloc, name)
    }

    fn found(
        &mut self,
        alloc: Global,
        name: &str,
    ) -> Result<Option<(S::Receipt, Vec<u8>)>, StoreFault> {
        self.own.found(alloc, name)
    }
}
