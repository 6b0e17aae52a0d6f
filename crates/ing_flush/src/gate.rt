//! What stands before each put, and an end of a store behind it.

use ing_shard::Op;
use ing_store::{StoreEnd, StoreFault};
use std::alloc::Global;
use std::borrow::CowSlice;

/// What a flusher asks before each put, with no shard held (own). It may wait.
pub trait Gate {
    /// Lets the next put of this operation through.
    fn pass(&mut self, op: &Op);
}

/// A gate that is always open.
#[derive(Clone, Copy, Debug, Default, PartialEq, Eq)]
pub struct FreeGate;

impl Gate for FreeGate {
    fn pass(&mut self, _op: &Op) {}
}

/// An end of a store and a gate that each put passes first; the operation that is worked off.
#[derive(Drop)]
pub(crate) struct GatedEnd<S: StoreEnd, G: Gate> {
    pub(crate) end: S,
    pub(crate) gate: G,
    pub(crate) op: Op,
}

impl<S: StoreEnd, G: Gate> StoreEnd for GatedEnd<S, G> {
    type Receipt = S::Receipt;

    ghost failure_count = { λ gated. S.failure_count gated.end };

    ghost never_fails = { λ gated. S.never_fails gated.end };

    ghost is_honest = { S.is_honest };

    fn failures(&self) -> u64 {
        self.end.failures()
    }

    fn put(&mut self, alloc: Global, name: &str, bytes: &[u8]) -> Result<S::Receipt, StoreFault> {
        self.gate.pass(&self.op);
        self.end.put(alloc, name, bytes)
    }

    fn put_digested(
        &mut self,
        alloc: Global,
        name: &str,
        bytes: &[u8],
        digest: &[u8; 32],
    ) -> Result<S::Receipt, StoreFault> {
        self.gate.pass(&self.op);
        self.end.put_digested(alloc, name, bytes, digest)
    }

    fn get<'r>(
        &mut self,
        alloc: Global,
        receipt: &'r S::Receipt,
    ) -> Result<CowSlice<'r, u8, Global>, StoreFault> {
        self.end.get(alloc, receipt)
    }

    fn find(&mut self, alloc: Global, name: &str) -> Result<Option<S::Receipt>, StoreFault> {
        self.end.find(alloc, name)
    }

    fn found(
        &mut self,
        alloc: Global,
        name: &str,
    ) -> Result<Option<(S::Receipt, Vec<u8>)>, StoreFault> {
        self.end.found(alloc, name)
    }
}
