//! An end of a store whose receipts own what was put.

use crate::lots::Lots;
use ing_store::{Receipt, StoreEnd, StoreFault};
use std::alloc::Global;
use std::borrow::CowSlice;

/// An object, which its receipt owns.
#[derive(Drop)]
pub struct Object {
    name: String,
    bytes: Vec<u8>,
}

impl Receipt for Object {
    ghost use Rattle.std.specs.Prelude.{string_bytes};

    ghost name = { λ object. string_bytes object.name };

    ghost bytes = { λ object. object.bytes.items };
}

/// An end of a store whose receipts own what was put, so that it may go to any thread. Of its puts one in so many fails, by lot,
/// or none where that is 0; one that is dead gives no bytes.
#[derive(Drop)]
pub struct KeptEnd {
    lots: Lots,
    odds: u64,
    is_dead: bool,
    failures: u64,
}

impl KeptEnd {
    /// An end of which one put in so many fails, by these lots.
    pub fn new(lots: Lots, odds: u64) -> KeptEnd {
        KeptEnd {
            lots,
            odds,
            is_dead: false,
            failures: 0,
        }
    }

    /// An end that gives no bytes.
    pub fn dead() -> KeptEnd {
        KeptEnd {
            lots: Lots::of(0),
            odds: 0,
            is_dead: true,
            failures: 0,
        }
    }
}

impl StoreEnd for KeptEnd {
    ghost use Rattle.std.specs.Prelude.{⊤};

    type Receipt = Object;

    ghost failure_count = { λ end. end.failures };

    ghost never_fails = { λ _. ⊥ };

    ghost is_honest = { ⊤ };

    fn failures(&self) -> u64 {
        self.failures
    }

    fn put(&mut self, alloc: Global, name: &str, bytes: &[u8]) -> Result<Object, StoreFault> {
        if self.odds > 0 && self.lots.below(self.odds) == 0 {
            self.failures = self.failures.saturating_add(1);
            return Err(StoreFault::Failed);
        }
        Ok(Object {
            name: String::from_str(alloc, name)?,
            bytes: bytes.to_vec(alloc)?,
        })
    }

    fn get<'r>(
        &mut self,
        alloc: Global,
        receipt: &'r Object,
    ) -> Result<CowSlice<'r, u8, Global>, StoreFault> {
        if self.is_dead {
            self.failures = self.failures.saturating_add(1);
            return Err(StoreFault::Failed);
        }
        Ok(CowSlice::Borrowed(receipt.bytes.as_slice()))
    }

    /// Claims nothing.
    fn find(&mut self, alloc: Global, name: &str) -> Result<Option<Object>, StoreFault> {
        Ok(None)
    }

    /// Claims nothing.
    fn found(
        &mut self,
        alloc: Global,
        name: &str,
    ) -> Result<Option<(Object, Vec<u8>)>, StoreFault> {
        Ok(None)
    }
}
