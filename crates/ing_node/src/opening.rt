//! The locks of an ingester, and what its shards begin with, while it is opened.
ghost use Rattle.std.specs.Prelude.{◌≡◌, ◌+◌, ◌++◌, ◌∷◌, [], ◌≤◌, false, IfOk, vec_capacity, vec_len};
ghost use Rattle.ing_flush.specs.Tallies.{AreStoredIn};
ghost use Rattle.ing_begun.specs.Begun.{HasTornLog, IsBegunAs};
ghost use Rattle.ing_node.specs.Names.{AreAcceptedIn};
ghost use Rattle.ing_begun.specs.Books.{names_of};

use crate::held::Held;
use crate::names::NodeName;
use ing_begun::{Begun, Told};
use ing_store::Receipt;
use ing_tally::Share;
use ing_wal::LogDisk;
use std::alloc::{AllocError, Global};
use std::sync::Mutex;

/// The first shards of an ingester, behind their locks, and shares of what each of them begins with. It cannot be dropped.
pub(crate) struct Opening<N: NodeName, D: LogDisk, R: Receipt> {
    pub(crate) locks: Vec<Mutex<Held<N, D, R>>>,
    pub(crate) told: Vec<Told>,
    pub(crate) stored: Vec<Share>,
    ghost all_told: { vec_len told ≡ vec_len locks },
    ghost all_stored: { vec_len stored ≡ vec_len locks },
    ghost own_told: { AreAcceptedIn N.books told.items },
    ghost own_stored: { AreStoredIn N.books stored.items },
}

impl<N: NodeName, D: LogDisk, R: Receipt> Opening<N, D, R> {
    /// None yet, with room for so many.
    pub(crate) fn new(alloc: Global, count: usize) -> Result<Opening<N, D, R>, AllocError>
        ensures locks { IfOk result (λ o. (vec_len o.locks ≡ 0) × (count ≤ vec_capacity o.locks)) }
        ensures told { IfOk result (λ o. (o.told.items ≡ []) × (count ≤ vec_capacity o.told)) }
        ensures stored { IfOk result (λ o. (o.stored.items ≡ []) × (count ≤ vec_capacity o.stored)) }
    {
        let stored = Vec::with_capacity(alloc, count)?;
        let Ok(told) = Vec::with_capacity(alloc, count) else {
            stored.destroy_empty();
            return Err(AllocError);
        };
        match Vec::with_capacity(alloc, count) {
            Ok(locks) => Ok(Opening {
                locks,
                told,
                stored,
            }),
            Err(error) => {
                stored.destroy_empty();
                told.destroy_empty();
                Err(error)
            }
        }
    }

    /// One more, of the next number.
    pub(crate) fn add(&mut self, begun: Begun<D, R>)
        requires begun { IsBegunAs N.settings (vec_len self.old.locks) begun }
        requires named { names_of begun.shard.memory.books ≡ N.books (vec_len self.old.locks) }
        requires torn { N.has_logs ≡ false → HasTornLog begun }
        requires locks { vec_len self.old.locks + 1 ≤ vec_capacity self.old.locks }
        requires told { vec_len self.old.locks + 1 ≤ vec_capacity self.old.told }
        requires stored { vec_len self.old.locks + 1 ≤ vec_capacity self.old.stored }
        ensures locks { (vec_len self.new.locks ≡ vec_len self.old.locks + 1)
            × (vec_capacity self.new.locks ≡ vec_capacity self.old.locks) }
        ensures told { (self.new.told.items ≡ self.old.told.items ++ begun.accepted ∷ [])
            × (vec_capacity self.new.told ≡ vec_capacity self.old.told) }
        ensures stored { (self.new.stored.items ≡ self.old.stored.items ++ begun.stored ∷ [])
            × (vec_capacity self.new.stored ≡ vec_capacity self.old.stored) }
    {
        let Begun {
            shard,
            accepted,
            stored,
        } = begun;
        self.locks.push_reserved(Mutex::new(Held::new(shard)));
        self.told.push_reserved(accepted);
        self.stored.push_reserved(stored);
    }
}
