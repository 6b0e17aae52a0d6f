//! What is read of the shards without a lock.
ghost use Rattle.std.specs.Prelude.{◌≡◌, ◌≢◌, ◌+◌, ◌<◌, ◌≤◌, ℕ, All, IfErr, IfOk, slice_get};
ghost use Rattle.ing_node.specs.Boards.{IsNoLess, known_at, readings_at};
ghost use Rattle.ing_node.specs.Refusals.{IsRoundRefusal};

use crate::ingester::Ingester;
use crate::names::NodeName;
use ing_begun::NodeFault;
use ing_store::Receipt;
use ing_tally::{Counts, CountsReader};
use ing_wal::LogDisk;
use std::alloc::Global;
use std::marker::{Model, PhantomData};
use std::sync::Wait;

/// Reads how many entries each shard of one ingester accepted, and how many of them are stored, from any thread and without a lock.
/// Contracts see what it knows of each shard, by number.
#[derive(Drop)]
pub struct BoardReader<N: NodeName> {
    shards: Vec<CountsReader>,
    of: PhantomData<N>,
}

impl<N: NodeName> Model for BoardReader<N> {
    ghost use Rattle.std.specs.Prelude.{◌≡◌, List, vec_len};
    ghost use Rattle.ing_tally.specs.Counts.{ReaderState};
    ghost use Rattle.ing_node.specs.Boards.{AreReadersOf};

    ghost Value = { List ReaderState };

    ghost view = { λ reader. reader.shards.items };

    ghost invariant = { λ reader. (vec_len reader.shards ≡ N.settings.shards)
        × AreReadersOf N.books reader.shards.items };
}

impl<N: NodeName> BoardReader<N> {
    /// How many entries a shard accepted, and how many of them are stored, each at some moment of the call: no more stored than
    /// accepted, and neither less than this reader knew. It takes no lock and no memory, and waits for nothing (own).
    pub fn read(&mut self, shard: u32) -> Counts
        requires { shard < N.settings.shards }
        ensures ordered { result.stored ≤ result.accepted }
        ensures later { IsNoLess (known_at shard self.old) result }
        ensures known { known_at shard self.new ≡ result }
        ensures readings { readings_at shard self.new ≡ readings_at shard self.old + 1 }
        ensures others { (i : ℕ) → i ≢ shard → slice_get self.new i ≡ slice_get self.old i }
    {
        self.shards[shard as usize].read()
    }
}

impl<N: NodeName, D: LogDisk, R: Receipt> Ingester<N, D, R> {
    /// A new reader of all shards, which knows of each what it counts now: each lock is taken once, for this. `Misplaced`, and
    /// `NoMemory`. (Own.)
    pub fn reader<W: Wait>(&self, rt: &W, alloc: Global) -> Result<BoardReader<N>, NodeFault>
        ensures unread { IfOk result (All (λ known. known.readings ≡ 0)) }
        ensures refused { IfErr result (IsRoundRefusal N.settings.shards) }
    {
        let mut shards = Vec::with_capacity(alloc, self.shards.len())?;
        for place in 0..self.shards.len() {
            let reader = self.shards[place].lock(rt).reader(place as u32)?;
            shards.push_reserved(reader);
        }
        Ok(BoardReader {
            shards,
            of: PhantomData,
        })
    }
}
