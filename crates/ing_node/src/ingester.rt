//! The shards behind their locks.
ghost use Rattle.std.specs.Prelude.{◌≡◌, ◌⊎◌, ◌+◌, ◌<◌, ◌≤◌, ◌^◌, [], All, IfOk, IfErr, OnOk, false, true, is_some, length, reverse, vec_len};
ghost use Rattle.std.specs.List.{AllByRecursion};
ghost use Rattle.ing_flush.specs.Tallies.{AreStoredIn};
ghost use Rattle.ing_begun.specs.Begun.{HasTornLog};
ghost use Rattle.ing_node.specs.Earlier.{earlier_of};
ghost use Rattle.ing_node.specs.Diaries.{notes_kept};
ghost use Rattle.ing_node.specs.Queries.{AreGauges};
ghost use Rattle.ing_node.specs.Names.{AreAcceptedIn, AreNamed};
ghost use Rattle.ing_node.specs.Refusals.{IsLockRefusal, IsShareRefusal};

use crate::diaries::new_diary;
use crate::earlier::Earlier;
use crate::fronts::fronts_of;
use crate::held::Held;
use crate::names::NodeName;
use crate::opening::Opening;
use crate::pusher::Pusher;
use ing_begun::{Due, NodeFault, Shards, Told};
use ing_flush::FlusherTally;
use ing_places::Places;
use ing_rows::{Gauges, Stamp, Tenant};
use ing_store::Receipt;
use ing_tally::Share;
use ing_wal::LogDisk;
use std::alloc::Global;
use std::marker::PhantomData;
use std::sync::{Mutex, Wait};

/// The shards of one ingester, each behind a lock at the place of its number. Any number of threads may push, flush and query
/// through it.
#[derive(Drop)]
pub struct Ingester<N: NodeName, D: LogDisk, R: Receipt> {
    /// What its locks' holders take memory of, where a call does not say.
    pub(crate) alloc: Global,
    pub(crate) shards: Vec<Mutex<Held<N, D, R>>>,
    ghost all: { vec_len shards ≡ N.settings.shards },
    ghost some: { 0 < vec_len shards },
    ghost few: { vec_len shards < 2 ^ 32 },
}

impl<N: NodeName, D: LogDisk, R: Receipt> Ingester<N, D, R> {
    /// The ingester of these shards, which N has to name: their settings, their books by number, and the shares of what they began with,
    /// which stand beside it (where the settings want diaries, with how many entries each stream had); and where N says that there are no logs, each is torn. Where memory runs out the shards come back.
    pub fn open(
        alloc: Global,
        shards: Shards<D, R>,
    ) -> Result<(Ingester<N, D, R>, Earlier<N>), Shards<D, R>>
        requires settings { shards.settings ≡ N.settings }
        requires named { AreNamed N.books (reverse shards.last_first.items) }
        requires earlier { N.earlier ≡ earlier_of (reverse shards.last_first.items) }
        requires torn { N.has_logs ≡ false → AllByRecursion HasTornLog (reverse shards.last_first.items) }
        ensures back { IfErr result (λ back. back ≡ shards) }
    {
        let Ok(fronts) = fronts_of(alloc, &shards) else {
            return Err(shards);
        };
        let Ok(mut opening) = Opening::new(alloc, shards.last_first.len()) else {
            return Err(shards);
        };
        let Shards {
            settings: _,
            mut last_first,
        } = shards;
        while let Some(begun) = last_first.pop() {
            opening.add(begun);
        }
        last_first.destroy_empty();
        let Opening {
            locks,
            told,
            stored,
        } = opening;
        let ingester = Ingester {
            alloc,
            shards: locks,
        };
        let earlier = Earlier {
            told,
            stored: FlusherTally::of_shares(stored),
            fronts,
            of: PhantomData,
        };
        Ok((ingester, earlier))
    }

    /// A new pusher, which was told nothing yet, and which keeps a diary where that is asked for: then a closing can compare each
    /// entry. `CounterFull` where 2^62 shares of a shard are out, `Misplaced`, and `NoMemory`; then no share more is out.
    pub fn pusher<W: Wait>(
        &self,
        rt: &W,
        alloc: Global,
        diary: bool,
    ) -> Result<Pusher<N>, NodeFault>
        ensures zero { IfOk result (λ pusher. All (λ share. share.amount ≡ 0) pusher.told) }
        ensures diary { IfOk result (λ pusher. is_some pusher.diary ≡ diary) }
        ensures empty { IfOk result (λ pusher. notes_kept pusher.diary ≡ []) }
        ensures refused { IfErr result (IsShareRefusal N.settings.shards) }
    {
        let places = Places::new(alloc, self.shards.len() as u32)?;
        let mut told = Vec::with_capacity(alloc, self.shards.len())?;
        for place in 0..self.shards.len() {
            match self.shards[place].lock(rt).push_share(place as u32) {
                Ok(share) => told.push_reserved(Told { share, amount: 0 }),
                Err(fault) => {
                    self.take_back(rt, told);
                    return Err(fault);
                }
            }
        }
        Ok(Pusher {
            told,
            diary: new_diary(alloc, diary),
            places,
            of: PhantomData,
        })
    }

    /// Takes shares of the first shards back that were never raised.
    fn take_back<W: Wait>(&self, rt: &W, mut told: Vec<Told>)
        requires all { vec_len told ≤ N.settings.shards }
        requires own { AreAcceptedIn N.books told.items }
        requires zero { All (λ share. share.amount ≡ 0) told.items }
    {
        while let Some(last) = told.pop() {
            let place = told.len();
            let Told { share, amount: _ } = last;
            self.shards[place]
                .lock(rt)
                .take_back_push(place as u32, share);
        }
        told.destroy_empty();
    }

    /// A new tally of what a flusher stores, of nothing. `CounterFull` where 2^62 shares of a shard are out, `Misplaced`, and
    /// `NoMemory`; then no share more is out.
    pub fn tally<W: Wait>(&self, rt: &W, alloc: Global) -> Result<FlusherTally, NodeFault>
        ensures all { IfOk result (λ tally. length tally ≡ N.settings.shards) }
        ensures own { IfOk result (AreStoredIn N.books) }
        ensures zero { IfOk result (All (λ share. share.amount ≡ 0)) }
        ensures refused { IfErr result (IsShareRefusal N.settings.shards) }
    {
        let mut shares = Vec::with_capacity(alloc, self.shards.len())?;
        for place in 0..self.shards.len() {
            match self.shards[place].lock(rt).tally_share(place as u32) {
                Ok(share) => shares.push_reserved(share),
                Err(fault) => {
                    self.take_back_tallies(rt, shares);
                    return Err(fault);
                }
            }
        }
        Ok(FlusherTally::of_shares(shares))
    }

    /// Takes shares of the first shards back that were never raised.
    fn take_back_tallies<W: Wait>(&self, rt: &W, mut shares: Vec<Share>)
        requires all { vec_len shares ≤ N.settings.shards }
        requires own { AreStoredIn N.books shares.items }
        requires zero { All (λ share. share.amount ≡ 0) shares.items }
    {
        while let Some(share) = shares.pop() {
            let place = shares.len();
            self.shards[place]
                .lock(rt)
                .take_back_tally(place as u32, share);
        }
        shares.destroy_empty();
    }

    /// Writes what waits of a shard to its log, whoever pushed it, with one sync, and says whether all that the shard has accepted
    /// outlives a crash then. Takes no memory. (Loki documentation: write-ahead log.)
    pub fn sync<W: Wait>(&self, rt: &W, shard: u32) -> bool
        requires { shard < N.settings.shards }
        ensures { N.has_logs ≡ false → result ≡ false }
    {
        self.shards[shard as usize].lock(rt).sync()
    }

    /// Seals what is due in a shard at this time, and gives one operation for each sealed chunk that waits there, as `Shard::sweep`.
    /// `Misplaced`, and `NoMemory`: then nothing is sealed.
    pub fn sweep<W: Wait>(
        &self,
        rt: &W,
        alloc: Global,
        shard: u32,
        now: Stamp,
    ) -> Result<Due, NodeFault>
        requires { shard < N.settings.shards }
        ensures own { IfOk result (λ due. All (λ op. op.shard ≡ shard) due.ops.items) }
        ensures fault { IfErr result (IsLockRefusal shard) }
    {
        self.shards[shard as usize]
            .lock(rt)
            .sweep(shard, alloc, now)
    }

    /// Seals every growing chunk of a shard, and gives one operation for each sealed chunk that waits there, as
    /// `Shard::seal_all`. `Misplaced`, and `NoMemory`: then nothing is sealed.
    pub fn seal_all<W: Wait>(&self, rt: &W, alloc: Global, shard: u32) -> Result<Due, NodeFault>
        requires { shard < N.settings.shards }
        ensures own { IfOk result (λ due. All (λ op. op.shard ≡ shard) due.ops.items) }
        ensures fault { IfErr result (IsLockRefusal shard) }
    {
        self.shards[shard as usize].lock(rt).seal_all(shard, alloc)
    }

    /// The gauges of a tenant in a shard, at some moment, as `Shard::gauges`: those of the rows that the lock's holder found there.
    /// `Misplaced`, and for no other reason.
    pub fn gauges<W: Wait>(&self, rt: &W, shard: u32, tenant: &Tenant) -> Result<Gauges, NodeFault>
        requires { shard < N.settings.shards }
        ensures gauges { IfOk result (AreGauges tenant.now) }
        ensures fault { IfErr result (λ fault. fault ≡ NodeFault.Misplaced shard) }
    {
        self.shards[shard as usize].lock(rt).gauges(shard, tenant)
    }

    /// Puts a checkpoint of a shard in the place of all that its log has, torn or not, and says whether that is done, as
    /// `DurableShard::checkpoint`. Of an ingester with logs. `Misplaced`, and `NoMemory`: then the log is as it was. (Loki
    /// documentation: write-ahead log, checkpoints.)
    pub fn checkpoint<W: Wait>(&self, rt: &W, alloc: Global, shard: u32) -> Result<bool, NodeFault>
        requires shard { shard < N.settings.shards }
        requires logs { N.has_logs ≡ true }
        ensures fault { IfErr result (IsLockRefusal shard) }
    {
        self.shards[shard as usize]
            .lock(rt)
            .checkpoint(shard, alloc)
    }

    /// Puts a checkpoint of a shard in the place of its log where that is torn, and says whether it is not torn then, as
    /// `DurableShard::save`: so what was stored on a torn log outlives a crash. Of an ingester with logs. `Misplaced`, and `NoMemory`: then
    /// the log is as it was. (Own.)
    pub fn save<W: Wait>(&self, rt: &W, alloc: Global, shard: u32) -> Result<bool, NodeFault>
        requires shard { shard < N.settings.shards }
        requires logs { N.has_logs ≡ true }
        ensures fault { IfErr result (IsLockRefusal shard) }
    {
        self.shards[shard as usize].lock(rt).save(shard, alloc)
    }
}
