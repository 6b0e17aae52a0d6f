//! The end of an ingester.
ghost use Rattle.std.specs.Prelude.{◌≡◌, [], ℕ, ◌+◌, ◌<◌, ◌≤◌, ◌^◌, All, IfOk, IfErr, OnOk, length, map, sum_by, true, vec_capacity, vec_len};
ghost use Rattle.ing_tally.specs.Books.{AreOf, amount_of};
ghost use Rattle.ing_begun.specs.Closed.{closed_of};
ghost use Rattle.ing_flush.specs.Tallies.{amount_at};
ghost use Rattle.ing_node.specs.Closing.{AreComplete, HaveRoom, IsComplete, StandInPlaces, TellsOf, shares_at};
ghost use Rattle.ing_node.specs.Diaries.{HaveNoted, HaveNotedEach, KeepsDiary, NamesOtherIn, notes_at};
ghost use Rattle.ing_node.specs.Names.{IsTallyOf};
ghost use Rattle.ing_node.specs.Earlier.{had_at};
ghost use Rattle.ing_node.specs.Reports.{AreClosed, AreGathered, AreWithin, CountRows, CountsRows, HasReason, IsGathered, IsCausedClose, IsNoBadClose, IsUnsettled};

use crate::earlier::Earlier;
use crate::gathering::{empty_lists, hand_out_earlier, hand_out_pushers, hand_out_tallies, let_go};
use crate::held::Held;
use crate::ingester::Ingester;
use crate::names::NodeName;
use crate::pusher::Pusher;
use crate::report::{CloseRefusal, Closed, Report};
use crate::settling::{keep_diaries, settle_all};
use ing_begun::{ClosedShard, Gathered, Missing};
use ing_flush::FlusherTally;
use ing_store::{Receipt, StoreEnd};
use ing_tally::{ShardReport, Share, strand_each};
use ing_wal::LogDisk;
use std::alloc::{AllocError, Global};
use std::sync::Mutex;

/// An ingester that was not closed, with all that was handed over, and why. It cannot be dropped.
pub struct CloseFault<N: NodeName, D: LogDisk, R: Receipt> {
    /// Why.
    pub why: CloseRefusal,
    /// The ingester.
    pub ingester: Ingester<N, D, R>,
    /// The shares of what it began with, as they were.
    pub earlier: Earlier<N>,
    /// The pushers, as they were.
    pub pushers: Vec<Pusher<N>>,
    /// The flushers' tallies, as they were.
    pub tallies: Vec<FlusherTally>,
}

/// All the room that a closing takes.
struct Room<N: NodeName, D: LogDisk, R: Receipt> {
    // For the shards, out of their locks, and for the locks, where they go back.
    helds: Vec<Held<N, D, R>>,
    locks: Vec<Mutex<Held<N, D, R>>>,
    // For the shares of each shard's books.
    pushing: Vec<Vec<Share>>,
    stored: Vec<Vec<Share>>,
    // For what is told, and for the shards without their books.
    reports: Vec<ShardReport>,
    shards: Vec<ClosedShard<R>>,
}

impl<N: NodeName, D: LogDisk + Drop, R: Receipt> Room<N, D, R> {
    /// For so many shards, and so many shares of each of the accepted and of the stored entries.
    fn new(
        alloc: Global,
        shards: usize,
        pushers: usize,
        tallies: usize,
    ) -> Result<Room<N, D, R>, AllocError>
        ensures helds { IfOk result (λ room. (vec_len room.helds ≡ 0) × (shards ≤ vec_capacity room.helds)) }
        ensures locks { IfOk result (λ room. (vec_len room.locks ≡ 0) × (shards ≤ vec_capacity room.locks)) }
        ensures pushing { IfOk result (λ room. (vec_len room.pushing ≡ shards)
            × ((i : ℕ) → shares_at i room.pushing.items ≡ []) × HaveRoom pushers room.pushing.items) }
        ensures stored { IfOk result (λ room. (vec_len room.stored ≡ shards)
            × ((i : ℕ) → shares_at i room.stored.items ≡ []) × HaveRoom tallies room.stored.items) }
        ensures reports { IfOk result (λ room. vec_len room.reports ≡ shards) }
        ensures shards { IfOk result (λ room. (vec_len room.shards ≡ 0) × (shards ≤ vec_capacity room.shards)) }
    {
        let helds = Vec::with_capacity(alloc, shards)?;
        let locks = Vec::with_capacity(alloc, shards)?;
        let reports = Vec::from_elem(alloc, ShardReport::default(), shards)?;
        let closed = Vec::with_capacity(alloc, shards)?;
        let pushing = empty_lists(alloc, shards, pushers)?;
        match empty_lists(alloc, shards, tallies) {
            Ok(stored) => Ok(Room {
                helds,
                locks,
                pushing,
                stored,
                reports,
                shards: closed,
            }),
            Err(error) => {
                let_go(pushing);
                Err(error)
            }
        }
    }
}

impl<N: NodeName, D: LogDisk + Drop, R: Receipt> Ingester<N, D, R> {
    /// Closes the ingester with all of its pushers, with the tallies of all of its flushers, and with the shares of what it began with. Of
    /// each shard as many entries were accepted as the pushers were told, as many are stored as the flushers counted and had been stored
    /// before, and each that was accepted or had been there before is stored or kept: none is lost, and none counts twice. The shards are
    /// handed out with it, to be read. Where the settings want diaries and every pusher kept one, all entries that came since the ingester
    /// began are read back, by `end`, and those of each of these shards are exactly those that the pushers noted, each once.
    ///
    /// `StillOut` where a share is missing, so that a pusher, a flusher or a ticket is still out somewhere or was given up; `Misplaced`;
    /// `Unsettled` as `laws::settle`, and only where the settings want diaries and every pusher kept one; and `NoMemory`. Then everything comes back as it was.
    pub fn close<S: StoreEnd<Receipt = R>>(
        self,
        alloc: Global,
        end: &mut S,
        earlier: Earlier<N>,
        pushers: Vec<Pusher<N>>,
        tallies: Vec<FlusherTally>,
    ) -> Result<Closed<R>, CloseFault<N, D, R>>
        requires { All (IsTallyOf N.settings.shards N.books) tallies.items }
        ensures all { IfOk result (λ closed. (vec_len closed.report.shards ≡ N.settings.shards)
            × (vec_len closed.shards ≡ N.settings.shards)) }
        ensures closed { IfOk result (λ closed. AreClosed N.earlier (λ i. sum_by (λ p. amount_at i p.told) pushers.items)
            (λ i. sum_by (amount_at i) tallies.items) closed.report.shards.items) }
        ensures placed { IfOk result (λ closed. StandInPlaces N.settings closed.shards.items) }
        // What is told of a shard is so of the one that is handed out.
        ensures rows { IfOk result (λ closed.
            CountRows (λ shard. shard.state.rows) closed.shards.items closed.report.shards.items) }
        ensures pushers { IfErr result (λ fault. fault.pushers ≡ pushers) }
        ensures tallies { IfErr result (λ fault. fault.tallies ≡ tallies) }
        // Where diaries were kept, exactly the entries that were noted came to these shards.
        ensures settled { S.is_honest → N.settings.diaries ≡ true → IfOk result (λ closed. All KeepsDiary pushers.items →
            HaveNoted (λ shard. shard.state.rows) (had_at N.earlier)
            (λ i. notes_at N.settings.shards i pushers.items) closed.shards.items) }
        // Whatever the store gave, each stands under its number where it was noted.
        ensures places { N.settings.diaries ≡ true → IfOk result (λ closed. All KeepsDiary pushers.items →
            HaveNotedEach (λ shard. shard.state.rows) (had_at N.earlier)
            (λ i. notes_at N.settings.shards i pushers.items) closed.shards.items) }
        ensures why { IfErr result (λ fault. HasReason fault.why) }
        ensures asked { IfErr result (λ fault. IsUnsettled fault.why →
            (N.settings.diaries ≡ true) × All KeepsDiary pushers.items) }
        ensures honest { S.is_honest → IfErr result (λ fault. IsNoBadClose fault.why) }
        // A fault of the store has a cause, and an end that never fails stays such an end.
        ensures count { OnOk result (S.failure_count end.new ≡ S.failure_count end.old) }
        ensures cause { IfErr result (λ fault. IsCausedClose (S.failure_count end.old) (S.failure_count end.new) fault.why) }
        ensures sure { S.never_fails end.old → (S.never_fails end.new)
            × (S.failure_count end.new ≡ S.failure_count end.old) }
    {
        // One of each is of what it began with.
        let (told, counted) = (pushers.len() + 1, tallies.len() + 1);
        let Ok(room) = Room::new(alloc, self.shards.len(), told, counted) else {
            return Err(CloseFault {
                why: CloseRefusal::NoMemory,
                ingester: self,
                earlier,
                pushers,
                tallies,
            });
        };
        let Room {
            helds,
            locks,
            mut pushing,
            mut stored,
            reports,
            shards,
        } = room;
        let kept_alloc = self.alloc;
        let helds = self.into_shards(helds);
        if let Err(why) = is_closable(alloc, end, &helds, &earlier, &pushers, counted as u64) {
            let_go(pushing);
            let_go(stored);
            return Err(CloseFault {
                why,
                ingester: Ingester::of_shards(kept_alloc, helds, locks),
                earlier,
                pushers,
                tallies,
            });
        }
        let reports = earlier.note(reports);
        hand_out_pushers(&mut pushing, pushers);
        hand_out_tallies::<N>(&mut stored, tallies);
        hand_out_earlier(&mut pushing, &mut stored, earlier);
        Ok(gather_all(helds, pushing, stored, reports, shards))
    }

    /// Its shards, out of their locks, in a list with room for them.
    fn into_shards(self, mut helds: Vec<Held<N, D, R>>) -> Vec<Held<N, D, R>>
        requires empty { vec_len helds ≡ 0 }
        requires room { vec_len self.shards ≤ vec_capacity helds }
        ensures { vec_len result ≡ vec_len self.shards }
    {
        let Ingester { alloc: _, shards } = self;
        for lock in shards {
            helds.push_reserved(lock.into_inner());
        }
        helds
    }

    /// These shards, in locks again, in a list with room for them.
    fn of_shards(
        alloc: Global,
        helds: Vec<Held<N, D, R>>,
        mut locks: Vec<Mutex<Held<N, D, R>>>,
    ) -> Ingester<N, D, R>
        requires all { vec_len helds ≡ N.settings.shards }
        requires some { 0 < vec_len helds }
        requires few { vec_len helds < 2 ^ 32 }
        requires empty { vec_len locks ≡ 0 }
        requires room { vec_len helds ≤ vec_capacity locks }
    {
        for held in helds {
            locks.push_reserved(Mutex::new(held));
        }
        Ingester {
            alloc,
            shards: locks,
        }
    }
}

/// Whether shards can be closed with these pushers and one share more, and so many shares of the stored entries: all shares are there,
/// and where the settings want diaries and every pusher kept one, the entries that came since are those that were noted.
fn is_closable<N: NodeName, D: LogDisk + Drop, S: StoreEnd>(
    alloc: Global,
    end: &mut S,
    helds: &[Held<N, D, S::Receipt>],
    earlier: &Earlier<N>,
    pushers: &[Pusher<N>],
    tallies: u64,
) -> Result<(), CloseRefusal>
    requires few { length helds.now < 2 ^ 32 }
    requires all { length helds.now ≡ N.settings.shards }
    ensures complete { OnOk result (AreComplete (λ held. held.shard.memory) (λ _. length pushers.now + 1) (λ _. tallies) helds.now) }
    ensures settled { S.is_honest → N.settings.diaries ≡ true → OnOk result (All KeepsDiary pushers.now →
        HaveNoted (λ held. held.shard.memory.state.rows) (had_at N.earlier)
        (λ i. notes_at N.settings.shards i pushers.now) helds.now) }
    ensures places { N.settings.diaries ≡ true → OnOk result (All KeepsDiary pushers.now →
        HaveNotedEach (λ held. held.shard.memory.state.rows) (had_at N.earlier)
        (λ i. notes_at N.settings.shards i pushers.now) helds.now) }
    ensures differs { S.is_honest → IfErr result (NamesOtherIn (λ held. held.shard.memory.state.rows) (had_at N.earlier)
        (λ i. notes_at N.settings.shards i pushers.now) helds.now) }
    ensures why { IfErr result HasReason }
    ensures told { IfErr result (TellsOf (λ held. held.shard.memory) (length pushers.now + 1) tallies helds.now) }
    ensures asked { IfErr result (λ why. IsUnsettled why → (N.settings.diaries ≡ true) × All KeepsDiary pushers.now) }
    ensures honest { S.is_honest → IfErr result IsNoBadClose }
    ensures count { OnOk result (S.failure_count end.new ≡ S.failure_count end.old) }
    ensures cause { IfErr result (IsCausedClose (S.failure_count end.old) (S.failure_count end.new)) }
    ensures sure { S.never_fails end.old → (S.never_fails end.new)
        × (S.failure_count end.new ≡ S.failure_count end.old) }
{
    are_complete(helds, pushers.len() as u64 + 1, tallies)?;
    if let Some(fronts) = &earlier.fronts {
        if keep_diaries(pushers) {
            settle_all(alloc, end, helds, fronts, pushers)?;
        }
    }
    Ok(())
}

/// Whether each shard stands at its place, has no chunk in flight, and no more shares of its books out than these.
fn are_complete<N: NodeName, D: LogDisk + Drop, R: Receipt>(
    helds: &[Held<N, D, R>],
    pushers: u64,
    tallies: u64,
) -> Result<(), CloseRefusal>
    requires { length helds.now < 2 ^ 32 }
    ensures complete { OnOk result
        (AreComplete (λ held. held.shard.memory) (λ _. pushers) (λ _. tallies) helds.now) }
    ensures why { IfErr result (λ why. HasReason why × (IsUnsettled why → ⊥)) }
    ensures told { IfErr result (TellsOf (λ held. held.shard.memory) pushers tallies helds.now) }
{
    let mut all = Missing {
        accepted: 0,
        flight: 0,
        stored: 0,
    };
    for place in 0..helds.len() {
        let missing = helds[place].missing(place as u32, pushers, tallies)?;
        all.accepted = all.accepted.saturating_add(missing.accepted);
        all.flight = all.flight.saturating_add(missing.flight);
        all.stored = all.stored.saturating_add(missing.stored);
    }
    if all.accepted > 0 || all.flight > 0 || all.stored > 0 {
        return Err(CloseRefusal::StillOut(all));
    }
    Ok(())
}

/// Gathers the books of each shard, which are complete with these shares, and puts the shards without them into a list with room for
/// them. The reports say how many entries each had before.
fn gather_all<N: NodeName, D: LogDisk + Drop, R: Receipt>(
    mut helds: Vec<Held<N, D, R>>,
    mut pushing: Vec<Vec<Share>>,
    mut stored: Vec<Vec<Share>>,
    mut reports: Vec<ShardReport>,
    mut shards: Vec<ClosedShard<R>>,
) -> Closed<R>
    requires pushing { vec_len pushing ≡ vec_len helds }
    requires stored { vec_len stored ≡ vec_len helds }
    requires reports { vec_len reports ≡ vec_len helds }
    requires empty { vec_len shards ≡ 0 }
    requires room { vec_len helds ≤ vec_capacity shards }
    requires recovered { AreWithin (λ i. amount_of (shares_at i pushing.items)) reports.items }
    requires own_pushing { (i : ℕ) → AreOf (N.books i).accepted (shares_at i pushing.items) }
    requires own_stored { (i : ℕ) → AreOf (N.books i).stored (shares_at i stored.items) }
    requires complete { AreComplete (λ held. held.shard.memory) (λ i. length (shares_at i pushing.items))
        (λ i. length (shares_at i stored.items)) helds.items }
    ensures all { vec_len result.report.shards ≡ vec_len reports }
    ensures closed { AreGathered reports.items (λ i. amount_of (shares_at i pushing.items))
        (λ i. amount_of (shares_at i stored.items)) result.report.shards.items }
    ensures shards { result.shards.items ≡ map (λ held. closed_of held.shard.memory) helds.items }
    ensures rows { CountRows (λ held. held.shard.memory.state.rows) helds.items result.report.shards.items }
{
    while let Some(held) = helds.pop() {
        let place = helds.len();
        match (pushing.pop(), stored.pop()) {
            (Some(pushers), Some(tallies)) => {
                let recovered = reports[place].recovered;
                let (report, shard) = gather(held, pushers, tallies, recovered);
                reports[place] = report;
                shards.push_reserved(shard);
            }
            _ => unreachable!(),
        }
    }
    pushing.destroy_empty();
    stored.destroy_empty();
    // The last one came first.
    shards.reverse();
    Closed {
        report: Report { shards: reports },
        shards,
    }
}

/// Gathers the books of a shard, which are complete with these shares, and gives the shard without them. So many of its entries had been
/// there before.
fn gather<N: NodeName, D: LogDisk + Drop, R: Receipt>(
    held: Held<N, D, R>,
    pushing: Vec<Share>,
    tallies: Vec<Share>,
    recovered: u64,
) -> (ShardReport, ClosedShard<R>)
    requires own_pushing { AreOf (N.books held.shard.memory.number).accepted pushing.items }
    requires own_tallies { AreOf (N.books held.shard.memory.number).stored tallies.items }
    requires complete { IsComplete held.shard.memory.number (vec_len pushing) (vec_len tallies) held.shard.memory }
    requires recovered { recovered ≤ amount_of pushing.items }
    ensures closed { IsGathered recovered (amount_of pushing.items) (amount_of tallies.items) result.0 }
    ensures shard { result.1 ≡ closed_of held.shard.memory }
    ensures rows { CountsRows held.shard.memory.state.rows result.0 }
{
    let (memory, _log) = held.into_shard().into_parts();
    match memory.gather_books(pushing, tallies) {
        Ok(
            Gathered {
                accepted,
                stored,
                shard,
            },
        ) => {
            let report = ShardReport {
                accepted: accepted - recovered,
                recovered,
                stored,
                kept: accepted - stored,
            };
            (report, shard)
        }
        Err((_, pushing, tallies, _)) => {
            strand_each(pushing);
            strand_each(tallies);
            unreachable!()
        }
    }
}
