//! Shards that nobody shares, one after another.
ghost use Rattle.std.specs.Prelude.{◌≡◌, ◌<◌, [], All, IfOk, List, Bool, false, is_some, length, map, OnOk};
ghost use Rattle.ing_limits.specs.Settings.{StoreSettings};
ghost use Rattle.ing_query.specs.Questions.{question_view};
ghost use Rattle.ing_rows.specs.Gauges.{gauges_of};
ghost use Rattle.ing_durable.specs.Catalog.{AddsCatalog, asked_view};
ghost use Rattle.ing_durable.specs.Kept.{whose};
ghost use Rattle.ing_service.specs.ByShards.{Publishes, SealEach, counts_of, event_of, reports_of, rows_of};
ghost use Rattle.ing_service.specs.Drafts.{IsSynced, IsWaiting, drafted};
ghost use Rattle.ing_service.specs.Each.{Each};
ghost use Rattle.ing_service.specs.Flushes.{IsSaved};
ghost use Rattle.ing_service.specs.Held.{AreShardsOf, IsBelowCount, shard_held};
ghost use Rattle.ing_service.specs.Snapshots.{AreAsked};

use crate::seat::{Seat, ToSeal};
use ing_durable::{Asked, Op, Texts};
use ing_labels::Selector;
use ing_query::{Question, Snapshot};
use ing_rows::{Gauges, Tenant};
use ing_store::Receipt;
use ing_tally::{Counts, ShardReport};
use ing_wal::LogDisk;
use std::alloc::{AllocError, Global};

/// What shards sealed: how many chunks, told up to 2^64-1, and an operation for each sealed chunk that waits.
#[derive(Drop)]
pub(crate) struct AllSealed {
    pub(crate) sealed: u64,
    pub(crate) ops: Vec<Op>,
}

/// Forgets records that a push has left which ran out of memory.
pub(crate) fn forget_each<D: LogDisk + Drop, R: Receipt>(seats: &mut [Seat<D, R>])
    ensures none { All (λ seat. is_some seat.unsynced ≡ false) seats.new }
    ensures held { map (λ seat. shard_held seat.shard) seats.new ≡ map (λ seat. shard_held seat.shard) seats.old }
    ensures same { map (λ seat. whose seat.shard.memory) seats.new ≡ map (λ seat. whose seat.shard.memory) seats.old }
{
    for seat in seats.iter_mut() {
        seat.forget();
    }
}

/// Writes the records that wait, with one sync for each shard that has some.
pub(crate) fn sync_each<D: LogDisk + Drop, R: Receipt>(seats: &mut [Seat<D, R>])
    requires waiting { All (λ seat. IsWaiting D.is_honest D.seen seat.shard seat.unsynced) seats.old }
    ensures synced { Each IsSynced (map (λ seat. drafted seat.shard seat.unsynced) seats.old)
        (map (λ seat. shard_held seat.shard) seats.old) (map (λ seat. shard_held seat.shard) seats.new) }
    ensures same { map (λ seat. whose seat.shard.memory) seats.new ≡ map (λ seat. whose seat.shard.memory) seats.old }
{
    for seat in seats.iter_mut() {
        seat.sync();
    }
}

/// Seals these growing chunks of each shard.
pub(crate) fn seal_each<D: LogDisk + Drop, R: Receipt>(
    alloc: Global,
    seats: &mut [Seat<D, R>],
    which: &ToSeal,
) -> Result<AllSealed, AllocError>
    ensures seals { (settings : StoreSettings) →
        AreShardsOf settings (map (λ seat. whose seat.shard.memory) seats.old) → IfOk result (λ all.
        SealEach settings (event_of which.now) all.sealed all.ops.items
        (map (λ seat. shard_held seat.shard) seats.old) (map (λ seat. shard_held seat.shard) seats.new)) }
    ensures same { map (λ seat. whose seat.shard.memory) seats.new ≡ map (λ seat. whose seat.shard.memory) seats.old }
{
    let mut sealed: u64 = 0;
    let mut ops = Vec::new(alloc);
    for seat in seats.iter_mut() {
        let due = seat.seal(alloc, which)?;
        ops.extend_from_slice(&due.ops)?;
        sealed = sealed.saturating_add(due.sealed);
    }
    Ok(AllSealed { sealed, ops })
}

/// Puts a checkpoint in the place of what each log has, where there are logs, and says of each whether that was published.
pub(crate) fn checkpoint_each<D: LogDisk + Drop, R: Receipt>(
    alloc: Global,
    seats: &mut [Seat<D, R>],
    is_logged: bool,
) -> Result<Vec<bool>, AllocError>
    requires { All IsBelowCount (map (λ seat. whose seat.shard.memory) seats.old) }
    ensures published { IfOk result (λ published. Each (Publishes is_logged) published.items
        (map (λ seat. shard_held seat.shard) seats.old) (map (λ seat. shard_held seat.shard) seats.new)) }
    ensures same { map (λ seat. whose seat.shard.memory) seats.new ≡ map (λ seat. whose seat.shard.memory) seats.old }
{
    let mut published = Vec::with_capacity(alloc, seats.len())?;
    for seat in seats.iter_mut() {
        published.push(seat.checkpoint(alloc, is_logged)?)?;
    }
    Ok(published)
}

/// Puts a checkpoint in the place of each torn log. A log that cannot be replaced stays torn.
pub(crate) fn save_each<D: LogDisk + Drop, R: Receipt>(
    alloc: Global,
    seats: &mut [Seat<D, R>],
) -> Result<(), AllocError>
    requires { All IsBelowCount (map (λ seat. whose seat.shard.memory) seats.old) }
    ensures saved { OnOk result ((whole : List Bool) × Each (IsSaved ⊥) whole
        (map (λ seat. shard_held seat.shard) seats.old) (map (λ seat. shard_held seat.shard) seats.new)) }
    ensures same { map (λ seat. whose seat.shard.memory) seats.new ≡ map (λ seat. whose seat.shard.memory) seats.old }
{
    for seat in seats.iter_mut() {
        let _ = seat.save(alloc)?;
    }
    Ok(())
}

/// What each shard counts of a tenant.
pub(crate) fn gauges_of_each<D: LogDisk + Drop, R: Receipt>(
    alloc: Global,
    seats: &[Seat<D, R>],
    tenant: &Tenant,
) -> Result<Vec<Gauges>, AllocError>
    ensures { IfOk result (λ gauges. gauges.items
        ≡ map (λ shard. gauges_of shard.state.rows tenant.now) (map (λ seat. shard_held seat.shard) seats.now)) }
{
    let mut gauges = Vec::with_capacity(alloc, seats.len())?;
    for seat in seats {
        gauges.push(seat.shard.memory().gauges(tenant))?;
    }
    Ok(gauges)
}

/// What each shard accepted and stored.
pub(crate) fn counts_of_each<D: LogDisk + Drop, R: Receipt>(
    alloc: Global,
    seats: &[Seat<D, R>],
) -> Result<Vec<Counts>, AllocError>
    ensures { IfOk result (λ counts. counts.items
        ≡ map (λ shard. counts_of shard.state) (map (λ seat. shard_held seat.shard) seats.now)) }
{
    let mut counts = Vec::with_capacity(alloc, seats.len())?;
    for seat in seats {
        let (accepted, stored) = seat.shard.memory().totals();
        counts.push(Counts { accepted, stored })?;
    }
    Ok(counts)
}

/// What is reported of each shard, which began with so many entries.
pub(crate) fn reports_of_each<D: LogDisk + Drop, R: Receipt>(
    alloc: Global,
    seats: &[Seat<D, R>],
    recovered: &[u64],
) -> Result<Vec<ShardReport>, AllocError>
    requires { length recovered.now ≡ length seats.now }
    ensures { IfOk result (λ reports. reports.items
        ≡ reports_of recovered.now (map (λ seat. shard_held seat.shard) seats.now)) }
{
    let mut reports = Vec::with_capacity(alloc, seats.len())?;
    for place in 0..seats.len() {
        let (total, stored) = seats[place].shard.memory().totals();
        let recovered = recovered[place];
        reports.push(ShardReport {
            accepted: total.saturating_sub(recovered),
            kept: total - stored,
            recovered,
            stored,
        })?;
    }
    Ok(reports)
}

/// A snapshot of each shard for a question.
pub(crate) fn snapshots_of_each<'q, D: LogDisk + Drop, R: Receipt>(
    alloc: Global,
    seats: &[Seat<D, R>],
    tenant: &Tenant,
    selector: &Selector,
    question: Question<'q>,
) -> Result<Vec<Snapshot<'q, R>>, AllocError>
    ensures { IfOk result (λ snapshots. AreAsked tenant.now selector.now (question_view question.entry) snapshots.items
        (map (λ seat. shard_held seat.shard) seats.now)) }
{
    let mut snapshots = Vec::with_capacity(alloc, seats.len())?;
    for seat in seats {
        let memory = seat.shard.memory();
        snapshots.push(memory.snapshot(alloc, tenant, selector, question)?)?;
    }
    Ok(snapshots)
}

/// What the streams of all shards tell that are asked.
pub(crate) fn catalog_of_each<D: LogDisk + Drop, R: Receipt>(
    alloc: Global,
    seats: &[Seat<D, R>],
    asked: &Asked<'_>,
) -> Result<Texts, AllocError>
    ensures { IfOk result (λ texts. AddsCatalog (asked_view asked.now)
        (rows_of (map (λ seat. shard_held seat.shard) seats.now)) [] texts) }
{
    let mut texts = Texts::new(alloc);
    for seat in seats {
        seat.shard.memory().add_catalog(alloc, asked, &mut texts)?;
    }
    Ok(texts)
}

/// Lets go what is in memory. Takes no memory.
pub(crate) fn let_each_go<D: LogDisk + Drop, R: Receipt>(mut seats: Vec<Seat<D, R>>) {
    while let Some(seat) = seats.pop() {
        seat.let_go();
    }
    seats.destroy_empty();
}
