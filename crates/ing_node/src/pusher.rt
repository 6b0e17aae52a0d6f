//! Who pushes.
ghost use Rattle.std.specs.Prelude.{◌≡◌, ◌≢◌, ◌+◌, ◌++◌, ◌<◌, ◌≤◌, ◌^◌, ℕ, IfOk, IfErr, OnOk, OnErr, false, filter, is_some, length, slice_get, vec_len};
ghost use Rattle.ing_diary.specs.Notes.{is_in_shard, noted};
ghost use Rattle.ing_node.specs.Diaries.{notes_kept, with_notes};
ghost use Rattle.ing_labels.specs.Canonical.{canonical_of};
ghost use Rattle.ing_limits.specs.Ranges.{rules_for};
ghost use Rattle.ing_rows.specs.Placement.{shard_of};
ghost use Rattle.ing_rows.specs.Turns.{accepted_among};
ghost use Rattle.ing_begun.specs.Contents.{stream_of};
ghost use Rattle.ing_flush.specs.Tallies.{amount_at};
ghost use Rattle.ing_node.specs.Names.{AreAcceptedIn};
ghost use Rattle.ing_node.specs.Pushes.{AreJudged, AreTold, IsPushRefusal, accepted_in};

use crate::diaries::{begin_note, end_note};
use crate::ingester::Ingester;
use crate::laws::verdicts_tell;
use crate::names::NodeName;
use ing_begun::{NodeFault, Pushed, Told, strand_told};
use ing_diary::{Diary, NoteRef};
use ing_labels::Labels;
use ing_places::Places;
use ing_rows::{Entry, Stamp, Tenant, Verdict};
use ing_store::Receipt;
use ing_wal::LogDisk;
use std::alloc::{AllocError, Global};
use std::marker::{Model, PhantomData};
use std::sync::Wait;

/// Who pushes to one ingester, with a share of what each shard accepted: as many as it was told were accepted there. One that keeps
/// a diary notes each of these entries. It knows the shards of streams that it pushed to lately. It cannot be dropped. Contracts
/// see the shares, shard by shard, and the notes.
pub struct Pusher<N: NodeName> {
    pub(crate) told: Vec<Told>,
    pub(crate) diary: Option<Diary>,
    pub(crate) places: Places,
    pub(crate) of: PhantomData<N>,
}

impl<N: NodeName> Model for Pusher<N> {
    ghost use Rattle.std.specs.Prelude.{◌≡◌, vec_len};
    ghost use Rattle.ing_node.specs.Diaries.{PusherState, notes_in};
    ghost use Rattle.ing_node.specs.Names.{AreAcceptedIn};

    ghost Value = { PusherState };

    ghost view = { λ pusher. record {
      told = pusher.told.items;
      diary = notes_in pusher.diary;
    } };

    ghost invariant = { λ pusher. (vec_len pusher.told ≡ N.settings.shards)
        × AreAcceptedIn N.books pusher.told.items × (pusher.places ≡ N.settings.shards) };
}

/// What came of a push whose record waits.
#[derive(Drop)]
pub struct Waiting {
    /// The shard where the stream has its place.
    pub shard: u32,
    /// The verdicts, one for each entry.
    pub verdicts: Vec<Verdict>,
}

impl<N: NodeName> Pusher<N> {
    /// How many entries it was told that a shard accepted. Takes no memory.
    pub fn told(&self, shard: u32) -> u64
        requires { shard < N.settings.shards }
        ensures { result ≡ amount_at shard self.now.told }
    {
        self.told[shard as usize].amount
    }

    /// Pushes entries of one stream to its shard, as `push_unsynced`, and writes them to the shard's log, with what waits there. (Loki
    /// documentation: push API.) Each error is as there.
    pub fn push<D: LogDisk, R: Receipt, W: Wait>(
        &mut self,
        rt: &W,
        alloc: Global,
        node: &Ingester<N, D, R>,
        tenant: &Tenant,
        labels: &Labels,
        entries: Vec<Entry>,
        now: Stamp,
    ) -> Result<Pushed, NodeFault>
        requires { length (canonical_of labels.now) < 2 ^ 32 }
        ensures judged { let s = stream_of tenant.now labels.now in
            IfOk result (λ pushed. AreJudged (rules_for N.settings tenant.now) s now
            entries.items pushed.verdicts.items) }
        ensures verdicts { IfOk result (λ pushed. AreTold (rules_for N.settings tenant.now)
            entries.items pushed.verdicts.items) }
        ensures durable { IfOk result (λ pushed. N.has_logs ≡ false → pushed.durable ≡ false) }
        ensures told { let shard = shard_of tenant.now (canonical_of labels.now) N.settings.shards in
            IfOk result (λ pushed. amount_at shard self.new.told
            ≡ amount_at shard self.old.told + length (accepted_among entries.items pushed.verdicts.items)) }
        ensures others { let shard = shard_of tenant.now (canonical_of labels.now) N.settings.shards in
            (i : ℕ) → i ≢ shard → slice_get self.new.told i ≡ slice_get self.old.told i }
        ensures noted { let s = stream_of tenant.now labels.now in
            IfOk result (λ pushed. self.new.diary
            ≡ with_notes (noted s entries.items pushed.verdicts.items) self.old.diary) }
        ensures refused { let shard = shard_of tenant.now (canonical_of labels.now) N.settings.shards in
            IfErr result (IsPushRefusal (rules_for N.settings tenant.now) (vec_len entries) shard) }
        ensures few { OnOk result (vec_len entries ≤ (rules_for N.settings tenant.now).max_entries_per_push) }
        ensures err { OnErr result (self.new ≡ self.old) }
    {
        let Waiting { shard, verdicts } = self.push_unsynced(
            rt, alloc, node, tenant, labels, entries, now,
        )?;
        let durable = node.sync(rt, shard);
        Ok(Pushed { durable, verdicts })
    }

    /// Pushes entries of one stream to its shard, under that shard's lock: each is judged in order by the tenant's rules, and kept
    /// where it is accepted. What it was told of the shard rises by the accepted entries, which its diary notes. What is written of them
    /// waits for `Ingester::sync`, so that one sync serves all that wait. The canonical name of the stream must have fewer than 2^32
    /// bytes. (Loki documentation: push API.)
    ///
    /// `TooManyEntries` where there are more than the tenant's rules allow; `CounterFull` where a count would pass its last value,
    /// as for `Shard::push`; `Misplaced`, and `NoMemory`. After an error everything is as it was.
    pub fn push_unsynced<D: LogDisk, R: Receipt, W: Wait>(
        &mut self,
        rt: &W,
        alloc: Global,
        node: &Ingester<N, D, R>,
        tenant: &Tenant,
        labels: &Labels,
        entries: Vec<Entry>,
        now: Stamp,
    ) -> Result<Waiting, NodeFault>
        requires { length (canonical_of labels.now) < 2 ^ 32 }
        ensures shard { IfOk result (λ waiting.
            waiting.shard ≡ shard_of tenant.now (canonical_of labels.now) N.settings.shards) }
        ensures below { IfOk result (λ waiting. waiting.shard < N.settings.shards) }
        // The verdicts are those that the model gives in some state; which one other pushers have left is not said.
        ensures judged { let s = stream_of tenant.now labels.now in
            IfOk result (λ waiting. AreJudged (rules_for N.settings tenant.now) s now
            entries.items waiting.verdicts.items) }
        ensures verdicts { IfOk result (λ waiting. AreTold (rules_for N.settings tenant.now)
            entries.items waiting.verdicts.items) }
        // It was told of as many more of the stream's shard as were accepted, and of no more of the others.
        ensures told { let shard = shard_of tenant.now (canonical_of labels.now) N.settings.shards in
            IfOk result (λ waiting. amount_at shard self.new.told
            ≡ amount_at shard self.old.told + length (accepted_among entries.items waiting.verdicts.items)) }
        ensures others { let shard = shard_of tenant.now (canonical_of labels.now) N.settings.shards in
            (i : ℕ) → i ≢ shard → slice_get self.new.told i ≡ slice_get self.old.told i }
        // Where it keeps a diary, it notes exactly the accepted entries, under the numbers that they were given.
        ensures noted { let s = stream_of tenant.now labels.now in
            IfOk result (λ waiting. self.new.diary
            ≡ with_notes (noted s entries.items waiting.verdicts.items) self.old.diary) }
        ensures refused { let shard = shard_of tenant.now (canonical_of labels.now) N.settings.shards in
            IfErr result (IsPushRefusal (rules_for N.settings tenant.now) (vec_len entries) shard) }
        ensures few { OnOk result (vec_len entries ≤ (rules_for N.settings tenant.now).max_entries_per_push) }
        ensures err { OnErr result (self.new ≡ self.old) }
    {
        let shard = self.places.of(tenant, labels.name());
        begin_note(&mut self.diary, alloc, tenant, labels, &entries)?;
        let told = &mut self.told;
        let verdicts = push_told(told, rt, alloc, node, shard, tenant, labels, entries, now)?;
        end_note(&mut self.diary, &verdicts);
        Ok(Waiting { shard, verdicts })
    }

    /// Whether it keeps a diary. Takes no memory.
    pub fn keeps_diary(&self) -> bool
        ensures { result ≡ is_some self.now.diary }
    {
        self.diary.is_some()
    }

    /// Adds a reference to each note of a shard, of so many, to a list.
    pub(crate) fn spread_into<'a>(
        &'a self,
        notes: &mut Vec<NoteRef<'a>>,
        shards: u32,
        shard: u32,
    ) -> Result<(), AllocError>
        requires { 0 < shards }
        ensures { OnOk result (notes.new.items
            ≡ notes.old.items ++ filter (is_in_shard shards shard) (notes_kept self.now.diary)) }
    {
        match &self.diary {
            Some(diary) => diary.spread_into(notes, shards, shard),
            None => Ok(()),
        }
    }

    /// Gives its shares up, which stay out. Takes no memory.
    pub fn strand(self) {
        let Pusher {
            told,
            diary: _,
            places: _,
            of: _,
        } = self;
        strand_told(told);
    }
}

/// A push, as `Pusher::push_unsynced`, with the shares of a pusher: what it was told of the stream's shard rises by the accepted entries.
fn push_told<N: NodeName, D: LogDisk, R: Receipt, W: Wait>(
    told: &mut Vec<Told>,
    rt: &W,
    alloc: Global,
    node: &Ingester<N, D, R>,
    shard: u32,
    tenant: &Tenant,
    labels: &Labels,
    entries: Vec<Entry>,
    now: Stamp,
) -> Result<Vec<Verdict>, NodeFault>
    requires all { vec_len told.old ≡ N.settings.shards }
    requires own { AreAcceptedIn N.books told.old.items }
    requires name { length (canonical_of labels.now) < 2 ^ 32 }
    requires shard { shard ≡ shard_of tenant.now (canonical_of labels.now) N.settings.shards }
    requires below { shard < N.settings.shards }
    ensures all { vec_len told.new ≡ N.settings.shards }
    ensures own { AreAcceptedIn N.books told.new.items }
    ensures judged { let s = stream_of tenant.now labels.now in
        IfOk result (λ verdicts. AreJudged (rules_for N.settings tenant.now) s now
        entries.items verdicts.items) }
    ensures verdicts { IfOk result (λ verdicts. AreTold (rules_for N.settings tenant.now)
        entries.items verdicts.items) }
    ensures told { IfOk result (λ verdicts. amount_at shard told.new.items
        ≡ amount_at shard told.old.items + length (accepted_among entries.items verdicts.items)) }
    ensures others { (i : ℕ) → i ≢ shard → slice_get told.new.items i ≡ slice_get told.old.items i }
    ensures refused { IfErr result (IsPushRefusal (rules_for N.settings tenant.now) (vec_len entries) shard) }
    ensures few { OnOk result (vec_len entries ≤ (rules_for N.settings tenant.now).max_entries_per_push) }
    ensures err { OnErr result (told.new.items ≡ told.old.items) }
{
    verdicts_tell();
    let place = shard as usize;
    let told = &mut told[place];
    let pushed = node.shards[place].lock(rt).push(
        shard,
        alloc,
        &mut told.share,
        tenant,
        labels,
        entries,
        now,
    );
    match pushed {
        Ok(verdicts) => {
            told.amount += accepted_in(&verdicts);
            Ok(verdicts)
        }
        Err(fault) => Err(fault),
    }
}

/// How many of these verdicts accept their entry.
fn accepted_in(verdicts: &[Verdict]) -> u64
    ensures { result ≡ accepted_in verdicts.now }
{
    let mut count = 0;
    for verdict in verdicts {
        if let Verdict::Accepted { .. } = verdict {
            count += 1;
        }
    }
    count
}
