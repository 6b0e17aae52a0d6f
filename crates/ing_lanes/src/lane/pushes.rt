//! Pushes through the locks. What they write waits, so that one sync of a shard serves all lines at hand, and other channels beside.
ghost use Rattle.std.specs.Prelude.{◌≡◌, ◌≤◌, IfOk, List, Bool, false, map, vec_len};
ghost use Rattle.ing_commands.specs.Views.{push_view, stream_view};
ghost use Rattle.ing_session.specs.PushLines.{rest_of};
ghost use Rattle.ing_session.specs.Views.{reply_data, stream_data};
ghost use Rattle.ing_lanes.specs.ByLane.{ObeysPush, PushesStream, PushesStreams, Stays, Told, told_by};
ghost use Rattle.ing_lanes.specs.Counted.{Rises};
ghost use Rattle.ing_lanes.specs.Drafts.{DraftsLines, MayLast, PushesAll, data_of, replies_of};

use super::Lane;
use super::faults::stream_fault;
use ing_commands::{Push, StreamPush};
use ing_labels::{Labels, canonical_names_are_short};
use ing_node::NodeName;
use ing_rows::{Stamp, Tenant, Verdict};
use ing_session::{PushLines, Reply, StreamReply, label_fault, label_limits};
use ing_store::{Receipt, StoreEnd};
use ing_wal::LogDisk;
use json::Scratch;
use std::alloc::{AllocError, Global};
use std::sync::Wait;
use std::sync::atomic::Ordering;
use std::{hint, thread};

/// How often a channel that is through with its pushes lets others go first, before it syncs.
const TURNS: u32 = 16;

/// For how long each time: some ten microseconds, in which one wakes that waited for the lock. On a busy machine the turn of the
/// processor comes behind them.
const SPINS: u32 = 256;

/// What came of one stream of a push, before what it wrote is synced.
#[derive(Drop)]
pub(crate) enum Draft {
    /// It is refused, by this reply.
    Refused(StreamReply),
    /// Its entries are judged, by the shard of this number.
    Judged {
        place: u32,
        labels: Labels,
        verdicts: Vec<Verdict>,
    },
}

impl<'r, N: NodeName, D: LogDisk + Drop, R: Receipt, F: StoreEnd<Receipt = R> + Drop, W: Wait> Lane<
    'r,
    N,
    D,
    R,
    F,
    W,
> {
    /// The reply to a push, and what it does.
    pub(super) fn push(&mut self, push: Push<'_>) -> Result<Reply, AllocError>
        ensures pushed { let said = push_view push.entry in IfOk result (λ reply. (told : Told) →
            Stays (told_by self.old.pusher) told →
            ObeysPush N.has_logs N.settings said told (told_by self.new.pusher) 0 (reply_data reply)) }
        ensures rises { Rises (told_by self.old.pusher) (told_by self.new.pusher) }
        ensures workers { self.new.workers ≡ self.old.workers }
        ensures board { self.new.board ≡ self.old.board }
    {
        let mut marks = self.no_marks()?;
        self.shared.pushing.fetch_add(1, Ordering::Relaxed);
        let drafts = self.draft_streams(push, &mut marks);
        self.shared.pushing.fetch_sub(1, Ordering::Relaxed);
        // Also where memory ran out.
        self.sync(&mut marks);
        Ok(Reply::Push(told(self.alloc, drafts?, &marks)?))
    }

    /// The replies to a push and to those that the lines at hand behind it command, and what they do: one push after another, and then
    /// one sync for each shard where some of it waits.
    pub(super) fn push_all(
        &mut self,
        first: Push<'_>,
        lines: &mut PushLines<'_>,
        scratch: &mut Scratch,
    ) -> Result<Vec<Reply>, AllocError>
        ensures pushed { IfOk result (λ replies.
            PushesAll N.has_logs N.settings (push_view first.entry) (rest_of lines.old) (rest_of lines.new)
            (told_by self.old.pusher) (told_by self.new.pusher) (map reply_data replies.items)) }
        ensures rises { Rises (told_by self.old.pusher) (told_by self.new.pusher) }
        ensures workers { self.new.workers ≡ self.old.workers }
        ensures board { self.new.board ≡ self.old.board }
    {
        let mut marks = self.no_marks()?;
        self.shared.pushing.fetch_add(1, Ordering::Relaxed);
        let drafts = self.draft_lines(first, lines, scratch, &mut marks);
        self.shared.pushing.fetch_sub(1, Ordering::Relaxed);
        // Also where memory ran out.
        self.sync(&mut marks);
        told_each(self.alloc, drafts?, &marks)
    }

    /// A mark for each shard that has a log, none of them set.
    fn no_marks(&self) -> Result<Vec<bool>, AllocError>
        ensures few { IfOk result (λ marks. vec_len marks ≤ N.settings.shards) }
        ensures none { N.has_logs ≡ false → IfOk result (λ marks. vec_len marks ≡ 0) }
    {
        let logs = if self.shared.has_logs {
            self.shared.settings.shards()
        } else {
            0
        };
        Vec::from_elem(self.alloc, false, logs as usize)
    }

    /// Writes what waits of each shard that is marked, with one sync, and leaves those marked of which everything outlives a crash then.
    /// Takes no memory.
    fn sync(&self, marks: &mut Vec<bool>)
        requires { vec_len marks.old ≤ N.settings.shards }
        ensures { vec_len marks.new ≡ vec_len marks.old }
    {
        if marks.len() > 0 {
            self.let_others_push();
        }
        for shard in 0..marks.len() {
            if marks[shard] {
                marks[shard] = self.shared.ingester.sync(self.rt, shard as u32);
            }
        }
    }

    /// Lets channels that push at this moment get through, so that one sync serves them too: else who has just had the lock often has it
    /// again, for its sync, before those wake that wait for it. Where they take longer they are waited for no more.
    fn let_others_push(&self) {
        for _ in 0..TURNS {
            if self.shared.pushing.load(Ordering::Relaxed) == 0 {
                return;
            }
            for _ in 0..SPINS {
                hint::spin_loop();
            }
            thread::yield_now();
        }
    }

    /// Does a push, and then those that the lines at hand behind it command. What they write waits, in shards that are marked.
    fn draft_lines(
        &mut self,
        first: Push<'_>,
        lines: &mut PushLines<'_>,
        scratch: &mut Scratch,
        marks: &mut Vec<bool>,
    ) -> Result<Vec<Vec<Draft>>, AllocError>
        ensures pushed { IfOk result (λ drafts.
            DraftsLines N.has_logs N.settings (push_view first.entry) (rest_of lines.old) (rest_of lines.new)
            (told_by self.old.pusher) (told_by self.new.pusher) (map (λ push. push.items) drafts.items)) }
        ensures rises { Rises (told_by self.old.pusher) (told_by self.new.pusher) }
        ensures marks { vec_len marks.new ≡ vec_len marks.old }
        ensures workers { self.new.workers ≡ self.old.workers }
        ensures board { self.new.board ≡ self.old.board }
    {
        let mut drafts = Vec::new(self.alloc);
        let streams = self.draft_streams(first, marks)?;
        drafts.push(streams)?;
        // Without logs there is no sync to share.
        while self.shared.has_logs {
            let Some(push) = lines.next(self.alloc, scratch)? else {
                break;
            };
            let streams = self.draft_streams(push, marks)?;
            drafts.push(streams)?;
        }
        Ok(drafts)
    }

    /// Pushes the streams one after another. What they write waits, in shards that are marked.
    fn draft_streams(
        &mut self,
        push: Push<'_>,
        marks: &mut Vec<bool>,
    ) -> Result<Vec<Draft>, AllocError>
        ensures pushed { let said = push_view push.entry in IfOk result (λ drafts. (lasting : List Bool) → MayLast N.has_logs lasting →
            PushesStreams N.has_logs N.settings said.tenant said.now said.streams (map (data_of lasting) drafts.items)
            (told_by self.old.pusher) (told_by self.new.pusher)) }
        ensures rises { Rises (told_by self.old.pusher) (told_by self.new.pusher) }
        ensures marks { vec_len marks.new ≡ vec_len marks.old }
        ensures workers { self.new.workers ≡ self.old.workers }
        ensures board { self.new.board ≡ self.old.board }
    {
        let Push {
            tenant,
            now,
            streams,
        } = push;
        let mut drafts = Vec::with_capacity(self.alloc, streams.len())?;
        for stream in streams {
            let draft = self.draft_stream(&tenant, now, stream)?;
            mark(marks, &draft);
            drafts.push(draft)?;
        }
        Ok(drafts)
    }

    /// Pushes the entries of one stream. What is written of them waits.
    fn draft_stream(
        &mut self,
        tenant: &Tenant,
        now: Stamp,
        stream: StreamPush<'_>,
    ) -> Result<Draft, AllocError>
        ensures pushed { IfOk result (λ draft. (lasting : List Bool) → MayLast N.has_logs lasting →
            PushesStream N.has_logs N.settings tenant.now now (stream_view stream.entry)
            (told_by self.old.pusher) (told_by self.new.pusher) (data_of lasting draft)) }
        ensures rises { Rises (told_by self.old.pusher) (told_by self.new.pusher) }
        ensures workers { self.new.workers ≡ self.old.workers }
        ensures board { self.new.board ≡ self.old.board }
    {
        canonical_names_are_short();
        let StreamPush { labels, entries } = stream;
        let limits = label_limits(self.shared.settings.for_tenant(tenant));
        let labels = match Labels::of_pairs(self.alloc, &labels, &limits) {
            Ok(labels) => labels,
            Err(fault) => return Ok(Draft::Refused(label_fault(fault)?)),
        };
        match self.pusher.push_unsynced(
            self.rt,
            self.alloc,
            &self.shared.ingester,
            tenant,
            &labels,
            entries,
            now,
        ) {
            Ok(waiting) => Ok(Draft::Judged {
                place: waiting.shard,
                labels,
                verdicts: waiting.verdicts,
            }),
            Err(fault) => Ok(Draft::Refused(stream_fault(fault)?)),
        }
    }
}

/// Marks the shard of a draft, if it has a log.
fn mark(marks: &mut Vec<bool>, draft: &Draft)
    ensures { vec_len marks.new ≡ vec_len marks.old }
{
    if let Draft::Judged { place, .. } = draft {
        let place = *place as usize;
        if place < marks.len() {
            marks[place] = true;
        }
    }
}

/// The replies to pushes, where the shards that are marked outlive a crash.
fn told_each(
    alloc: Global,
    drafts: Vec<Vec<Draft>>,
    lasting: &[bool],
) -> Result<Vec<Reply>, AllocError>
    ensures { IfOk result (λ replies. map reply_data replies.items
        ≡ map (replies_of lasting.now) (map (λ push. push.items) drafts.items)) }
{
    let mut replies = Vec::with_capacity(alloc, drafts.len())?;
    for push in drafts {
        let streams = told(alloc, push, lasting)?;
        replies.push(Reply::Push(streams))?;
    }
    Ok(replies)
}

/// The replies to the streams of a push, where the shards that are marked outlive a crash.
fn told(alloc: Global, drafts: Vec<Draft>, lasting: &[bool]) -> Result<Vec<StreamReply>, AllocError>
    ensures { IfOk result (λ replies. map stream_data replies.items ≡ map (data_of lasting.now) drafts.items) }
{
    let mut replies = Vec::with_capacity(alloc, drafts.len())?;
    for draft in drafts {
        replies.push(told_of(draft, lasting))?;
    }
    Ok(replies)
}

/// The reply to one stream.
fn told_of(draft: Draft, lasting: &[bool]) -> StreamReply
    ensures { stream_data result ≡ data_of lasting.now draft }
{
    match draft {
        Draft::Refused(reply) => reply,
        Draft::Judged {
            place,
            labels,
            verdicts,
        } => StreamReply::Judged {
            labels,
            durable: lasting.get(place as usize).copied().unwrap_or(false),
            verdicts,
        },
    }
}
