//! Uploads of claimed chunks, side by side: workers, each with an end of the store, draw chunks from one list.
ghost use Rattle.std.specs.Prelude.{◌≡◌, ◌<◌, ◌≤◌, ◌+◌, ℕ, [], All, IfOk, IfSome, List, OnOk, Some, length, map, set, slice_index_or, sum_by, vec_capacity, vec_len};
ghost use Rattle.ing_durable.specs.Flights.{Flown};
ghost use Rattle.ing_session.specs.Causes.{GoesOn, HaveCause};
ghost use Rattle.ing_service.specs.Ends.{AreNotedOf, AreUploadsOf, IsNoteOf, IsShort, IsUploadOf, NeverFail, failed_by, failed_if, failed_in, failures_in, lost_by, lost_in};

use crate::ends::Ends;
use ing_durable::{ClaimedChunk, Flushed};
use ing_store::{Receipt, StoreEnd, StoreFault};
use std::alloc::{AllocError, Global};
use std::sync::atomic::{AtomicU64, Ordering};
use std::thread;
use std::thread::Threads;

/// An end of the store that is lent for uploads, and what came of the chunks that were uploaded through it.
#[derive(Drop)]
struct Worker<R: Receipt, S: StoreEnd<Receipt = R>> {
    end: S,
    noted: Vec<Noted<R>>,
}

/// What came of the chunk at a place of a list.
#[derive(Drop)]
struct Noted<R: Receipt> {
    place: usize,
    outcome: Result<Flushed<R>, StoreFault>,
}

/// Uploads chunks, side by side where there are other ends than the thread's own, and gives of each what is listed of it, or nothing where the store failed. It fails
/// only where memory runs out; then a part of the chunks may be uploaded.
pub(crate) fn upload_all<
    H: Threads + Sync,
    R: Receipt + Send + Sync,
    S: StoreEnd<Receipt = R> + Send,
>(
    rt: &H,
    alloc: Global,
    ends: &mut Ends<S>,
    chunks: &[&ClaimedChunk],
) -> Result<Vec<Option<Flushed<R>>>, AllocError>
    requires short { All (λ b. IsShort b.now) chunks.now }
    ensures of { IfOk result (λ all. AreUploadsOf R.bytes R.name (map (λ b. b.now) chunks.now) all.items) }
    ensures causes { IfOk result (λ all.
        HaveCause (failures_in S.failure_count ends.old) (failures_in S.failure_count ends.new) (lost_in all.items)) }
    ensures end { GoesOn (NeverFail S.never_fails) (failures_in S.failure_count) ends.old ends.new }
{
    let mut noted = none_noted(alloc, chunks)?;
    upload_aside(rt, alloc, &mut ends.others, chunks, &mut noted)?;
    upload_rest(alloc, &mut ends.own, chunks, &mut noted)
}

/// A place for each chunk, where nothing is noted yet.
fn none_noted<R: Receipt>(
    alloc: Global,
    chunks: &[&ClaimedChunk],
) -> Result<Vec<Option<Result<Flushed<R>, StoreFault>>>, AllocError>
    ensures of { IfOk result (λ noted. AreNotedOf R.bytes R.name (map (λ b. b.now) chunks.now) noted.items) }
    ensures failed { IfOk result (λ noted. failed_in noted.items ≡ 0) }
    ensures many { IfOk result (λ noted. vec_len noted ≡ length chunks.now) }
{
    let mut noted = Vec::with_capacity(alloc, chunks.len())?;
    for _ in 0..chunks.len() {
        noted.push(None)?;
    }
    Ok(noted)
}

/// Has chunks uploaded through these ends, where there are any, and notes what came of each. What nothing is noted of is still to be
/// uploaded. It fails only where memory runs out, before any upload.
fn upload_aside<H: Threads + Sync, R: Receipt + Send + Sync, S: StoreEnd<Receipt = R> + Send>(
    rt: &H,
    alloc: Global,
    ends: &mut Vec<S>,
    chunks: &[&ClaimedChunk],
    noted: &mut [Option<Result<Flushed<R>, StoreFault>>],
) -> Result<(), AllocError>
    requires short { All (λ b. IsShort b.now) chunks.now }
    requires of { AreNotedOf R.bytes R.name (map (λ b. b.now) chunks.now) noted.old }
    requires failed { failed_in noted.old ≡ 0 }
    requires many { length noted.old ≡ length chunks.now }
    ensures of { OnOk result (AreNotedOf R.bytes R.name (map (λ b. b.now) chunks.now) noted.new) }
    ensures causes { OnOk result (HaveCause (sum_by S.failure_count ends.old.items) (sum_by S.failure_count ends.new.items) (failed_in noted.new)) }
    ensures many { length noted.new ≡ length noted.old }
    ensures end { GoesOn (All S.never_fails) (sum_by S.failure_count) ends.old.items ends.new.items }
{
    if ends.is_empty() {
        return Ok(());
    }
    if chunks.len() < 2 {
        return Ok(());
    }
    let mut workers = Vec::with_capacity(alloc, ends.len())?;
    lend(alloc, ends, &mut workers);
    upload_by(rt, alloc, &mut workers, chunks, noted);
    take_back(ends, workers);
    Ok(())
}

/// Has chunks uploaded by workers, and notes what came of each.
fn upload_by<H: Threads + Sync, R: Receipt + Send + Sync, S: StoreEnd<Receipt = R> + Send>(
    rt: &H,
    alloc: Global,
    workers: &mut [Worker<R, S>],
    chunks: &[&ClaimedChunk],
    noted: &mut [Option<Result<Flushed<R>, StoreFault>>],
)
    requires some { 0 < length workers.old }
    requires unnoted { All (λ w. w.noted.items ≡ []) workers.old }
    requires short { All (λ b. IsShort b.now) chunks.now }
    requires of { AreNotedOf R.bytes R.name (map (λ b. b.now) chunks.now) noted.old }
    requires failed { failed_in noted.old ≡ 0 }
    requires many { length noted.old ≡ length chunks.now }
    ensures of { AreNotedOf R.bytes R.name (map (λ b. b.now) chunks.now) noted.new }
    ensures causes { HaveCause (sum_by (λ w. S.failure_count w.end) workers.old)
        (sum_by (λ w. S.failure_count w.end) workers.new) (failed_in noted.new) }
    ensures many { length noted.new ≡ length noted.old }
    ensures len { length workers.new ≡ length workers.old }
    ensures end { GoesOn (All (λ w. S.never_fails w.end)) (sum_by (λ w. S.failure_count w.end)) workers.old workers.new }
{
    draw_each(rt, alloc, workers, chunks);
    note_all(noted, workers);
}

/// Lends ends to workers. Takes no memory.
fn lend<R: Receipt, S: StoreEnd<Receipt = R>>(
    alloc: Global,
    ends: &mut Vec<S>,
    workers: &mut Vec<Worker<R, S>>,
)
    requires none { workers.old.items ≡ [] }
    requires room { vec_len ends.old ≤ vec_capacity workers.old }
    ensures failures { sum_by (λ w. S.failure_count w.end) workers.new.items ≡ sum_by S.failure_count ends.old.items }
    ensures sure { All S.never_fails ends.old.items → All (λ w. S.never_fails w.end) workers.new.items }
    ensures all { vec_len workers.new ≡ vec_len ends.old }
    ensures unnoted { All (λ w. w.noted.items ≡ []) workers.new.items }
    ensures none { ends.new.items ≡ [] }
    ensures room { vec_capacity ends.new ≡ vec_capacity ends.old }
{
    while let Some(end) = ends.pop() {
        let noted = Vec::new(alloc);
        workers.push_reserved(Worker { end, noted });
    }
}

/// Takes ends back from workers. Takes no memory.
fn take_back<R: Receipt, S: StoreEnd<Receipt = R>>(
    ends: &mut Vec<S>,
    mut workers: Vec<Worker<R, S>>,
)
    requires none { ends.old.items ≡ [] }
    requires room { vec_len workers ≤ vec_capacity ends.old }
    ensures failures { sum_by S.failure_count ends.new.items ≡ sum_by (λ w. S.failure_count w.end) workers.items }
    ensures sure { All (λ w. S.never_fails w.end) workers.items → All S.never_fails ends.new.items }
{
    while let Some(worker) = workers.pop() {
        let Worker { end, noted: _ } = worker;
        ends.push_reserved(end);
    }
    workers.destroy_empty();
}

/// Has each worker draw chunks until none is left.
fn draw_each<H: Threads + Sync, R: Receipt + Send + Sync, S: StoreEnd<Receipt = R> + Send>(
    rt: &H,
    alloc: Global,
    workers: &mut [Worker<R, S>],
    chunks: &[&ClaimedChunk],
)
    requires some { 0 < length workers.old }
    requires unnoted { All (λ w. w.noted.items ≡ []) workers.old }
    requires short { All (λ b. IsShort b.now) chunks.now }
    ensures len { length workers.new ≡ length workers.old }
    ensures noted { (i : ℕ) (d : _) → i < length workers.old →
        All (λ n. IsNoteOf R.bytes R.name (map (λ b. b.now) chunks.now) n.place n.outcome)
        (slice_index_or workers.new i d).noted.items }
    ensures causes { (i : ℕ) (d : _) → i < length workers.old →
        HaveCause (S.failure_count (slice_index_or workers.old i d).end) (S.failure_count (slice_index_or workers.new i d).end)
        (sum_by (λ n. failed_by n.outcome) (slice_index_or workers.new i d).noted.items) }
    ensures ends { (i : ℕ) (d : _) → i < length workers.old →
        GoesOn S.never_fails S.failure_count (slice_index_or workers.old i d).end (slice_index_or workers.new i d).end }
{
    let threads = workers.len();
    let next = AtomicU64::new(0);
    let draw = |_: usize, worker: &mut Worker<R, S>|
        requires { (worker.now.noted.items ≡ []) × All (λ b. IsShort b.now) chunks.now }
        ensures { All (λ n. IsNoteOf R.bytes R.name (map (λ b. b.now) chunks.entry.now) n.place n.outcome) worker.exit.now.noted.items
            × HaveCause (S.failure_count worker.entry.now.end) (S.failure_count worker.exit.now.end)
            (sum_by (λ n. failed_by n.outcome) worker.exit.now.noted.items)
            × GoesOn S.never_fails S.failure_count worker.entry.now.end worker.exit.now.end }
    { draw(alloc, chunks, &next, worker) };
    thread::for_each_mut(rt, workers, threads, &draw);
}

/// Draws chunks until none is left, uploads each, and notes what came of it. What it cannot note is not drawn.
fn draw<R: Receipt, S: StoreEnd<Receipt = R>>(
    alloc: Global,
    chunks: &[&ClaimedChunk],
    next: &AtomicU64,
    worker: &mut Worker<R, S>,
)
    requires none { worker.old.noted.items ≡ [] }
    requires short { All (λ b. IsShort b.now) chunks.now }
    ensures noted { All (λ n. IsNoteOf R.bytes R.name (map (λ b. b.now) chunks.now) n.place n.outcome) worker.new.noted.items }
    ensures causes { HaveCause (S.failure_count worker.old.end) (S.failure_count worker.new.end)
        (sum_by (λ n. failed_by n.outcome) worker.new.noted.items) }
    ensures end { GoesOn S.never_fails S.failure_count worker.old.end worker.new.end }
{
    for _ in 0..chunks.len() {
        if worker.noted.reserve(1).is_err() {
            return;
        }
        let place = next.fetch_add(1, Ordering::SeqCst);
        if place >= chunks.len() as u64 {
            return;
        }
        let note = upload_at(alloc, chunks, place as usize, &mut worker.end);
        worker.noted.push_reserved(note);
    }
}

/// Uploads the chunk at a place, and notes what came of it.
fn upload_at<R: Receipt, S: StoreEnd<Receipt = R>>(
    alloc: Global,
    chunks: &[&ClaimedChunk],
    place: usize,
    end: &mut S,
) -> Noted<R>
    requires place { place < length chunks.now }
    requires short { All (λ b. IsShort b.now) chunks.now }
    ensures of { IsNoteOf R.bytes R.name (map (λ b. b.now) chunks.now) result.place result.outcome }
    ensures cause { HaveCause (S.failure_count end.old) (S.failure_count end.new) (failed_by result.outcome) }
    ensures end { GoesOn S.never_fails S.failure_count end.old end.new }
{
    let outcome = chunks[place].upload(alloc, end);
    Noted { place, outcome }
}

/// Takes what workers have noted to the places of the chunks.
fn note_all<R: Receipt, S: StoreEnd<Receipt = R>>(
    noted: &mut [Option<Result<Flushed<R>, StoreFault>>],
    workers: &mut [Worker<R, S>],
)
    requires places { All (λ w. All (λ n. n.place < length noted.old) w.noted.items) workers.old }
    ensures of { (chunks : List Flown) → All (λ w.
        All (λ n. IsNoteOf R.bytes R.name chunks n.place n.outcome) w.noted.items) workers.old →
        AreNotedOf R.bytes R.name chunks noted.old →
        AreNotedOf R.bytes R.name chunks noted.new }
    ensures failed { failed_in noted.new
        ≤ failed_in noted.old + sum_by (λ w. sum_by (λ n. failed_by n.outcome) w.noted.items) workers.old }
    ensures many { length noted.new ≡ length noted.old }
    ensures ends { map (λ w. w.end) workers.new ≡ map (λ w. w.end) workers.old }
{
    for worker in workers.iter_mut() {
        note_each(noted, worker);
    }
}

/// Takes what one worker has noted to the places of the chunks.
fn note_each<R: Receipt, S: StoreEnd<Receipt = R>>(
    noted: &mut [Option<Result<Flushed<R>, StoreFault>>],
    worker: &mut Worker<R, S>,
)
    requires places { All (λ n. n.place < length noted.old) worker.old.noted.items }
    ensures of { (chunks : List Flown) →
        All (λ n. IsNoteOf R.bytes R.name chunks n.place n.outcome) worker.old.noted.items →
        AreNotedOf R.bytes R.name chunks noted.old → AreNotedOf R.bytes R.name chunks noted.new }
    ensures failed { failed_in noted.new ≤ failed_in noted.old + sum_by (λ n. failed_by n.outcome) worker.old.noted.items }
    ensures len { length noted.new ≡ length noted.old }
    ensures end { worker.new.end ≡ worker.old.end }
{
    while let Some(note) = worker.noted.pop() {
        note_one(noted, note);
    }
}

/// Takes a note to the place of its chunk.
fn note_one<R: Receipt>(noted: &mut [Option<Result<Flushed<R>, StoreFault>>], note: Noted<R>)
    requires { note.place < length noted.old }
    ensures { noted.new ≡ set noted.old note.place (Some note.outcome) }
{
    let Noted { place, outcome } = note;
    noted[place] = Some(outcome);
}

/// Uploads in the one thread what is not noted, and gives of each chunk what came of it.
fn upload_rest<R: Receipt, S: StoreEnd<Receipt = R>>(
    alloc: Global,
    own: &mut S,
    chunks: &[&ClaimedChunk],
    noted: &mut [Option<Result<Flushed<R>, StoreFault>>],
) -> Result<Vec<Option<Flushed<R>>>, AllocError>
    requires short { All (λ b. IsShort b.now) chunks.now }
    requires of { AreNotedOf R.bytes R.name (map (λ b. b.now) chunks.now) noted.old }
    requires many { length noted.old ≡ length chunks.now }
    ensures of { IfOk result (λ all. AreUploadsOf R.bytes R.name (map (λ b. b.now) chunks.now) all.items) }
    ensures causes { IfOk result (λ all. (more : ℕ) × (lost_in all.items ≤ failed_in noted.old + more)
        × HaveCause (S.failure_count own.old) (S.failure_count own.new) more) }
    ensures end { GoesOn S.never_fails S.failure_count own.old own.new }
{
    let mut all = Vec::with_capacity(alloc, chunks.len())?;
    for place in 0..chunks.len() {
        let done = outcome_of(alloc, own, chunks[place], noted[place].take())?;
        all.push(done)?;
    }
    Ok(all)
}

/// What came of a chunk: what is noted of it, or else of its upload now. It fails only where memory runs out, or ran out when it was noted.
fn outcome_of<R: Receipt, S: StoreEnd<Receipt = R>>(
    alloc: Global,
    own: &mut S,
    chunk: &ClaimedChunk,
    noted: Option<Result<Flushed<R>, StoreFault>>,
) -> Result<Option<Flushed<R>>, AllocError>
    requires short { IsShort chunk.now }
    requires of { IfSome noted (λ outcome. IfOk outcome (IsUploadOf R.bytes R.name chunk.now)) }
    ensures of { IfOk result (λ done. IfSome done (IsUploadOf R.bytes R.name chunk.now)) }
    ensures causes { IfOk result (λ done. (more : ℕ) × (lost_by done ≤ failed_if noted + more)
        × HaveCause (S.failure_count own.old) (S.failure_count own.new) more) }
    ensures end { GoesOn S.never_fails S.failure_count own.old own.new }
{
    let outcome = match noted {
        Some(outcome) => outcome,
        None => chunk.upload(alloc, own),
    };
    match outcome {
        Ok(done) => Ok(Some(done)),
        Err(StoreFault::NoMemory) => Err(AllocError),
        Err(_) => Ok(None),
    }
}
