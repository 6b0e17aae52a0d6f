//! Laws of the definitions, each the contract of a function with nothing to do.
ghost use Rattle.ing_rows.specs.declared.entry.Entry.{Entry};
ghost use Rattle.ing_rows.specs.declared.rules.Rules as rules;
ghost use Rattle.ing_rows.specs.declared.place.SealReason.{SealReason};
ghost use Rattle.std.specs.Prelude.{◌≡◌, ℕ, ◌+◌, ◌≤◌, Bool, true, false, ◌&&◌, ◌==◌, List, ◌++◌, All, bytes_eq, filter, is_none, length, map, reverse, IsPermutation, Option, None};
ghost use Rattle.ing_rows.specs.Rows.{StreamKey, Row, Mark, State, IsSame, empty_state, same_stream, is_of_chunk, is_stored, count_of, streams_of, live_streams};
ghost use Rattle.ing_rows.specs.Sound.{IsSound};
ghost use Rattle.ing_rows.specs.Facts.{facts_of};
ghost use Rattle.ing_rows.specs.Steps.{Pushes, accepted, accepted_in_turn, is_growing, is_mark_of, seal_of, chunk_at, verdicts_of, after_push, due_of, due_by, sealed_by, swept};
ghost use Rattle.ing_rows.specs.Flushes.{FlushesAreApart, FlushesHaveNoOrder, FlushesKeepFacts};
ghost use Rattle.ing_rows.specs.Kept.{numbered};
ghost use Rattle.ing_rows.specs.Turns.{facts_with, facts_with_all, verdicts_by, accepted_among, beside, IsOlder, NoneMarked, OneMarkEach, IsMarked, BeginsWithMarks};
ghost use Rattle.ing_rows.specs.Events.{accepted_entries, is_full, due_count, sealed_count};
ghost use Rattle.ing_rows.specs.Worked.{window_moves_with_greatest_stamp, duplicate_of_last_only, chunks_grow, chunks_fall_due};

/// The worked values of windows, duplicates, growing chunks and chunks that fall due follow from the definitions.
pub fn worked_rows()
    ensures windows { window_moves_with_greatest_stamp }
    ensures duplicates { duplicate_of_last_only }
    ensures chunks { chunks_grow }
    ensures dues { chunks_fall_due }
{}

/// What is computed of a push, verdicts and state, is a chain of judged and placed entries.
pub fn each_push_is_a_run_of_entries()
    ensures { (rules : rules.Rules) (s : StreamKey) (now : ℕ) (es : List Entry) (old : State) →
        Pushes rules s now es (verdicts_of rules s now es old) old (after_push rules s now es old) }
{}

/// The rows that a push adds are the entries that it was answered accepted, with the numbers answered, whatever their
/// chunks, blocks and places; none of the others is lost.
pub fn a_push_adds_what_it_accepts()
    ensures { (rules : rules.Rules) (s : StreamKey) (now : ℕ) (es : List Entry) (old : State) →
        let told = verdicts_of rules s now es old in
        map numbered (after_push rules s now es old).rows
        ≡ reverse (accepted_entries s es told) ++ map numbered old.rows }
{}

/// A push keeps a state sound, and so does another order of its rows and marks.
pub fn pushes_keep_states_sound()
    ensures fresh { IsSound empty_state }
    ensures push { (rules : rules.Rules) (s : StreamKey) (now : ℕ) (es : List Entry) (old : State) →
        IsSound old → IsSound (after_push rules s now es old) }
    ensures order { (a b : State) → IsSound a → IsSame a b → IsSound b }
{}

/// States that are the same but for the order of their rows and marks are pushed to alike: the facts of each stream are
/// the same, they are as full, the verdicts are the same, and so is what is left, but for order.
pub fn order_does_not_count()
    ensures facts { (a b : State) (s : StreamKey) → IsSound a → IsSame a b →
        facts_of a.rows s ≡ facts_of b.rows s }
    ensures full { (a b : State) (s : StreamKey) (more : ℕ) → IsSame a b →
        is_full a s more ≡ is_full b s more }
    ensures verdicts { (rules : rules.Rules) (s : StreamKey) (now : ℕ) (es : List Entry)
        (a b : State) → IsSound a → IsSame a b →
        verdicts_of rules s now es a ≡ verdicts_of rules s now es b }
    ensures states { (rules : rules.Rules) (s : StreamKey) (now : ℕ) (es : List Entry)
        (a b : State) → IsSound a → IsSame a b →
        IsSame (after_push rules s now es a) (after_push rules s now es b) }
{}

/// What is kept of a stream suffices to judge its entries: the facts go on with each acceptance, the verdicts of a push are
/// those by the facts, and its state is that of accepting in turn what they accept.
pub fn facts_suffice()
    ensures facts { (rules : rules.Rules) (s : StreamKey) (now : ℕ) (e : Entry) (old : State) →
        IsSound old →
        facts_of (accepted rules s e now old).rows s ≡ facts_with (facts_of old.rows s) e }
    ensures verdicts { (rules : rules.Rules) (s : StreamKey) (now : ℕ) (es : List Entry)
        (old : State) → IsSound old →
        verdicts_of rules s now es old ≡ verdicts_by rules (facts_of old.rows s) es }
    ensures state { (rules : rules.Rules) (s : StreamKey) (now : ℕ) (es : List Entry)
        (old : State) →
        let kept = accepted_among es (verdicts_of rules s now es old) in
        after_push rules s now es old
        ≡ accepted_in_turn (count_of old.rows s) rules s now kept old }
{}

/// Where at most one chunk of the stream grows, accepting entries changes one chunk after another of the stream, and leaves
/// what stands beside these as it is.
pub fn chunks_are_apart()
    ensures { (rules : rules.Rules) (s : StreamKey) (now n : ℕ) (es : List Entry)
        (mine others : State) → length (filter (is_growing s) mine.marks) ≤ 1 →
        chunk_at s n mine.marks ≤ n → IsOlder s (chunk_at s n mine.marks) others →
        accepted_in_turn n rules s now es (beside mine others)
        ≡ beside (accepted_in_turn n rules s now es mine) others }
{}

/// Entries that are accepted in turn go on from the facts of their stream, keep a state sound, and leave the same whatever
/// the order of its rows and marks.
pub fn acceptances_in_turn()
    ensures facts { (rules : rules.Rules) (s : StreamKey) (now : ℕ) (es : List Entry)
        (old : State) → IsSound old →
        facts_of (accepted_in_turn (count_of old.rows s) rules s now es old).rows s
        ≡ facts_with_all (facts_of old.rows s) es }
    ensures sound { (rules : rules.Rules) (s : StreamKey) (now : ℕ) (es : List Entry)
        (old : State) → IsSound old →
        IsSound (accepted_in_turn (count_of old.rows s) rules s now es old) }
    ensures order { (rules : rules.Rules) (s : StreamKey) (now : ℕ) (es : List Entry)
        (a b : State) → IsSound a → IsSame a b →
        IsSame (accepted_in_turn (count_of a.rows s) rules s now es a)
        (accepted_in_turn (count_of b.rows s) rules s now es b) }
{}

/// How what verdicts and counters read is put together from parts of a state: the facts of a stream whose rows are all in one
/// part are read there, but for how many streams are live; streams are counted by their first rows; and parts that share no
/// stream are sound together.
pub fn parts_are_apart()
    ensures facts { (a b : State) (s : StreamKey) →
        All (λ r. same_stream r.stream s ≡ false) b.rows →
        facts_of (a.rows ++ b.rows) s
        ≡ record (facts_of a.rows s) {
          live = length (live_streams (a.rows ++ b.rows) s.tenant);
        } }
    ensures live { (st : State) (tenant : List ℕ) → IsSound st →
        All (λ r. is_stored r.place ≡ false) st.rows →
        length (live_streams st.rows tenant)
        ≡ length (filter (λ r. bytes_eq r.stream.tenant tenant && (r.number == 0)) st.rows) }
    ensures streams { (st : State) → IsSound st →
        length (streams_of st.rows) ≡ length (filter (λ r. r.number == 0) st.rows) }
    ensures sound { (a b : State) →
        All (λ r. All (λ q. same_stream q.stream r.stream ≡ false) b.rows) a.rows →
        All (λ m. is_none m.reason ≡ true →
        All (λ k. is_growing m.stream k ≡ false) b.marks) a.marks →
        IsSound a → IsSound b → IsSound (beside a b) }
    // The order of parts is one of rows and marks.
    ensures same { (a b c d : State) → IsSame a c → IsSame b d →
        IsSame (beside a b) (beside c d) }
    ensures swapped { (a b : State) → IsSame (beside a b) (beside b a) }
{}

/// Sealing goes chunk by chunk: parts of a state of which neither has rows of a chunk that the other has a mark of are sealed
/// each alone, by force and in a sweep. Sealing keeps a state sound, and the facts of each stream as they are.
pub fn seals_are_apart()
    ensures parts { (why : Mark → Option SealReason) (a b : State) →
        NoneMarked a.marks b.rows → NoneMarked b.marks a.rows →
        sealed_by why (beside a b) ≡ beside (sealed_by why a) (sealed_by why b) }
    // Why a chunk is due goes by its own rows.
    ensures due { (rules : rules.Rules) (now : ℕ) (m : Mark) (rows more : List Row) →
        (All (λ r. is_of_chunk m.stream m.chunk r ≡ false) more →
        due_of rules now (rows ++ more) m ≡ due_of rules now rows m)
        × (All (λ r. is_of_chunk m.stream m.chunk r ≡ false) rows →
        due_of rules now (rows ++ more) m ≡ due_of rules now more m) }
    ensures counts { (is_due : Mark → Bool) (marks more : List Mark) →
        due_count is_due (marks ++ more) ≡ due_count is_due marks + due_count is_due more }
    // Only the reasons for the marks that there are count.
    ensures reasons { (why other : Mark → Option SealReason) (st : State) →
        All (λ m. why m ≡ other m) st.marks →
        (sealed_by why st ≡ sealed_by other st)
        × (sealed_count why st.marks ≡ sealed_count other st.marks) }
    ensures sweep { (rules : List ℕ → rules.Rules) (now : ℕ) (a b : State) →
        NoneMarked a.marks b.rows → NoneMarked b.marks a.rows →
        (swept rules now (beside a b) ≡ beside (swept rules now a) (swept rules now b))
        × (sealed_count (due_by rules now (a.rows ++ b.rows)) (a.marks ++ b.marks)
        ≡ sealed_count (due_by rules now a.rows) a.marks
        + sealed_count (due_by rules now b.rows) b.marks) }
    // Where no mark is given a reason, nothing changes.
    ensures still { (why : Mark → Option SealReason) (st : State) →
        All (λ m. seal_of why m ≡ None) st.marks →
        (sealed_by why st ≡ st) × (sealed_count why st.marks ≡ 0) }
    ensures sound { (why : Mark → Option SealReason) (st : State) → IsSound st →
        IsSound (sealed_by why st) }
    ensures facts { (why : Mark → Option SealReason) (st : State) (s : StreamKey) →
        facts_of (sealed_by why st).rows s ≡ facts_of st.rows s }
{}

/// Where each chunk has at most one mark, states that are the same but for the order of their rows and marks are sealed
/// alike, by force and in a sweep, and as many chunks are sealed whatever the order.
pub fn seals_have_no_order()
    ensures due { (rules : rules.Rules) (now : ℕ) (m : Mark) (a b : List Row) →
        IsPermutation a b → due_of rules now a m ≡ due_of rules now b m }
    ensures seals { (why : Mark → Option SealReason) (a b : State) → IsSame a b →
        OneMarkEach a.marks → IsSame (sealed_by why a) (sealed_by why b) }
    ensures sweeps { (rules : List ℕ → rules.Rules) (now : ℕ) (a b : State) → IsSame a b →
        OneMarkEach a.marks → IsSame (swept rules now a) (swept rules now b) }
    ensures counts { (why : Mark → Option SealReason) (a b : State) → IsSame a b →
        sealed_count why a.marks ≡ sealed_count why b.marks }
    ensures swept { (rules : List ℕ → rules.Rules) (now : ℕ) (a b : State) → IsSame a b →
        sealed_count (due_by rules now a.rows) a.marks
        ≡ sealed_count (due_by rules now b.rows) b.marks }
{}

/// Each chunk has at most one mark: pushes, acceptances and seals keep it so, whatever the order of rows and marks, and so do
/// parts of a state that share no chunk.
pub fn chunks_have_one_mark()
    ensures fresh { IsMarked empty_state }
    ensures push { (rules : rules.Rules) (s : StreamKey) (now : ℕ) (es : List Entry) (old : State) →
        IsMarked old → IsMarked (after_push rules s now es old) }
    ensures turns { (rules : rules.Rules) (s : StreamKey) (now : ℕ) (es : List Entry)
        (old : State) → IsMarked old →
        IsMarked (accepted_in_turn (count_of old.rows s) rules s now es old) }
    ensures seals { (why : Mark → Option SealReason) (st : State) → IsMarked st →
        IsMarked (sealed_by why st) }
    ensures order { (a b : State) → IsMarked a → IsSame a b → IsMarked b }
    ensures parts { (a b : State) →
        All (λ m. All (λ k. is_mark_of m.stream m.chunk k ≡ false) b.marks) a.marks →
        IsMarked a → IsMarked b → IsMarked (beside a b) }
{}

/// Where no chunk is stored, the chunks of a stream begin one by one with their marks, and go on so.
pub fn chunks_begin_with_marks()
    ensures { (rules : rules.Rules) (s : StreamKey) (now : ℕ) (es : List Entry) (old : State) →
        IsMarked old → BeginsWithMarks s old →
        BeginsWithMarks s (accepted_in_turn (count_of old.rows s) rules s now es old) }
{}

/// A flush goes chunk by chunk: a claim, a finish and a give back in one part of a state are those of the whole.
pub fn flushes_are_apart()
    ensures { FlushesAreApart }
{}

/// States that are the same but for the order of their rows and marks are flushed alike.
pub fn flushes_have_no_order()
    ensures { FlushesHaveNoOrder }
{}

/// A claim and a give back keep a state sound, its marks one a chunk, and the facts of each stream; so does a finish, but for
/// which streams are live.
pub fn flushes_keep_facts()
    ensures { FlushesKeepFacts }
{}
