//! What holds of all snapshots, for the crates above.
ghost use Rattle.std.specs.Prelude.{◌≡◌, ◌<◌, ◌≤◌, ◌+◌, ◌++◌, ◌∷◌, ℕ, [], Bool, false, List, All, IsPermutation, drop, filter, get_or, length, map, take};
ghost use Rattle.std.specs.List.{Contains};
ghost use Rattle.std.specs.List.Sorted.{IsSortedBy};
ghost use Rattle.ing_rows.specs.Rows.{Row};
ghost use Rattle.ing_parts.specs.declared.found.Found.{Found};
ghost use Rattle.ing_rows.specs.declared.order.Order.{Order};
ghost use Rattle.ing_parts.specs.declared.snapshot.Part.{Part};
ghost use Rattle.ing_parts.specs.declared.snapshot.Snapshot.{Snapshot};
ghost use Rattle.ing_parts.specs.Answers.{BestState, IsAnswer, IsFrom, Offers, PassesOver, StandApart, StandFor, precedes};
ghost use Rattle.ing_chunk.specs.Chunks.{AreInOrder};
ghost use Rattle.ing_chunk.specs.declared.numbered.Numbered.{Numbered};
ghost use Rattle.ing_parts.specs.Parts.{Adds, AddsParts, AddsRows, AreFrom, HasRows, KeepsInRange, ListsRows, RowsAreFound, behind, found_at, found_between, found_of, is_within, standing, within};
ghost use Rattle.ing_parts.specs.Questions.{Question};

use ing_chunk::stamps_rise;
use ing_store::Receipt;

/// What is offered after something else is offered together with it, in whatever order; nothing changes where none is offered, or
/// none that changes an answer. What is kept of entries has the answer that all of them have, from none on.
pub fn offers_join()
    ensures none { (b : BestState) → Offers [] b b }
    ensures both { (x y : List Found) (old mid new : BestState) →
        Offers x old mid → Offers y mid new → Offers (x ++ y) old new }
    ensures alike { (x y : List Found) (old new : BestState) →
        IsPermutation x y → Offers x old new → Offers y old new }
    ensures passed { (from : ℕ) (b : BestState) (all : List Found) →
        PassesOver from b → All (λ f. IsFrom b.order from f.entry.stamp) all → Offers all b b }
    ensures answered { (all answer : List Found) (old new : BestState) →
        Offers all old new → IsAnswer old.order old.limit new.held answer →
        IsAnswer old.order old.limit (old.held ++ all) answer }
{}

/// The same of entries of one stream in a range: of those behind others, and of those before them; of one that changes nothing, of one
/// that is not in the range, and of those that come from a stamp on from which none does, in the range or out of it. So a run in order
/// ends at the first such stamp.
pub fn offers_of_streams()
    ensures next { (name : List ℕ) (q : Question) (xs more all : List Numbered)
        (old mid new : BestState) → all ≡ xs ++ more →
        Offers (found_between name q xs) old mid →
        Offers (found_between name q more) mid new →
        Offers (found_between name q all) old new }
    ensures previous { (name : List ℕ) (q : Question) (xs more all : List Numbered)
        (old mid new : BestState) → all ≡ more ++ xs →
        Offers (found_between name q xs) old mid →
        Offers (found_between name q more) mid new →
        Offers (found_between name q all) old new }
    ensures one { (name : List ℕ) (q : Question) (e : Numbered) (b : BestState) →
        Offers (found_of name e ∷ []) b b → Offers (found_between name q (e ∷ [])) b b }
    ensures out { (name : List ℕ) (q : Question) (e : Numbered) (b : BestState) →
        is_within q (found_of name e) ≡ false → Offers (found_between name q (e ∷ [])) b b }
    ensures from { (name : List ℕ) (q : Question) (from : ℕ) (es : List Numbered) (b : BestState) →
        PassesOver from b → AreFrom b.order from es →
        Offers (found_between name q es) b b }
    ensures none { (name : List ℕ) (q : Question) (b : BestState) →
        Offers (found_between name q []) b b }
    ensures rest { (name : List ℕ) (q : Question) (run : List Numbered) (i : ℕ) (e : Numbered)
        (old b : BestState) → AreInOrder run → i < length run → e ≡ get_or run i e →
        b.order ≡ Order.Forward → PassesOver e.entry.stamp b →
        Offers (found_between name q (take i run)) old b →
        Offers (found_between name q run) old b }
    ensures front { (name : List ℕ) (q : Question) (run : List Numbered) (i : ℕ) (e : Numbered)
        (old b : BestState) → AreInOrder run → i < length run → e ≡ get_or run i e →
        b.order ≡ Order.Backward → PassesOver e.entry.stamp b →
        Offers (found_between name q (drop (i + 1) run)) old b →
        Offers (found_between name q run) old b }
{
    stamps_rise();
}

/// An answer has as many entries as it may at most, in its order, and each of them is one of those that it is an answer of.
/// (Loki documentation: HTTP API, query range: limit and direction.)
pub fn answers_are_first()
    ensures most { (order : Order) (limit : ℕ) (all answer : List Found) →
        IsAnswer order limit all answer → length answer ≤ limit }
    ensures in_order { (order : Order) (limit : ℕ) (all answer : List Found) →
        IsAnswer order limit all answer → IsSortedBy (precedes order) answer }
    ensures among { (order : Order) (limit : ℕ) (all answer : List Found) →
        IsAnswer order limit all answer → (f : Found) → Contains answer f → Contains all f }
{}

/// Of entries that do not change meanwhile, a full page and the answer that goes on behind its last entry are one answer: so all pages
/// together have each entry that is wanted, once, in order, however many have one stamp. A page that is not full has all that is wanted.
/// (Own.)
pub fn pages_are_one()
    ensures next { (q : Question) (all page rest front : List Found) (last : Found) (more : ℕ) →
        StandApart all → page ≡ front ++ last ∷ [] → length page ≡ q.limit →
        IsAnswer q.order q.limit (within q all) page →
        IsAnswer q.order more (within (behind last q) all) rest →
        IsAnswer q.order (q.limit + more) (within q all) (page ++ rest) }
    ensures last { (order : Order) (limit : ℕ) (all page : List Found) →
        IsAnswer order limit all page → length page < limit → IsPermutation all page }
{}

/// Entries stand for those of which they are a rearrangement, and for those for which others stand that they stand for; and
/// so side by side with others.
pub fn standing_joins()
    ensures alike { (order : Order) (limit : ℕ) (some all : List Found) →
        IsPermutation some all → StandFor order limit some all }
    ensures through { (order : Order) (limit : ℕ) (some mid all : List Found) →
        StandFor order limit some mid → StandFor order limit mid all → StandFor order limit some all }
    ensures beside { (order : Order) (limit : ℕ) (some all others : List Found) →
        StandFor order limit some all → StandFor order limit (some ++ others) (all ++ others) }
    ensures answered { (order : Order) (limit : ℕ) (some all answer : List Found) →
        StandFor order limit some all → IsAnswer order limit some answer → IsAnswer order limit all answer }
{}

/// What is added after something else is added together with it; and where nothing was added, nothing has changed.
pub fn additions_join<R: Receipt>()
    ensures none { (s : Snapshot R) → Adds [] s s }
    ensures both { (a b : List Found) (old mid new : Snapshot R) →
        Adds a old mid → Adds b mid new → Adds (a ++ b) old new }
{}

/// The same of rows; and entries are added as rows where they are what a query finds of them, in whatever order.
pub fn rows_join<R: Receipt>()
    ensures none { (s : Snapshot R) → AddsRows [] s s }
    ensures both { (a b : List Row) (old mid new : Snapshot R) →
        AddsRows a old mid → AddsRows b mid new → AddsRows (a ++ b) old new }
    ensures of { (all : List Found) (rows : List Row) (old new : Snapshot R) →
        IsPermutation (map found_at rows) all → Adds all old new → AddsRows rows old new }
{}

/// What is added to parts after something else is added together with it; and where nothing was added, nothing has changed.
pub fn parts_join<R: Receipt>()
    ensures none { (ps : List (Part R)) → AddsParts [] ps ps }
    ensures both { (a b : List Found) (old mid new : List (Part R)) →
        AddsParts a old mid → AddsParts b mid new → AddsParts (a ++ b) old new }
    ensures alike { (a b : List Found) (old new : List (Part R)) →
        IsPermutation a b → AddsParts a old new → AddsParts b old new }
{}

/// The same of rows; and entries are added as rows where they are what a query finds of them, in whatever order.
pub fn listed_rows_join<R: Receipt>()
    ensures none { (ps : List (Part R)) → ListsRows [] ps ps }
    ensures both { (a b : List Row) (old mid new : List (Part R)) →
        ListsRows a old mid → ListsRows b mid new → ListsRows (a ++ b) old new }
    ensures of { (all : List Found) (rows : List Row) (old new : List (Part R)) →
        IsPermutation (map found_at rows) all → AddsParts all old new → ListsRows rows old new }
{}

/// What stands in a snapshot of rows is what a query finds of them, and what it keeps of them is in its range.
pub fn rows_stand<R: Receipt>()
    ensures among { (rows : List Row) (s : Snapshot R) → HasRows rows s →
        (f : Found) → Contains (standing s) f → Contains (map found_at rows) f }
    ensures kept { (rows : List Row) (s : Snapshot R) → HasRows rows s → KeepsInRange s }
{}

/// What a query finds of the rows of chunks are their entries.
pub fn rows_are_found()
    ensures { RowsAreFound }
{}

/// What a query finds of the rows that pass a test does not depend on their order.
pub fn found_rows_have_no_order()
    ensures { (test : Row → Bool) (rows others : List Row) → IsPermutation rows others →
        IsPermutation (map found_at (filter test rows)) (map found_at (filter test others)) }
{}
