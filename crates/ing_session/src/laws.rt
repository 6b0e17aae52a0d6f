//! What the definition of lines says, apart from the code that reads them.
ghost use Rattle.std.specs.Prelude.{◌≡◌, ◌<◌, ◌++◌, ◌∷◌, [], List, ℕ, length};
ghost use Rattle.std.specs.List.{AllByRecursion, flat_map};
ghost use Rattle.ing_session.specs.Lines.{lines_of, with_feed};
ghost use Rattle.ing_session.specs.Parts.{HasNoFeed};

/// The lines of an input are what stands before each line feed, and what stands after the last,
/// where that is not empty; and each input is cut so. A law of the definition, with nothing to do.
pub fn lines_end_at_line_feeds()
    ensures ended { (lines : List (List ℕ)) → AllByRecursion HasNoFeed lines
        → lines_of (flat_map with_feed lines) ≡ lines }
    ensures open { (lines : List (List ℕ)) (last : List ℕ) → AllByRecursion HasNoFeed lines
        → HasNoFeed last → 0 < length last
        → lines_of (flat_map with_feed lines ++ last) ≡ lines ++ last ∷ [] }
    ensures every { (bytes : List ℕ) → (lines : List (List ℕ)) × (last : List ℕ)
        × AllByRecursion HasNoFeed lines × HasNoFeed last
        × (bytes ≡ flat_map with_feed lines ++ last) }
{}
