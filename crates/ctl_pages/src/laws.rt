//! Laws of the definitions, each the contract of a function with nothing to do.
ghost use Rattle.std.specs.Prelude.{◌≡◌, ◌<◌, List, filter, map, true};
ghost use Rattle.ctl_pages.specs.Pages.{ArePages, IsInOrder, Placed, Wanted, answer_of, is_wanted, joined, may_answer, next_of};

/// Of entries in the order of a query, which do not change meanwhile, all pages, from the first to
/// the last, have exactly those that are wanted, in their order: each entry stands in one page,
/// and in no other.
pub fn pages_have_all()
    ensures { (all : List Placed) (wanted : Wanted) (pages : List (List Placed)) →
        0 < wanted.limit → wanted.pages ≡ true → IsInOrder wanted.order all →
        ArePages all wanted pages → joined pages ≡ filter (is_wanted wanted) all }
{}

/// There are such pages: they are followed to an end.
pub fn pages_end()
    ensures { (all : List Placed) (wanted : Wanted) →
        0 < wanted.limit → wanted.pages ≡ true → IsInOrder wanted.order all →
        (pages : List (List Placed)) × ArePages all wanted pages }
{}

/// The answer to what is wanted, of any entries, may answer it.
pub fn answers_may_answer()
    ensures { (all : List Placed) (wanted : Wanted) → 0 < wanted.limit →
        let answer = answer_of wanted all in
        may_answer wanted (map (λ placed. placed.told) answer) (next_of wanted answer) ≡ true }
{}
