//! The refusals as a person looks them up.
ghost use Rattle.std.specs.Prelude.{◌≡◌, ◌==◌, bytes_eq, map, Contains, MatchOption};
ghost use Rattle.std.specs.List.{find as first_where};
ghost use Rattle.std.specs.Option.{option_copied};
ghost use Rattle.std.specs.List.Sorted.{IsStrictlyIncreasing};
ghost use Rattle.ing_refusals.specs.declared.refusal.Refusal as table;
ghost use Rattle.ing_refusals.specs.Refusals.{refusal_number, refusal_name};
ghost use Rattle.ctl_explain.specs.Words.{Names};

use crate::table::{Page, TABLE};

/// What is told of each refusal there is, in order of number (own). Takes no memory.
pub fn pages() -> &'static [Page]
    ensures each { (refusal : table.Refusal) → Contains (map (λ page. page.refusal) result.now) refusal }
    ensures order { IsStrictlyIncreasing (map (λ page. refusal_number page.refusal) result.now) }
{
    &TABLE
}

/// The first page of the refusal of a number.
fn of_number(all: &[Page], number: u32) -> Option<&Page>
    ensures { option_copied result ≡ first_where (λ page. refusal_number page.refusal == number) all.now }
{
    all.iter().find(|page| page.refusal.number() == number)
}

/// The first page of the refusal of a name.
fn of_name<'a>(all: &'a [Page], name: &str) -> Option<&'a Page>
    ensures { option_copied result
        ≡ first_where (λ page. bytes_eq (refusal_name page.refusal) name.now) all.now }
{
    all.iter().find(|page| page.refusal.name() == name)
}

/// What is told of the refusal that a word names, by its number or its name, letter for letter; `None`
/// exactly where it names none (own). Takes no memory.
pub fn page_for(word: &str) -> Option<&'static Page>
    ensures { MatchOption result ((refusal : table.Refusal) → ¬ Names word.now refusal)
        (λ page. Names word.now page.now.refusal) }
{
    let all = pages();
    if let Some(page) = of_name(all, word) {
        return Some(page);
    }
    match word.parse::<u32>() {
        Ok(number) => of_number(all, number),
        Err(_) => None,
    }
}
