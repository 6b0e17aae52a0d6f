//! With which entry a chunk that was read ends.
ghost use Rattle.std.specs.Prelude.{◌≡◌, ◌+◌, ◌≤◌, ◌^◌, length, true, false};
ghost use Rattle.std.specs.List.{list_any};
ghost use Rattle.std.specs.Option.{option_map};
ghost use Rattle.ing_chunk.specs.Chunks.{in_blocks};
ghost use Rattle.ing_relist.specs.Ends as spec;
ghost use Rattle.ing_relist.specs.Ends.{EndsWith};

use ing_codec::{LentBlock, LentEntry};
use ing_rows::Entry;

/// Whether it stands before this number alone, and is another entry than the one given.
fn is_other(lent: &LentEntry<'_>, end: u64, entry: &Entry) -> bool
    requires { end ≤ 2 ^ 62 }
    ensures { result ≡ spec.is_other end entry.now lent.now }
{
    lent.number().checked_add(1) == Some(end)
        && !(lent.stamp() == entry.stamp && lent.line() == entry.line.as_str())
}

/// Whether one of these is.
fn one_is_other(entries: &[LentEntry<'_>], end: u64, entry: &Entry) -> bool
    requires { end ≤ 2 ^ 62 }
    ensures { result ≡ list_any (spec.is_other end entry.now) entries.now }
{
    for lent in entries {
        if is_other(lent, end, entry) {
            return true;
        }
    }
    false
}

/// Whether one of these blocks has one that is.
fn has_other(blocks: &[LentBlock<'_>], end: u64, entry: &Entry) -> bool
    requires { end ≤ 2 ^ 62 }
    ensures { result ≡ list_any (spec.is_other end entry.now) (in_blocks blocks.now) }
{
    for block in blocks {
        if one_is_other(block.entries(), end, entry) {
            return true;
        }
    }
    false
}

/// Whether blocks end with this entry, where one is given: their numbers are those below this one.
pub(crate) fn end_with(blocks: &[LentBlock<'_>], end: u64, last: Option<&Entry>) -> bool
    requires { end ≤ 2 ^ 62 }
    ensures yes { result ≡ true → EndsWith (option_map (λ e. e.now) last.entry) end blocks.now }
    ensures no { result ≡ false → EndsWith (option_map (λ e. e.now) last.entry) end blocks.now → ⊥ }
{
    match last {
        Some(entry) => !has_other(blocks, end, entry),
        None => true,
    }
}
