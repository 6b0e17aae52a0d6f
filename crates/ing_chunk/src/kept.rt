//! What is kept of entries, so that no look at them is needed.
ghost use Rattle.std.specs.Prelude.{◌+◌, ◌*◌, ◌^◌, ◌≤◌, ◌∷◌, ◌++◌, [], List, length};
ghost use Rattle.ing_chunk.specs.Chunks.{in_blocks};
ghost use Rattle.ing_chunk.specs.Kept.{IsKeptOf};
ghost use Rattle.ing_chunk.specs.declared.numbered.Numbered.{Numbered};

use super::block::Block;
use super::numbered::{LAST_STAMP, Numbered, size_of};

/// How many entries there are, their size in bytes, and their least and greatest stamp in nanoseconds.
#[derive(Clone, Copy, Debug)]
pub(crate) struct Kept {
    pub count: u64,
    pub size: u128,
    pub least: u64,
    pub greatest: u64,
}

impl Kept {
    /// Of no entry.
    pub const NONE: Kept = Kept {
        count: 0,
        size: 0,
        least: LAST_STAMP,
        greatest: 0,
    };

    /// Of one entry.
    pub fn of_one(numbered: &Numbered) -> Kept
        ensures { IsKeptOf result (numbered.now ∷ []) }
    {
        let stamp = numbered.entry.stamp.nanoseconds();
        Kept {
            count: 1,
            size: size_of(&numbered.entry),
            least: stamp,
            greatest: stamp,
        }
    }

    /// Of these entries.
    pub fn of_all(run: &[Numbered]) -> Kept
        requires { length run.now ≤ 2 ^ 62 }
        ensures { IsKeptOf result run.now }
    {
        let mut kept = Kept::NONE;
        for numbered in run {
            kept = kept.and(Kept::of_one(numbered));
        }
        kept
    }

    /// Of the entries of these blocks.
    pub fn of_blocks(blocks: &[Block]) -> Kept
        requires { length (in_blocks blocks.now) ≤ 2 ^ 62 }
        ensures { IsKeptOf result (in_blocks blocks.now) }
    {
        let mut kept = Kept::NONE;
        for block in blocks {
            kept = kept.and(Kept::of_all(block.entries()));
        }
        kept
    }

    /// Of these entries and of others together.
    pub fn and(self, other: Kept) -> Kept
        requires count { self.count + other.count ≤ 2 ^ 62 }
        requires size { self.size ≤ self.count * 2 ^ 65 }
        requires other_size { other.size ≤ other.count * 2 ^ 65 }
        ensures { (xs ys : List Numbered) → IsKeptOf self xs → IsKeptOf other ys →
            IsKeptOf result (xs ++ ys) }
    {
        Kept {
            count: self.count + other.count,
            size: self.size + other.size,
            least: self.least.min(other.least),
            greatest: self.greatest.max(other.greatest),
        }
    }
}
