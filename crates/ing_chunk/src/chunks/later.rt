//! What stands behind a head that is closed by some of the entries of a push, made before anything is changed.
ghost use Rattle.std.specs.Prelude.{◌≡◌, ℕ, ◌+◌, ◌≤◌, ◌<◌, ◌^◌, All, IfOk, vec_len};
ghost use Rattle.ing_chunk.specs.Behind.{Continues, IsCounted};
ghost use Rattle.ing_chunk.specs.Parts.{IsShort};

use super::Chunks;
use crate::chunk::Chunk;
use ing_rows::{Entry, Rules, SealReason};
use std::alloc::{AllocError, Global};

/// What entries come to behind a closed head.
#[derive(Debug, Drop)]
pub(super) struct Later {
    /// The number that the next entry has.
    pub next: u64,
    /// What the chunk of the closed head has of them, and why it takes no more, where it is sealed.
    pub tail: Chunk,
    /// The sealed chunks behind that one, the oldest first.
    pub sealed: Vec<Chunk>,
    /// How many entries the sealed ones have, the tail among them where it is sealed.
    pub count: u64,
    /// Their size in bytes.
    pub size: u128,
    /// The chunk that grows behind them.
    pub growing: Option<Chunk>,
}

impl Later {
    /// What entries come to of which the first has this number, where the chunk has this size, in bytes, once its head is
    /// closed.
    pub fn of(
        alloc: Global,
        rules: &Rules,
        size: u128,
        next: u64,
        entries: Vec<Entry>,
        now: u64,
    ) -> Result<Later, AllocError>
        requires few { next + vec_len entries ≤ 2 ^ 62 }
        requires lines { All IsShort entries.items }
        requires target { rules.now.chunk_target_size ≤ 2 ^ 30 }
        ensures continues { IfOk result (Continues rules.now now size next entries.items) }
        ensures counted { IfOk result IsCounted }
    {
        if size >= u128::from(rules.chunk_target_size) {
            Later::of_others(alloc, rules, next, entries, now)
        } else {
            Later::of_same(alloc, rules, size as u64, next, entries, now)
        }
    }

    /// What they come to behind a chunk that is full.
    fn of_others(
        alloc: Global,
        rules: &Rules,
        next: u64,
        entries: Vec<Entry>,
        now: u64,
    ) -> Result<Later, AllocError>
        requires few { next + vec_len entries ≤ 2 ^ 62 }
        requires lines { All IsShort entries.items }
        requires target { rules.now.chunk_target_size ≤ 2 ^ 30 }
        ensures continues { IfOk result (λ later. (size : ℕ) →
            rules.now.chunk_target_size ≤ size → Continues rules.now now size next entries.items later) }
        ensures counted { IfOk result IsCounted }
    {
        let mut tail = Chunk::begin(alloc, next);
        tail.seal(SealReason::Full);
        let mut others = Chunks::from_number(alloc, next);
        others.add_all(alloc, rules, entries, now)?;
        let Chunks {
            next,
            waiting,
            waiting_count,
            waiting_size,
            growing,
        } = others;
        Ok(Later {
            next,
            tail,
            sealed: waiting,
            count: waiting_count,
            size: waiting_size,
            growing,
        })
    }

    /// What they come to where the chunk has room for more.
    fn of_same(
        alloc: Global,
        rules: &Rules,
        size: u64,
        next: u64,
        entries: Vec<Entry>,
        now: u64,
    ) -> Result<Later, AllocError>
        requires few { next + vec_len entries ≤ 2 ^ 62 }
        requires lines { All IsShort entries.items }
        requires target { rules.now.chunk_target_size ≤ 2 ^ 30 }
        requires below { size < rules.now.chunk_target_size }
        ensures continues { IfOk result (Continues rules.now now size next entries.items) }
        ensures counted { IfOk result IsCounted }
    {
        let mut others = Chunks::from_number(alloc, next);
        others.add_behind(alloc, rules, size, entries, now)?;
        let Chunks {
            next,
            mut waiting,
            waiting_count,
            waiting_size,
            growing,
        } = others;
        if waiting.is_empty() {
            return Ok(Later {
                next,
                tail: growing.unwrap_or(Chunk::begin(alloc, next)),
                sealed: waiting,
                count: 0,
                size: 0,
                growing: None,
            });
        }
        let tail = waiting.remove(0);
        Ok(Later {
            next,
            tail,
            sealed: waiting,
            count: waiting_count,
            size: waiting_size,
            growing,
        })
    }
}
