//! The best entries so far.
ghost use Rattle.std.specs.Prelude.{◌≡◌, [], ◌∷◌, OnOk, true, ◌+◌, ◌*◌, ◌<◌, ◌≤◌, ◌++◌, OnErr, IsPermutation, length, set, vec_len};
ghost use Rattle.ing_rows.specs.declared.entry.Entry.{Entry};
ghost use Rattle.ing_parts.specs.Answers.{IsAnswer, IsPast, Offers, PassesOver};
ghost use Rattle.ing_parts.specs.Answers as answers;
ghost use Rattle.ing_parts.specs.Kept.{IsHeap, IsHeapBut, IsLastBelow};

use crate::found::{Found, StreamName, compare, goes_before};
use ing_rows::Order;
use std::alloc::{AllocError, Global};
use std::marker::Model;

/// The best of the entries that were offered, the first of an answer being the best: as many as an answer may have at most, in a
/// heap with the last of them on top. Contracts see the order, how many an answer may have, and what is kept. (Own.)
#[derive(Drop)]
pub struct Best {
    order: Order,
    limit: usize,
    held: Vec<Found>,
}

impl Model for Best {
    ghost use Rattle.ing_parts.specs.Answers.{BestState};

    ghost Value = { BestState };

    ghost view = { λ b. record { order = b.order; limit = b.limit; held = b.held.items } };

    ghost use Rattle.ing_parts.specs.Kept.{IsKept};

    ghost invariant = { λ b. IsKept b.order b.limit b.held.items };
}

/// Whether a stamp comes behind another in an order.
fn is_past(order: Order, bar: u64, stamp: u64) -> bool
    ensures yes { result ≡ true → IsPast order bar stamp }
{
    match order {
        Order::Forward => bar < stamp,
        Order::Backward => stamp < bar,
    }
}

impl Best {
    /// None yet, of answers in this order that have so many entries at most. Takes no memory.
    pub fn new(alloc: Global, order: Order, limit: usize) -> Best
        ensures { result ≡ record { order = order; limit = limit; held = [] } }
    {
        Best {
            order,
            limit,
            held: Vec::new(alloc),
        }
    }

    /// The order of the answer.
    pub fn order(&self) -> Order
        ensures { result ≡ self.now.order }
    {
        self.order
    }

    /// Whether none from this stamp on changes an answer: as many as it may have stand strictly before. Constant.
    pub fn bars(&self, from: u64) -> bool
        ensures { result ≡ true → PassesOver from self.now }
    {
        if self.held.len() < self.limit {
            return false;
        }
        match self.held.first() {
            Some(last) => is_past(self.order, last.entry.stamp.nanoseconds(), from),
            None => true,
        }
    }

    /// Whether an entry of this stamp, name and number changes no answer, so that it need not be copied. Constant.
    pub fn refuses(&self, stamp: u64, name: &StreamName, number: u64) -> bool
        ensures { result ≡ true → (entry : Entry) → entry.stamp ≡ stamp →
            Offers (record { name = name.now; number = number; entry = entry } ∷ [])
            self.now self.now }
    {
        if self.held.len() < self.limit {
            return false;
        }
        match self.held.first() {
            Some(last) => !goes_before(self.order, stamp, name, number, last),
            None => true,
        }
    }

    /// Keeps an entry, where it may be in an answer. `AllocError` where memory ran out.
    pub fn offer(&mut self, found: Found) -> Result<(), AllocError>
        ensures { OnOk result (Offers (found ∷ []) self.old self.new) }
    {
        if self.held.len() < self.limit {
            return add(&mut self.held, self.order, found);
        }
        if let Some(last) = self.held.first() {
            if compare(self.order, &found, last).is_lt() {
                replace_last(&mut self.held, self.order, found);
            }
        }
        Ok(())
    }

    /// Keeps of what another kept what may be in an answer. `AllocError` where memory ran out.
    pub fn take_over(&mut self, other: Best) -> Result<(), AllocError>
        ensures { OnOk result (Offers other.held self.old self.new) }
    {
        if self.held.is_empty() && self.order == other.order && self.limit == other.limit {
            self.held = other.held;
            return Ok(());
        }
        for found in other.held {
            self.offer(found)?;
        }
        Ok(())
    }

    /// Those that are kept, in order.
    pub fn into_answer(self) -> Vec<Found>
        ensures { IsAnswer self.order self.limit self.held result.items }
    {
        let order = self.order;
        let mut held = self.held;
        held.sort_unstable_by(|one, other| compare(order, one, other));
        held
    }
}

/// Which of those right below an index an answer has last.
fn last_below(held: &[Found], order: Order, at: usize) -> usize
    requires some { at * 2 + 1 < length held.now }
    ensures above { at * 2 + 1 ≤ result }
    ensures below { result ≤ at * 2 + 2 }
    ensures within { result < length held.now }
    ensures last { IsLastBelow (answers.precedes order) at result held.now }
{
    let left = at * 2 + 1;
    let right = left + 1;
    if right < held.len() && compare(order, &held[left], &held[right]).is_lt() {
        return right;
    }
    left
}

/// Lets the one on top sink to an index below which none is, whatever it is, and gives the index.
fn sink(held: &mut [Found], order: Order) -> usize
    requires some { 0 < length held.old }
    requires rest { IsHeapBut (answers.precedes order) 0 held.old }
    ensures same { IsPermutation held.old held.new }
    ensures count { length held.new ≡ length held.old }
    ensures within { result < length held.new }
    ensures leaf { length held.new ≤ result * 2 + 1 }
    ensures rest { IsHeapBut (answers.precedes order) result held.new }
{
    let mut at = 0;
    while at < held.len() / 2 {
        let below = last_below(held, order, at);
        held.swap(at, below);
        at = below;
    }
    at
}

/// Lets the one at an index below which none is rise to where it belongs.
fn rise(held: &mut [Found], order: Order, leaf: usize)
    requires within { leaf < length held.old }
    requires leaf { length held.old ≤ leaf * 2 + 1 }
    requires rest { IsHeapBut (answers.precedes order) leaf held.old }
    ensures same { IsPermutation held.old held.new }
    ensures count { length held.new ≡ length held.old }
    ensures heap { IsHeap (answers.precedes order) held.new }
{
    let mut at = leaf;
    while 0 < at {
        let above = (at - 1) / 2;
        if !compare(order, &held[above], &held[at]).is_lt() {
            return;
        }
        held.swap(above, at);
        at = above;
    }
}

/// Adds an entry. `AllocError` where memory ran out.
pub(crate) fn add(held: &mut Vec<Found>, order: Order, found: Found) -> Result<(), AllocError>
    requires { IsHeap (answers.precedes order) held.old.items }
    ensures same { OnOk result (IsPermutation (held.old.items ++ found ∷ []) held.new.items) }
    ensures count { OnOk result (vec_len held.new ≡ vec_len held.old + 1) }
    ensures unchanged { OnErr result (held.new.items ≡ held.old.items) }
    ensures heap { IsHeap (answers.precedes order) held.new.items }
{
    held.push(found)?;
    let leaf = held.len() - 1;
    rise(held, order, leaf);
    Ok(())
}

/// Puts an entry in the place of the one on top.
fn replace_last(held: &mut [Found], order: Order, found: Found)
    requires some { 0 < length held.old }
    requires heap { IsHeap (answers.precedes order) held.old }
    ensures same { IsPermutation (set held.old 0 found) held.new }
    ensures count { length held.new ≡ length held.old }
    ensures heap { IsHeap (answers.precedes order) held.new }
{
    held[0] = found;
    let leaf = sink(held, order);
    rise(held, order, leaf);
}
