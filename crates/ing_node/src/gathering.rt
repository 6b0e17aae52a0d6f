//! Shares, handed out to the shards that they are of.
ghost use Rattle.std.specs.Prelude.{◌≡◌, ℕ, ◌+◌, ◌++◌, ◌<◌, ◌≤◌, [], All, IfOk, length, sum_by, vec_len};
ghost use Rattle.ing_tally.specs.Books.{AreOf, amount_of};
ghost use Rattle.ing_flush.specs.Tallies.{AreStoredIn, amount_at};
ghost use Rattle.ing_node.specs.Names.{IsTallyOf};
ghost use Rattle.ing_node.specs.Closing.{HaveRoom, one_at, shares_at};

use crate::earlier::Earlier;
use crate::names::NodeName;
use crate::pusher::Pusher;
use ing_begun::Told;
use ing_flush::FlusherTally;
use ing_tally::Share;
use std::alloc::{AllocError, Global};

/// So many empty lists, each with room for so many shares.
pub(crate) fn empty_lists(
    alloc: Global,
    count: usize,
    each: usize,
) -> Result<Vec<Vec<Share>>, AllocError>
    ensures count { IfOk result (λ lists. vec_len lists ≡ count) }
    ensures empty { IfOk result (λ lists. (i : ℕ) → shares_at i lists.items ≡ []) }
    ensures room { IfOk result (λ lists. HaveRoom each lists.items) }
{
    let mut lists = Vec::with_capacity(alloc, count)?;
    while lists.len() < count {
        match Vec::with_capacity(alloc, each) {
            Ok(list) => lists.push_reserved(list),
            Err(error) => {
                let_go(lists);
                return Err(error);
            }
        }
    }
    Ok(lists)
}

/// Lets empty lists go.
pub(crate) fn let_go(mut lists: Vec<Vec<Share>>)
    requires { (i : ℕ) → shares_at i lists.items ≡ [] }
{
    while let Some(list) = lists.pop() {
        list.destroy_empty();
    }
    lists.destroy_empty();
}

/// Puts each of these shares into the list at its place.
fn hand_out(lists: &mut Vec<Vec<Share>>, mut shares: Vec<Share>)
    requires all { vec_len shares ≤ vec_len lists.old }
    requires room { HaveRoom 1 lists.old.items }
    ensures handed { (i : ℕ) →
        shares_at i lists.new.items ≡ shares_at i lists.old.items ++ one_at i shares.items }
    ensures count { vec_len lists.new ≡ vec_len lists.old }
    ensures room { (n : ℕ) → HaveRoom (n + 1) lists.old.items → HaveRoom n lists.new.items }
{
    while let Some(share) = shares.pop() {
        let place = shares.len();
        lists[place].push_reserved(share);
    }
    shares.destroy_empty();
}

/// The same of a pusher's shares.
fn hand_out_told(lists: &mut Vec<Vec<Share>>, mut told: Vec<Told>)
    requires all { vec_len told ≤ vec_len lists.old }
    requires room { HaveRoom 1 lists.old.items }
    ensures handed { (i : ℕ) →
        shares_at i lists.new.items ≡ shares_at i lists.old.items ++ one_at i told.items }
    ensures count { vec_len lists.new ≡ vec_len lists.old }
    ensures room { (n : ℕ) → HaveRoom (n + 1) lists.old.items → HaveRoom n lists.new.items }
{
    while let Some(last) = told.pop() {
        let place = told.len();
        let Told { share, amount: _ } = last;
        lists[place].push_reserved(share);
    }
    told.destroy_empty();
}

/// Puts the shares of all pushers into empty lists, one for each shard.
pub(crate) fn hand_out_pushers<N: NodeName>(
    lists: &mut Vec<Vec<Share>>,
    mut pushers: Vec<Pusher<N>>,
)
    requires all { vec_len lists.old ≡ N.settings.shards }
    requires empty { (i : ℕ) → shares_at i lists.old.items ≡ [] }
    requires room { HaveRoom (vec_len pushers) lists.old.items }
    ensures all { vec_len lists.new ≡ N.settings.shards }
    ensures own { (i : ℕ) → AreOf (N.books i).accepted (shares_at i lists.new.items) }
    ensures count { (i : ℕ) → i < N.settings.shards → length (shares_at i lists.new.items) ≡ vec_len pushers }
    ensures sum { (i : ℕ) → amount_of (shares_at i lists.new.items) ≡ sum_by (λ p. amount_at i p.told) pushers.items }
    ensures room { (n : ℕ) → HaveRoom (vec_len pushers + n) lists.old.items → HaveRoom n lists.new.items }
{
    while let Some(pusher) = pushers.pop() {
        let Pusher {
            told,
            diary: _,
            places: _,
            of: _,
        } = pusher;
        hand_out_told(lists, told);
    }
    pushers.destroy_empty();
}

/// Puts the shares of all tallies into empty lists, one for each shard.
pub(crate) fn hand_out_tallies<N: NodeName>(
    lists: &mut Vec<Vec<Share>>,
    mut tallies: Vec<FlusherTally>,
)
    requires tallies { All (IsTallyOf N.settings.shards N.books) tallies.items }
    requires all { vec_len lists.old ≡ N.settings.shards }
    requires empty { (i : ℕ) → shares_at i lists.old.items ≡ [] }
    requires room { HaveRoom (vec_len tallies) lists.old.items }
    ensures all { vec_len lists.new ≡ N.settings.shards }
    ensures own { (i : ℕ) → AreOf (N.books i).stored (shares_at i lists.new.items) }
    ensures count { (i : ℕ) → i < N.settings.shards → length (shares_at i lists.new.items) ≡ vec_len tallies }
    ensures sum { (i : ℕ) → amount_of (shares_at i lists.new.items) ≡ sum_by (amount_at i) tallies.items }
    ensures room { (n : ℕ) → HaveRoom (vec_len tallies + n) lists.old.items → HaveRoom n lists.new.items }
{
    while let Some(tally) = tallies.pop() {
        hand_out(lists, tally.into_shares());
    }
    tallies.destroy_empty();
}

/// Puts the shares of what an ingester began with into lists, one for each shard.
pub(crate) fn hand_out_earlier<N: NodeName>(
    pushing: &mut Vec<Vec<Share>>,
    stored: &mut Vec<Vec<Share>>,
    earlier: Earlier<N>,
)
    requires pushing { vec_len pushing.old ≡ N.settings.shards }
    requires stored { vec_len stored.old ≡ N.settings.shards }
    requires pushing_room { HaveRoom 1 pushing.old.items }
    requires stored_room { HaveRoom 1 stored.old.items }
    requires pushing_own { (i : ℕ) → AreOf (N.books i).accepted (shares_at i pushing.old.items) }
    requires stored_own { (i : ℕ) → AreOf (N.books i).stored (shares_at i stored.old.items) }
    ensures pushing { vec_len pushing.new ≡ N.settings.shards }
    ensures stored { vec_len stored.new ≡ N.settings.shards }
    ensures pushing_own { (i : ℕ) → AreOf (N.books i).accepted (shares_at i pushing.new.items) }
    ensures stored_own { (i : ℕ) → AreOf (N.books i).stored (shares_at i stored.new.items) }
    ensures pushing_count { (i : ℕ) → i < N.settings.shards →
        length (shares_at i pushing.new.items) ≡ length (shares_at i pushing.old.items) + 1 }
    ensures stored_count { (i : ℕ) → i < N.settings.shards →
        length (shares_at i stored.new.items) ≡ length (shares_at i stored.old.items) + 1 }
    ensures pushing_sum { (i : ℕ) → amount_of (shares_at i pushing.new.items)
        ≡ amount_of (shares_at i pushing.old.items) + amount_at i N.earlier.told }
    ensures stored_sum { (i : ℕ) → amount_of (shares_at i stored.new.items)
        ≡ amount_of (shares_at i stored.old.items) + amount_at i N.earlier.stored }
{
    let Earlier {
        told,
        stored: tally,
        fronts: _,
        of: _,
    } = earlier;
    hand_out_told(pushing, told);
    hand_out(stored, tally.into_shares());
}
