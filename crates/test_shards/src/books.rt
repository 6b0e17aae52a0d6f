//! A shard whose books are gathered once all of their shares are there.
ghost use Rattle.std.specs.Prelude.{◌≡◌, ◌∷◌, [], IfOk};
ghost use Rattle.ing_tally.specs.Books.{AreOf};

use crate::owned::Owned;
use ing_shard::{Gathered, Missing, Shard};
use ing_store::{Fuse, MemoryReceipt, MemoryStore, Receipt};
use ing_tally::{Share, strand_each};
use std::alloc::{AllocError, Global};
use std::process::Abort;
use std::sync::Wait;
use std::test::Fail;

/// What is missing beside a share of each: while a chunk is in flight, the same without the pushing share, and once the chunk is
/// stored.
const MISSING: [Missing; 3] = [
    Missing {
        accepted: 0,
        flight: 1,
        stored: 0,
    },
    Missing {
        accepted: 1,
        flight: 1,
        stored: 0,
    },
    Missing {
        accepted: 0,
        flight: 0,
        stored: 0,
    },
];

/// Stores the chunk that waits: what is missing before and after.
fn store_one<'a, R: Wait + Abort>(
    rt: &'a R,
    alloc: Global,
    store: &'a MemoryStore,
    one: &mut Owned<MemoryReceipt<'a>>,
) -> Result<[Missing; 3], Fail> {
    let ticket = one.claim(rt, alloc)?;
    let flying = one.shard.missing(1, 1);
    let without = one.shard.missing(0, 1);
    one.store(alloc, &mut store.end(rt, Fuse::None), ticket, &mut 0)?;
    Ok([flying, without, one.shard.missing(1, 1)])
}

/// Pushes three entries, of which one is refused, and stores their chunk; then pushes one more.
fn work<'a, R: Wait + Abort>(
    rt: &'a R,
    alloc: Global,
    store: &'a MemoryStore,
    one: &mut Owned<MemoryReceipt<'a>>,
) -> Result<[Missing; 3], Fail> {
    one.push(alloc, &[("a", "1")], &[(5, "x"), (5, "x"), (3, "yz")])??;
    one.seal_all(alloc)?;
    let missing = store_one(rt, alloc, store, one)?;
    one.push(alloc, &[("a", "1")], &[(6, "kept")])??;
    Ok(missing)
}

/// A list of one share.
fn alone(alloc: Global, share: Share) -> Result<Vec<Share>, AllocError>
    ensures { IfOk result (λ shares. shares.items ≡ share ∷ []) }
{
    let Ok(mut shares) = Vec::with_capacity(alloc, 1) else {
        let _ = share.strand();
        return Err(AllocError);
    };
    shares.push_reserved(share);
    Ok(shares)
}

/// A list of each of two shares.
fn apart(
    alloc: Global,
    pushing: Share,
    tally: Share,
) -> Result<(Vec<Share>, Vec<Share>), AllocError>
    ensures { IfOk result (λ two. (two.0.items ≡ pushing ∷ []) × (two.1.items ≡ tally ∷ [])) }
{
    let Ok(pushes) = alone(alloc, pushing) else {
        let _ = tally.strand();
        return Err(AllocError);
    };
    let Ok(tallies) = alone(alloc, tally) else {
        strand_each(pushes);
        return Err(AllocError);
    };
    Ok((pushes, tallies))
}

/// What the books of a shard have with these shares; nothing where shares are missing.
fn whole<R: Receipt>(
    shard: Shard<R>,
    pushes: Vec<Share>,
    tallies: Vec<Share>,
) -> Option<Gathered<R>>
    requires pushes { AreOf shard.books.accepted.name pushes.items }
    requires tallies { AreOf shard.books.stored.name tallies.items }
{
    match shard.gather_books(pushes, tallies) {
        Ok(whole) => Some(whole),
        Err((_, pushes, tallies, _)) => {
            strand_each(pushes);
            strand_each(tallies);
            None
        }
    }
}

/// What the books of a shard have with its shares.
fn gathered<R: Receipt>(alloc: Global, one: Owned<R>) -> Result<Gathered<R>, Fail> {
    let Owned {
        shard,
        tenant: _,
        pushing,
        tally,
    } = one;
    let (pushes, tallies) = apart(alloc, pushing, tally)?;
    Ok(whole(shard, pushes, tallies).ok_or("shares are missing")?)
}

/// What was missing, and what was gathered in the end.
fn told<'a, R: Wait + Abort>(
    rt: &'a R,
    alloc: Global,
    store: &'a MemoryStore,
) -> Result<([Missing; 3], Gathered<MemoryReceipt<'a>>), Fail> {
    let mut one = Owned::fresh(alloc, "t", "", 0)?;
    match work(rt, alloc, store, &mut one) {
        Ok(missing) => Ok((missing, gathered(alloc, one)?)),
        Err(fault) => {
            one.put_away();
            Err(fault)
        }
    }
}

#[test]
fn books_are_gathered(rt: HostRuntime) -> Result<(), Fail> {
    let store = MemoryStore::new(rt.alloc())?;
    let (missing, whole) = told(&rt, rt.alloc(), &store)?;
    assert!(rt; missing == MISSING);
    assert!(rt; whole.accepted == 3 && whole.stored == 2);
    assert!(rt; whole.shard.number() == 0 && whole.shard.totals() == (3, 2));
    Ok(())
}
