//! A count under a lock that two threads raise, each by a share of its own.
ghost use Rattle.std.specs.Prelude.{◌≡◌, ◌+◌, ◌≤◌, ◌^◌, IfOk, OnOk, OnErr};

use ing_tally::{Book, CounterFull, Share, strand_each};
use std::alloc::{AllocError, Global};
use std::marker::{Brand, PhantomData};
use std::sync::{Mutex, Wait};
use std::thread::{Threads, join_mut};

/// Which book a counter has. A call picks it.
pub trait Naming {
    ghost use Rattle.ing_tally.specs.Books.{BookName};

    ghost book: { BookName };
}

impl Naming for Brand {
    ghost use Rattle.ing_tally.specs.Books.{no_book};

    ghost book = { no_book };
}

/// What lies under the lock: a count, and the book that has it for its number. Two shares are out.
#[derive(Drop)]
pub struct Counter<N: Naming> {
    count: u64,
    book: Book,
    of: PhantomData<N>,
    ghost named: { book.name ≡ N.book },
    ghost counted: { book.number ≡ count },
    ghost two_out: { book.out ≡ 2 },
}

/// What two threads were told that they counted, and what was counted in all.
#[derive(Drop)]
pub struct Counted {
    pub first: u64,
    pub second: u64,
    pub count: u64,
    pub total: u64,
}

impl<N: Naming> Counter<N> {
    // Raises the count and the share by n.
    fn add(&mut self, mine: &mut Share, n: u64) -> Result<(), CounterFull>
        requires { mine.old.book ≡ N.book }
        ensures ok { OnOk result (mine.new ≡ record mine.old { amount = mine.old.amount + n }) }
        ensures limit { OnOk result (mine.new.amount ≤ 2 ^ 62) }
        ensures err { OnErr result (mine.new ≡ mine.old) }
    {
        let Counter { count, book, of: _ } = self;
        book.raise(mine, n)?;
        book.covers(mine);
        *count += n;
        Ok(())
    }
}

// Counts each of the amounts under the lock, and says how much was counted in all.
fn count_each<N: Naming, R: Wait>(
    rt: &R,
    counter: &Mutex<Counter<N>>,
    mine: &mut Share,
    amounts: &[u64],
) -> u64
    requires own { mine.old.book ≡ N.book }
    requires zero { mine.old.amount ≡ 0 }
    ensures { mine.new ≡ record mine.old { amount = result } }
{
    let mut told = 0;
    for &n in amounts {
        let answer = counter.lock(rt).add(mine, n);
        if answer.is_ok() {
            told += n;
        }
    }
    told
}

// Two threads count, each by a share of its own, and say how much.
fn count_beside<N: Naming + Send + Sync, R: Threads + Wait + Sync>(
    rt: &R,
    counter: &Mutex<Counter<N>>,
    one: &mut Share,
    two: &mut Share,
    first: &[u64],
    second: &[u64],
) -> (u64, u64)
    requires one { (one.old.book ≡ N.book) × (one.old.amount ≡ 0) }
    requires two { (two.old.book ≡ N.book) × (two.old.amount ≡ 0) }
    ensures one { one.new ≡ record one.old { amount = result.0 } }
    ensures two { two.new ≡ record two.old { amount = result.1 } }
{
    join_mut(
        rt,
        &mut || -> u64
            requires { (one.now.book ≡ N.book) × (one.now.amount ≡ 0) }
            ensures { one.exit.now ≡ record one.entry.now { amount = result } }
        { count_each(rt, counter, one, first) },
        &mut || -> u64
            requires { (two.now.book ≡ N.book) × (two.now.amount ≡ 0) }
            ensures { two.exit.now ≡ record two.entry.now { amount = result } }
        { count_each(rt, counter, two, second) },
    )
}

/// Two threads count. The total is what they were told, and what was counted under the lock.
pub fn count_by_two<N: Naming + Send + Sync, R: Threads + Wait + Sync>(
    rt: &R,
    alloc: Global,
    mut book: Book,
    first: &[u64],
    second: &[u64],
) -> Result<Counted, AllocError>
    requires named { book.name ≡ N.book }
    requires number { book.number ≡ 0 }
    requires out { book.out ≡ 0 }
    ensures total { IfOk result (λ c. c.total ≡ c.first + c.second) }
    ensures count { IfOk result (λ c. c.total ≡ c.count) }
{
    let mut shares = Vec::with_capacity(alloc, 2)?;
    let Ok(mut one) = book.issue() else {
        unreachable!()
    };
    let Ok(mut two) = book.issue() else {
        unreachable!()
    };
    let counter = Mutex::new(Counter::<N> {
        count: 0,
        book,
        of: PhantomData,
    });
    let (first, second) = count_beside(rt, &counter, &mut one, &mut two, first, second);
    shares.push_reserved(one);
    shares.push_reserved(two);
    let Counter { count, book, of: _ } = counter.into_inner();
    let total = match book.gather(shares) {
        Ok(whole) => whole.total,
        Err((_, shares, _)) => {
            strand_each(shares);
            unreachable!()
        }
    };
    Ok(Counted {
        first,
        second,
        count,
        total,
    })
}

/// The same, with a new book.
pub fn counted_by_two<R: Threads + Wait + Sync>(
    rt: &R,
    alloc: Global,
    first: &[u64],
    second: &[u64],
) -> Result<Counted, AllocError>
    ensures total { IfOk result (λ c. c.total ≡ c.first + c.second) }
    ensures count { IfOk result (λ c. c.total ≡ c.count) }
{
    let book = Book::open(alloc)?;
    count_by_two::<Brand, R>(rt, alloc, book, first, second)
}
