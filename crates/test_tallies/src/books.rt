//! Worked books, and shares that cross a lock and two threads.
use ing_tally::{Book, CounterFull, Counts, CountsWriter, StillOut, Whole, strand_each};
use std::test::Fail;

mod counter;
mod walks;

use counter::counted_by_two;
use walks::{issue_each, merge_each};

const LIMIT: u64 = 4611686018427387904;

#[test]
fn two_threads_count(rt: HostRuntime) -> Result<(), Fail> {
    let all = counted_by_two(&rt, rt.alloc(), &[1, 2, 3], &[40, 50])?;
    assert!(rt; all.first == 6 && all.second == 90 && all.count == 96 && all.total == 96);
    Ok(())
}

// What would pass the limit is not counted, and the thread is not told that it was.
#[test]
fn a_full_count_is_told(rt: HostRuntime) -> Result<(), Fail> {
    let all = counted_by_two(&rt, rt.alloc(), &[LIMIT, LIMIT + 1, 0], &[LIMIT + 5])?;
    assert!(rt; all.first == LIMIT && all.second == 0 && all.total == LIMIT);
    Ok(())
}

// 7 + 5 - 2 = 10. A third share was lowered to 0 again and merged.
#[test]
fn a_book_is_gathered(rt: HostRuntime) -> Result<(), Fail> {
    let mut book = Book::open(rt.alloc())?;
    let mut shares = Vec::with_capacity(rt.alloc(), 2)?;
    let Ok(mut one) = book.issue() else {
        unreachable!()
    };
    let Ok(mut two) = book.issue() else {
        unreachable!()
    };
    let Ok(mut three) = book.issue() else {
        unreachable!()
    };
    assert!(rt; book.raise(&mut one, 7).is_ok() && book.raise(&mut two, 5).is_ok());
    assert!(rt; book.raise(&mut three, 4).is_ok());
    book.lower(&mut two, 2);
    book.lower(&mut three, 4);
    book.covers(&mut two);
    book.merge(three);
    assert_eq!(rt; book.out(), 2);
    shares.push_reserved(one);
    shares.push_reserved(two);
    match book.gather(shares) {
        Ok(whole) => assert_eq!(rt; whole, Whole { total: 10 }),
        Err((_, shares, _)) => {
            strand_each(shares);
            panic!(rt; "all shares were handed in")
        }
    }
    Ok(())
}

// One share is kept back at first, and then all are there.
#[test]
fn a_share_is_missing(rt: HostRuntime) -> Result<(), Fail> {
    let mut book = Book::open(rt.alloc())?;
    let mut shares = Vec::with_capacity(rt.alloc(), 2)?;
    let Ok(mut one) = book.issue() else {
        unreachable!()
    };
    let Ok(two) = book.issue() else {
        unreachable!()
    };
    assert!(rt; book.raise(&mut one, 7).is_ok());
    shares.push_reserved(two);
    let Err((book, mut shares, missing)) = book.gather(shares) else {
        unreachable!()
    };
    assert_eq!(rt; missing, StillOut { shares: 1 });
    shares.push_reserved(one);
    match book.gather(shares) {
        Ok(whole) => assert_eq!(rt; whole.total, 7),
        Err((_, shares, _)) => {
            strand_each(shares);
            panic!(rt; "all shares were handed in")
        }
    }
    Ok(())
}

// A share that was given up is out for ever.
#[test]
fn a_stranded_share_stays_out(rt: HostRuntime) -> Result<(), Fail> {
    let mut book = Book::open(rt.alloc())?;
    let mut shares = issue_each(rt.alloc(), &mut book, 3)?;
    if let Some(share) = shares.pop() {
        let _ = share.strand();
    }
    match book.gather(shares) {
        Ok(_) => panic!(rt; "a share is missing"),
        Err((book, shares, missing)) => {
            strand_each(shares);
            assert!(rt; book.out() == 3 && missing.shares == 1);
        }
    }
    Ok(())
}

#[test]
fn shares_are_merged(rt: HostRuntime) -> Result<(), Fail> {
    let mut book = Book::open(rt.alloc())?;
    let shares = issue_each(rt.alloc(), &mut book, 3)?;
    merge_each(&mut book, shares);
    assert_eq!(rt; book.out(), 0);
    Ok(())
}

#[test]
fn a_number_is_full_at_the_limit(rt: HostRuntime) -> Result<(), Fail> {
    let mut book = Book::open(rt.alloc())?;
    let Ok(mut share) = book.issue() else {
        unreachable!()
    };
    assert!(rt; book.raise(&mut share, LIMIT).is_ok());
    assert_eq!(rt; book.raise(&mut share, 1), Err(CounterFull));
    assert_eq!(rt; book.raise(&mut share, u64::MAX), Err(CounterFull));
    assert!(rt; book.raise(&mut share, 0).is_ok());
    let _ = share.strand();
    Ok(())
}

#[test]
fn the_fault_has_a_number_and_a_name(rt: HostRuntime) {
    assert_eq!(rt; CounterFull.refusal().number(), 19);
    assert_eq!(rt; CounterFull.refusal().name(), "CounterFull");
}

// Two readers see what was counted by then, and a later one begins where the counts stand.
#[test]
fn counts_are_read(rt: HostRuntime) -> Result<(), Fail> {
    let mut writer = CountsWriter::open(rt.alloc())?;
    let mut reader = writer.reader()?;
    assert_eq!(rt;
        reader.read(),
        Counts {
            accepted: 0,
            stored: 0
        }
    );
    writer.raise_accepted(5);
    writer.raise_stored(3);
    let mut later = writer.reader()?;
    writer.raise_accepted(2);
    assert_eq!(rt;
        reader.read(),
        Counts {
            accepted: 7,
            stored: 3
        }
    );
    drop(writer);
    assert_eq!(rt;
        later.read(),
        Counts {
            accepted: 7,
            stored: 3
        }
    );
    Ok(())
}
