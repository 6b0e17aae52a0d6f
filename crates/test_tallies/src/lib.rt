//! Tests alone, for the reason that `test_objects` gives: books and their shares, over a lock and two threads, and counts that are
//! read without one.
#![tactic(auto)]

#[cfg(test)]
mod books;
