//! Calls that walk over many shares of one book.
ghost use Rattle.std.specs.Prelude.{◌≡◌, ◌+◌, ◌≤◌, ◌^◌, All, IfOk, OnOk, OnErr, vec_len};
ghost use Rattle.ing_tally.specs.Books.{AreOf};

use ing_tally::{Book, Share};
use std::alloc::{AllocError, Global};

/// As many new shares of 0. The room for them is made first, so each share has a place once it is made.
pub fn issue_each(alloc: Global, book: &mut Book, count: usize) -> Result<Vec<Share>, AllocError>
    requires { book.old.out + count ≤ 2 ^ 62 }
    ensures count { IfOk result (λ v. vec_len v ≡ count) }
    ensures ours { IfOk result (λ v. AreOf book.old.name v.items) }
    ensures zero { IfOk result (λ v. All (λ s. s.amount ≡ 0) v.items) }
    ensures book { OnOk result (book.new ≡ record book.old { out = book.old.out + count }) }
    ensures err { OnErr result (book.new ≡ book.old) }
{
    let mut shares = Vec::with_capacity(alloc, count)?;
    for _ in 0..count {
        let Ok(share) = book.issue() else {
            unreachable!()
        };
        shares.push_reserved(share);
    }
    Ok(shares)
}

/// Merges all of these shares, each of 0.
pub fn merge_each(book: &mut Book, mut shares: Vec<Share>)
    requires ours { AreOf book.old.name shares.items }
    requires zero { All (λ s. s.amount ≡ 0) shares.items }
    ensures { book.old ≡ record book.new { out = book.new.out + vec_len shares } }
{
    while let Some(share) = shares.pop() {
        book.merge(share);
    }
    shares.destroy_empty();
}
