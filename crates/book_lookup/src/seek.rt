// The search for a word in a word book, by halving (document 01, Word book).
ghost use Rattle.std.specs.Prelude.{◌≡◌, ◌<◌, IfSome};
ghost use Rattle.book_lookup.specs.Seek.{sought_of};

use book::contents::Contents;
use std::cmp::Ordering;

// Which word of the book a text is, by halving. In a bad book it may miss a word.
pub(crate) fn seek(contents: Contents, word: &[u8]) -> Option<usize>
    ensures value { result ≡ sought_of contents.entry.book.now word.now }
    ensures bound { IfSome result (λ k. k < contents.entry.words) }
{
    let mut lo = 0;
    let mut hi = contents.words;
    while lo < hi {
        let mid = lo + (hi - lo) / 2;
        match book::order::compare(contents.text(mid), word) {
            Ordering::Less => lo = mid + 1,
            Ordering::Equal => return Some(mid),
            Ordering::Greater => hi = mid,
        }
    }
    None
}
