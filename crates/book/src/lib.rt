// The word book's check (document 01, Word book; stands in for RESERVED_LIST).
#![tactic(auto)]

pub mod contents;
pub mod order;

ghost use Rattle.std.specs.Prelude.{◌≡◌, ◌<◌, length};
ghost use Rattle.book.specs.Contents.{bodies, word_at, words};
ghost use Rattle.book.specs.Book.{runs_on, fit, all_fit, rising, check_of};

use crate::contents::Contents;
use lex_error::LexError;

// Whether each body starts where the one before it ends, and the last ends at the book's end.
fn runs_on(contents: Contents) -> bool
    ensures { result ≡ runs_on (length contents.entry.book.now) (bodies contents.entry.book.now) (words contents.entry.book.now) }
{
    let mut at = 2 + 4 * contents.words;
    for k in 0..contents.words {
        let row = contents.row(k);
        if row.start != at {
            return false;
        }
        at += row.size;
    }
    at == contents.book.len()
}

// Whether word k has a right length, right flags, and ASCII bytes.
fn is_fit(contents: Contents, k: usize) -> bool
    requires { k < contents.words }
    ensures { result ≡ fit (word_at contents.entry.book.now k) }
{
    let row = contents.row(k);
    1 <= row.size && row.size <= 10 && row.flags <= 3 && contents.text(k).is_ascii()
}

// Whether every word is fit.
fn all_fit(contents: Contents) -> bool
    ensures { result ≡ all_fit (words contents.entry.book.now) }
{
    (0..contents.words).all(|k| is_fit(contents, k))
}

// Whether each word is below the one behind it.
fn is_rising(contents: Contents) -> bool
    ensures { result ≡ rising (words contents.entry.book.now) }
{
    (1..contents.words).all(|k| order::compare(contents.text(k - 1), contents.text(k)).is_lt())
}

// The book check: a bad word book is refused.
pub fn check(book: &[u8]) -> Result<(), LexError>
    ensures { result ≡ check_of book.now }
{
    let Some(contents) = Contents::of(book) else {
        return Err(LexError::BadBook);
    };
    if contents.words <= 512 && runs_on(contents) && all_fit(contents) && is_rising(contents) {
        Ok(())
    } else {
        Err(LexError::BadBook)
    }
}
