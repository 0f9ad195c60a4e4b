// Reserved words: lookups in a word book (document 01, Word book; in the source `is_reserved_keyword_or_symbol`).
#![tactic(auto)]

mod seek;
pub mod two_books;

ghost use Rattle.std.specs.Prelude.{◌≡◌};
ghost use Rattle.book_lookup.specs.Lookup.{flags_answer, reserved_of};
ghost use Rattle.book_lookup.specs.Halving.{halved_of};

use book::contents::Contents;

// What a book says of a word that it holds. The source answers a tuple of three; its first, whether the word was found, is here
// whether there is an answer.
#[derive(Clone, Copy)]
pub struct Reserved {
    pub a: bool,
    pub ab: bool,
}

// What flags say of a word that was found.
fn answer(flags: u8) -> Reserved
    ensures { result ≡ flags_answer flags }
{
    let a = flags % 2 == 1;
    let b = flags / 2 % 2 == 1;
    Reserved { a, ab: a && b }
}

// What a book says of a word, with no check of the book: for a run, which checks its book once. In a good book this is `lookup`.
pub fn lookup_in(book: &[u8], word: &[u8]) -> Option<Reserved>
    ensures { result ≡ halved_of book.now word.now }
{
    let contents = Contents::of(book)?;
    let k = seek::seek(contents, word)?;
    Some(answer(contents.row(k).flags))
}

// What a book says of a word. A bad book finds nothing.
pub fn lookup(book: &[u8], word: &[u8]) -> Option<Reserved>
    ensures { result ≡ reserved_of book.now word.now }
{
    book::check(book).ok()?;
    lookup_in(book, word)
}
