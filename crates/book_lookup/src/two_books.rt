// The lookup of a word over two word books, the house book and the office book (document 01, Word book).
ghost use Rattle.std.specs.Prelude.{◌≡◌, IfSome};
ghost use Rattle.std.specs.Option.{is_some};
ghost use Rattle.book.specs.Book.{good};
ghost use Rattle.book_lookup.specs.Lookup.{found_part, found_place};

use crate::seek::seek;
use book::contents::Contents;

// The contents of a good book.
fn good_contents<'a>(book: &'a [u8]) -> Option<Contents<'a>>
    ensures good { is_some result ≡ good book.now }
    ensures book { IfSome result (λ c. c.book ≡ book.entry) }
{
    book::check(book).ok()?;
    Contents::of(book)
}

// The word's own part of whichever book holds it, the house book first; an empty part if neither does or either book is bad.
pub fn find<'a>(house: &'a [u8], office: &'a [u8], word: &[u8]) -> &'a [u8]
    ensures result_value { result.now ≡ found_part house.now office.now word.now }
    ensures ref_ptr_value { result.ref_ptr ≡ found_place house.entry.ref_ptr office.entry.ref_ptr house.now office.now word.now }
{
    let (Some(ours), Some(theirs)) = (good_contents(house), good_contents(office)) else {
        return &house[0..0];
    };
    if let Some(k) = seek(ours, word) {
        ours.text(k)
    } else if let Some(k) = seek(theirs, word) {
        theirs.text(k)
    } else {
        &house[0..0]
    }
}
