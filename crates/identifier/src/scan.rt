// Identifiers: the scan of the Rust's `parse_identifier_token`, from a start that was found good, under a good book.
ghost use Rattle.std.specs.Prelude.{◌≡◌, true};
ghost use Rattle.book.specs.Book.{good};
ghost use Rattle.identifier.specs.Identifiers.{listed_kind, class_in, class_of, identify_of};

use crate::valid;
use chars::cursor::Cursor;
use chars::stretch::Stretch;
use entry::kinds::Kind;
use fault::{Fault, Part};
use lex_error::LexError;
use token::tokens;

// What stands at a place: its kind, its token, and the cursor behind it.
#[derive(Clone, Copy)]
pub struct Word {
    pub kind: Kind,
    pub token: u8,
    pub cursor: Cursor,
}

// A word, or the fault with the cursor that the scan had reached.
pub type Identified = Result<Word, (Fault, Cursor)>;

// The kind and the token of a text; None where it is no identifier.
type Class = Option<(Kind, u8)>;

// The kind of a listed word: a keyword is of letters, and any other is a symbol.
#[tactic(auto, using(crate::proofs::scan::Answers::kind_none), unfolding(crate::specs::Identifiers::listed_kind))]
fn kind_of(word: &[u8]) -> Kind
    ensures { result ≡ listed_kind word.now }
{
    match word {
        [first, ..] if classes::is_id_first_alphabetic(u32::from(*first)) => Kind::Keyword,
        _ => Kind::Symbol,
    }
}

// What a text is that no keyword and no symbol is.
#[tactic(auto, using(book_lookup::proofs::Holds::halved), unfolding(crate::specs::Identifiers::class_in, crate::specs::Identifiers::unlisted))]
fn unlisted(book: &[u8], word: &[u8]) -> Class
    requires { good book.now ≡ true }
    ensures { result ≡ class_in book.now word.now None }
{
    if book_lookup::lookup_in(book, word).is_some() {
        Some((Kind::Reserved, tokens::RESERVED))
    } else if valid::is_valid_identifier(word) {
        Some((Kind::Name, tokens::IDENTIFIER))
    } else {
        None
    }
}

// Keyword before reserved before validity.
#[tactic(auto, unfolding(crate::specs::Identifiers::class_of, crate::specs::Identifiers::class_in))]
fn class_of(book: &[u8], word: &[u8]) -> Class
    requires { good book.now ≡ true }
    ensures { result ≡ class_of book.now word.now }
{
    match keywords::lookup_symbol_from_syntax(word) {
        Some(token) => Some((kind_of(word), token)),
        None => unlisted(book, word),
    }
}

// The identifier at a cursor, for a run, which has checked its text and its book.
pub fn identify(book: &[u8], text: &[u8], start: Cursor) -> Identified
    requires { good book.now ≡ true }
    ensures { result ≡ identify_of text.now book.now start }
{
    let place = start.place;
    let Some((_, first)) = start.get_next(text) else {
        return Err((Fault::at(LexError::BadArgument, place), start));
    };
    let cursor = chars::stretch::end_of(Stretch::Word, text, first);
    let part = Part {
        at: start.at,
        len: cursor.at - start.at,
    };
    match class_of(book, &text[start.at..cursor.at]) {
        Some((kind, token)) => Ok(Word {
            kind,
            token,
            cursor,
        }),
        None => Err((
            Fault::about(LexError::MalformedIdentifier, place, part),
            cursor,
        )),
    }
}
