// Identifiers: the Rust's `parse_identifier_token`, with the refusals of its arguments.
#![tactic(auto)]

pub mod scan;
pub mod valid;

ghost use Rattle.std.specs.Prelude.{◌≡◌};
ghost use Rattle.identifier.specs.Identifiers.{identifier_argument, identifier_of};

use crate::scan::Identified;
use chars::cursor::Cursor;
use fault::Fault;
use lex_error::LexError;
use position::Position;

// What the arguments refuse: 2, 1, 3, 14 in that order.
#[tactic(auto, unfolding(crate::specs::Identifiers::identifier_argument))]
fn argument(text: &[u8], at: usize, place: Position, book: &[u8]) -> Result<(), LexError>
    ensures { result ≡ identifier_argument text.now at place book.now }
{
    door::door(text, at)?;
    if !place.is_on_line() || text.len() <= at {
        return Err(LexError::BadArgument);
    }
    book::check(book)
}

// The identifier that begins at an offset with whichever character stands there, whose place is given.
#[tactic(auto, using(crate::proofs::Arguments::good_book), unfolding(crate::specs::Identifiers::identifier_of))]
pub fn parse_identifier_token(text: &[u8], at: usize, place: Position, book: &[u8]) -> Identified
    ensures { result ≡ identifier_of text.now at place book.now }
{
    let start = Cursor { at, place };
    match argument(text, at, place, book) {
        Ok(()) => scan::identify(book, text, start),
        Err(error) => Err((Fault::at(error, place), start)),
    }
}
