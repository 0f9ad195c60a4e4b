// The opening of a raw string literal: the Rust's `parse_raw_string_literal` up to where the body begins.
ghost use Rattle.std.specs.Prelude.{◌≡◌, Err};
ghost use Rattle.fault.specs.Faults.{fault_in};
ghost use Rattle.literal.specs.Answers.{nothing, refusal};
ghost use Rattle.raw.specs.Opening.{opened_of};

use chars::cursor::Cursor;
use classes::marks::{HASH, QUOTE};
use fault::{Fault, Part};
use lex_error::LexError;
use literal::{Refusal, Terminator};
use position::Position;

// What the opening leads to: the body, which so many hashes close, at a cursor; or a refusal.
pub type Opened = Result<(usize, Cursor), Refusal>;

// A refusal before the body: nothing is on record yet.
fn refuse(error: LexError, place: Position, part: Part, cursor: Cursor) -> Opened
    ensures { result ≡ Err (refusal (fault_in error place part) cursor nothing) }
{
    Err(Refusal {
        fault: Fault::about(error, place, part),
        cursor,
        on_record: Terminator::NONE,
    })
}

// Where the body of a literal begins that is resumed with a hash count, or that is entered after its first hash, where
// `hashes` is 0: then the hashes after the first are counted, and the quote is taken. A 5 has its offset behind the character
// that is no quote, and its position before it.
pub(crate) fn open(text: &[u8], start: Cursor, hashes: usize) -> Opened
    ensures { result ≡ opened_of text.now start hashes }
{
    if hashes != 0 {
        return Ok((hashes, start));
    }
    let mut k = 1;
    let mut from = start;
    loop {
        let Some((c, next)) = from.eat_next_and_advance(text) else {
            return refuse(LexError::UnterminatedString, start.place, Part::NONE, from);
        };
        match c {
            QUOTE => return Ok((k, next)),
            HASH => {
                k += 1;
                from = next;
            }
            _ => {
                let at = next.at;
                let part = Part {
                    at: from.at,
                    len: at - from.at,
                };
                let place = from.place;
                return refuse(
                    LexError::UnexpectedInput,
                    start.place,
                    part,
                    Cursor { at, place },
                );
            }
        }
    }
}
