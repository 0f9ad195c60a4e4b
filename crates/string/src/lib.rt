// String literals: the entry of the Rust's `parse_string_literal` for its three terminators, `"`, `'` and backtick, which asks its
// arguments first.
#![tactic(auto)]

pub mod scan;

ghost use Rattle.std.specs.Prelude.{◌≡◌, length};
ghost use Rattle.literal.specs.Cut.{wrote};
ghost use Rattle.string.specs.Entry.{start_refuses, argument_refuses, string_trace, scan_of};

use chars::cursor::Cursor;
use classes::marks::{APOSTROPHE, BACKTICK, QUOTE};
use lex_error::LexError;
use literal::{Refusal, Scanned};
use position::Position;

// Whether a literal with the terminator may start at a place; else 3.
fn start_refuses(p: Position, q: u32) -> Result<(), LexError>
    ensures { result ≡ start_refuses p q }
{
    if !p.is_on_line() {
        return Err(LexError::BadArgument);
    }
    match q {
        QUOTE => {
            if p.is_beginning_of_line() {
                Err(LexError::BadArgument)
            } else {
                Ok(())
            }
        }
        APOSTROPHE | BACKTICK => Ok(()),
        _ => Err(LexError::BadArgument),
    }
}

// What the arguments refuse.
fn argument_refuses(text: &[u8], at: usize, p: Position, q: u32) -> Result<(), LexError>
    ensures { result ≡ argument_refuses text.now at p q }
{
    door::door(text, at)?;
    start_refuses(p, q)
}

// A string literal, entered after its opening terminator, which stands at the place given; a text
// that is resumed, after its `}`. It is scanned aside first: the body is written where the scan is accepted; a refused scan
// leaves what is lent untouched.
pub fn parse_string_literal(
    text: &[u8],
    at: usize,
    place: Position,
    terminator: u32,
    limit: usize,
    out: &mut [u8],
) -> Scanned
    ensures value { result ≡ scan_of text.now at place terminator limit (length out.old) }
    ensures out_after { out.new ≡ wrote result (string_trace text.now at place terminator) out.old }
{
    let from = Cursor { at, place };
    if let Err(error) = argument_refuses(text, at, place, terminator) {
        return Err(Refusal::as_given(error, from));
    }
    let room = out.len();
    let mut aside: [u8; 1] = [0; 1];
    scan::scan(text, from, terminator, limit, room, &mut aside)?;
    scan::scan(text, from, terminator, limit, room, out)
}
