// Moves of a place that document 01 refuses where the Rust panics: `advance`, `rewind` and `new_line` of types/position.rs.
ghost use Rattle.std.specs.Prelude.{◌≡◌};
ghost use Rattle.places.specs.Moves.{moved, advance_of, rewind_of, new_line_of};

use crate::coordinates::Placed;
use lex_error::LexError;
use position::Position;

// A move, which no place on line 0 makes: the Rust refuses only NONE.
fn moved(p: Position, to: Position) -> Placed
    ensures { result ≡ moved p to }
{
    if p.is_on_line() {
        return Ok(to);
    }
    Err(LexError::BadArgument)
}

pub fn advance(p: Position) -> Placed
    ensures { result ≡ advance_of p }
{
    moved(p, p.advanced())
}

pub fn rewind(p: Position) -> Placed
    ensures { result ≡ rewind_of p }
{
    if p.column_number() == 0 {
        return Err(LexError::BadArgument);
    }
    moved(p, p.rewound())
}

pub fn new_line(p: Position) -> Placed
    ensures { result ≡ new_line_of p }
{
    moved(p, p.lined())
}
