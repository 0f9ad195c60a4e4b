// The numbers of a place as the Rust gives and takes them: Position::new, line and position of types/position.rs.
ghost use Rattle.std.specs.Prelude.{◌≡◌};
ghost use Rattle.places.specs.Coordinates.{new_of, numbered, line_option, position_option};

use lex_error::LexError;
use position::Position;

// A place, or the refusal.
pub type Placed = Result<Position, LexError>;

// Where the Rust panics, on line 0, this is refused.
pub fn new(line: u16, position: u16) -> Placed
    ensures { result ≡ new_of line position }
{
    if line == 0 {
        return Err(LexError::BadArgument);
    }
    Ok(Position::given(line, position))
}

// A number of a place, which NONE has not.
fn numbered(p: Position, n: u16) -> Option<usize>
    ensures { result ≡ numbered p n }
{
    if p.is_none() {
        return None;
    }
    Some(n as usize)
}

pub fn line(p: Position) -> Option<usize>
    ensures { result ≡ line_option p }
{
    numbered(p, p.line_number())
}

pub fn position(p: Position) -> Option<usize>
    ensures { result ≡ position_option p }
{
    let column = p.column_number();
    if column == 0 {
        return None;
    }
    numbered(p, column)
}
