// The sum of two places: the Rust's Add for Position.
ghost use Rattle.std.specs.Prelude.{◌≡◌, true};
ghost use Rattle.position.specs.Place.{on_line};
ghost use Rattle.places.specs.Sum.{sum_on, sum_lines, sum_of};

use crate::coordinates::Placed;
use lex_error::LexError;
use position::Position;

// The sum of two columns, on the line that the sum has.
#[tactic(auto, unfolding(crate::specs::Sum::sum_on, crate::specs::Sum::sum_passes))]
fn sum_on(line: u16, c: u16, d: u16) -> Placed
    ensures { result ≡ sum_on line c d }
{
    if d == 0 {
        return Ok(Position::given(line, c));
    }
    match c.checked_add(d) {
        Some(column) => Ok(Position::given(line, column - 1)),
        None => Err(LexError::BadSum),
    }
}

// The sum of two places on lines.
#[tactic(auto, using(position::proofs::Moves::on_line_lem), unfolding(crate::specs::Sum::sum_lines, crate::specs::Sum::sum_passes))]
fn sum_lines(p: Position, rhs: Position) -> Placed
    requires { on_line p ≡ true }
    ensures { result ≡ sum_lines p rhs }
{
    match p.line_number().checked_add(rhs.line_number()) {
        Some(line) => sum_on(line - 1, p.column_number(), rhs.column_number()),
        None => Err(LexError::BadSum),
    }
}

// It is refused where the Rust would panic, wrap, or answer a place that is none.
#[tactic(auto, unfolding(crate::specs::Sum::sum_of))]
pub fn sum(p: Position, rhs: Position) -> Placed
    ensures { result ≡ sum_of p rhs }
{
    if rhs.is_none() {
        Ok(p)
    } else if p.is_on_line() && rhs.is_on_line() {
        sum_lines(p, rhs)
    } else {
        Err(LexError::BadSum)
    }
}
