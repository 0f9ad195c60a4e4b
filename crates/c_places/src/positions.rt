// C names of the places and of the token ends: places go in as a line and a column each, and what the source says of them
// comes out as a row.
ghost use Rattle.std.specs.Prelude.{◌≡◌, ◌≤◌, get_or};
ghost use Rattle.token_ends.specs.Told.{told};
ghost use Rattle.numbers.specs.Answer.{fitted, answered};
ghost use Rattle.c_answer.specs.Short.{returned};
ghost use Rattle.c_places.specs.PlaceNumbers.{placed_as_number, coordinate_as_number};
ghost use Rattle.c_places.specs.Rows.{place_row, pair_row, places_row, end_numbers, ends_given, record_row};

use places::coordinates::Placed;
use position::Position;
use span::Span;
use token_ends::{Recorded, TokenEnds};

// A place, packed, or its refusal times 2^32.
fn placed_as_number(a: Placed) -> u64
    ensures { result ≡ placed_as_number a }
{
    match a {
        Ok(p) => c_answer::pack(p),
        Err(error) => u64::from(error.number()) * 4294967296,
    }
}

// A line or a column, or 2^32 for none.
fn coordinate_as_number(c: Option<usize>) -> u64
    ensures { result ≡ coordinate_as_number c }
{
    match c {
        Some(n) => n as u64,
        None => 4294967296,
    }
}

fn place_row(line: u16, column: u16) -> [u64; 8]
    ensures { result ≡ place_row line column }
{
    let p = Position::given(line, column);
    [
        placed_as_number(places::coordinates::new(line, column)),
        coordinate_as_number(places::coordinates::line(p)),
        coordinate_as_number(places::coordinates::position(p)),
        p.is_beginning_of_line() as u64,
        p.is_none() as u64,
        placed_as_number(places::moves::advance(p)),
        placed_as_number(places::moves::rewind(p)),
        placed_as_number(places::moves::new_line(p)),
    ]
}

fn pair_row(p: Position, q: Position) -> [u64; 5]
    ensures { result ≡ pair_row p q }
{
    let span = Span::new(p, q);
    [
        c_answer::pack(p.or_else(q)),
        placed_as_number(places::sum::sum(p, q)),
        c_answer::pack(span.start()),
        c_answer::pack(span.end()),
        span.is_none() as u64,
    ]
}

// The number is small, so that a caller can cast it.
fn recorded_row(recorded: Recorded) -> [u64; 3]
    ensures { (result ≡ end_numbers (told recorded)) × (get_or result 0 0 ≤ 255) }
{
    match recorded {
        Ok(ends) => {
            return [0, c_answer::pack(ends.last), c_answer::pack(ends.previous)];
        }
        Err(error) => {
            return [u64::from(error.number()), 0, 0];
        }
    }
}

// The row of a place: new; line, position, is_beginning_of_line, is_none; advance, rewind, new_line.
#[unsafe(no_mangle)]
pub extern "C" fn stew_place(line: u16, column: u16, answer: &mut [u8]) -> u32
    ensures value { result ≡ fitted (place_row line column) answer.old }
    ensures answer_after { answer.new ≡ answered (place_row line column) answer.old }
{
    if answer.len() < 64 {
        return 9;
    }
    let _ = numbers::write_row(&place_row(line, column), 8, answer);
    0
}

// The row of two places: or_else, sum; start, end and is_none of the span between them.
#[unsafe(no_mangle)]
pub extern "C" fn stew_places(
    line: u16,
    column: u16,
    line2: u16,
    column2: u16,
    answer: &mut [u8],
) -> u32
    ensures value { result ≡ fitted (places_row line column line2 column2) answer.old }
    ensures answer_after { answer.new ≡ answered (places_row line column line2 column2) answer.old }
{
    if answer.len() < 40 {
        return 9;
    }
    let p = Position::given(line, column);
    let q = Position::given(line2, column2);
    let _ = numbers::write_row(&pair_row(p, q), 8, answer);
    0
}

// The row of a token that ends at the first place, the second place being the last end, and the third the one before it:
// number, the last end then, the one before it then.
#[unsafe(no_mangle)]
pub extern "C" fn stew_record_token(
    token: u8,
    line: u16,
    column: u16,
    line2: u16,
    column2: u16,
    line3: u16,
    column3: u16,
    answer: &mut [u8],
) -> u32
    ensures value { result ≡ returned (record_row token line column (ends_given line2 column2 line3 column3)) answer.old }
    ensures answer_after { answer.new ≡ answered (record_row token line column (ends_given line2 column2 line3 column3)) answer.old }
{
    let place = Position::given(line, column);
    let ends = TokenEnds {
        last: Position::given(line2, column2),
        previous: Position::given(line3, column3),
    };
    let row = recorded_row(token_ends::record_token(ends, token, place));
    if answer.len() < 24 {
        return c_answer::short_number(row[0]);
    }
    let _ = numbers::write_row(&row, 8, &mut *answer);
    row[0] as u32
}
