// How an answer crosses a C name of comparison: as one number; and what is returned where its row has no room.
#![tactic(auto)]

ghost use Rattle.std.specs.Prelude.{◌≡◌};
ghost use Rattle.c_answer.specs.Packed.{packed, written_as_number};
ghost use Rattle.c_answer.specs.Short.{short_row_number};

use lent::Written;
use position::Position;

// A place.
#[tactic(auto, unfolding(crate::specs::Packed::packed))]
pub fn pack(p: Position) -> u64
    ensures { result ≡ packed p }
{
    let line = u64::from(p.line_number());
    let column = u64::from(p.column_number());
    line * 65536 + column
}

// The length of what was written, or a refusal.
#[tactic(auto, unfolding(crate::specs::Packed::written_as_number, crate::specs::Packed::refusal_as_number))]
pub fn written_as_number(w: Written) -> u64
    ensures { result ≡ written_as_number w }
{
    match w {
        Ok(n) => n as u64,
        Err(error) => u64::from(error.number()) * 4294967296,
    }
}

// The number for an answer that is too short for its row, from the number that it would have.
#[tactic(auto, unfolding(crate::specs::Short::short_row_number))]
pub fn short_number(n: u64) -> u32
    ensures { result ≡ short_row_number n }
{
    match n {
        1..=3 | 14 => n as u32,
        _ => 9,
    }
}
