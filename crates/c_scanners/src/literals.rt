// The answer of a literal's scan as a row of numbers, for the C names.
ghost use Rattle.std.specs.Prelude.{◌≡◌, ◌≤◌, get_or};
ghost use Rattle.literal.specs.Told.{refusal_number};
ghost use Rattle.numbers.specs.Answer.{answered};
ghost use Rattle.c_answer.specs.Short.{short_row_number};
ghost use Rattle.c_scanners.specs.LiteralRow.{literal_row};

use literal::Scanned;
use position::Position;

// The number of a scan that is accepted.
const ACCEPTED: u64 = 0;

// The number comes first: it is small, so that a caller can cast it.
fn row_of(s: Scanned) -> [u64; 11]
    ensures { (result ≡ literal_row s) × (get_or result 0 0 ≤ 255) }
{
    match s {
        Ok((end, len)) => {
            let cursor = end.cursor;
            return [
                ACCEPTED,
                cursor.at as u64,
                c_answer::pack(cursor.place),
                c_answer::pack(end.first),
                end.on_record.c as u64,
                end.on_record.times as u64,
                len as u64,
                end.interpolated as u64,
                c_answer::pack(Position::NONE),
                0,
                0,
            ];
        }
        Err(refusal) => {
            let fault = refusal.fault;
            let cursor = refusal.cursor;
            return [
                u64::from(fault.error.number()),
                cursor.at as u64,
                c_answer::pack(cursor.place),
                0,
                refusal.on_record.c as u64,
                refusal.on_record.times as u64,
                0,
                0,
                c_answer::pack(fault.place),
                fault.part.at as u64,
                fault.part.len as u64,
            ];
        }
    }
}

// The number for an answer that is too short for the row.
pub(crate) fn short_number(s: Scanned) -> u32
    ensures { result ≡ short_row_number (refusal_number s) }
{
    match s {
        Ok(_) => c_answer::short_number(0),
        Err(refusal) => c_answer::short_number(u64::from(refusal.fault.error.number())),
    }
}

// Puts the row into what is lent for it, 8 bytes a number, and answers the first. Its callers have asked for the room.
pub(crate) fn answer(s: Scanned, memory: &mut [u8]) -> u32
    ensures value { result ≡ get_or (literal_row s) 0 0 }
    ensures memory_after { memory.new ≡ answered (literal_row s) memory.old }
{
    let row = row_of(s);
    let _ = numbers::write_row(&row, 8, &mut *memory);
    row[0] as u32
}
