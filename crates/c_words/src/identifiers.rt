// Identifiers through C: `parse_identifier_token` on numbers and byte slices.
ghost use Rattle.std.specs.Prelude.{◌≡◌, ◌≤◌, get_or};
ghost use Rattle.identifier.specs.Told.{told};
ghost use Rattle.numbers.specs.Answer.{answered};
ghost use Rattle.c_answer.specs.Short.{returned};
ghost use Rattle.c_words.specs.IdentifierRow.{identifier_numbers, identifier_row};

use identifier::scan::Identified;
use position::Position;

// The number of a word that is found.
const FOUND: u64 = 0;

// The number is small, so that a caller can cast it.
fn row_of(scanned: Identified) -> [u64; 8]
    ensures { (result ≡ identifier_numbers (told scanned)) × (get_or result 0 0 ≤ 255) }
{
    match scanned {
        Ok(word) => {
            let cursor = word.cursor;
            return [
                FOUND,
                u64::from(word.kind.number()),
                word.token as u64,
                cursor.at as u64,
                c_answer::pack(cursor.place),
                0,
                0,
                0,
            ];
        }
        Err((fault, cursor)) => {
            let part = fault.part;
            return [
                u64::from(fault.error.number()),
                0,
                0,
                cursor.at as u64,
                c_answer::pack(cursor.place),
                c_answer::pack(fault.place),
                part.at as u64,
                part.len as u64,
            ];
        }
    }
}

// The row: number, kind, token, offset, place; the fault's place, and the offset and length of its part.
#[unsafe(no_mangle)]
pub extern "C" fn stew_parse_identifier_token(
    text: &[u8],
    at: usize,
    line: u16,
    column: u16,
    book: &[u8],
    answer: &mut [u8],
) -> u32
    ensures value { result ≡ returned (identifier_row text.now at line column book.now) answer.old }
    ensures answer_after { answer.new ≡ answered (identifier_row text.now at line column book.now) answer.old }
{
    let place = Position::given(line, column);
    let scanned = identifier::parse_identifier_token(text, at, place, book);
    let row = row_of(scanned);
    if answer.len() < 64 {
        return c_answer::short_number(row[0]);
    }
    let _ = numbers::write_row(&row, 8, &mut *answer);
    row[0] as u32
}
