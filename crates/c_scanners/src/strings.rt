// String literals through C: `parse_string_literal` on numbers and byte slices.
ghost use Rattle.std.specs.Prelude.{[], ◌∷◌};
ghost use Rattle.c_scanners.specs.LiteralRow.{ScanLeaves};
ghost use Rattle.c_scanners.specs.StringScans.{string_parsing, string_parsed};

use crate::literals;
use position::Position;

// The body goes to `out`, and the row of eleven numbers to `answer`. Where that is too short for the row, the
// scan is asked for its number alone, with a byte of our own.
#[unsafe(no_mangle)]
pub extern "C" fn stew_parse_string_literal(
    text: &[u8],
    at: usize,
    line: u16,
    column: u16,
    terminator: u32,
    limit: usize,
    out: &mut [u8],
    answer: &mut [u8],
) -> u32
    ensures { ScanLeaves (string_parsed text.now at line column terminator limit out.old) (string_parsed text.now at line column terminator limit (0 ∷ [])) (string_parsing text.now at line column terminator) out.old answer.old result out.new answer.new }
{
    let place = Position::given(line, column);
    if answer.len() < 88 {
        let mut byte: [u8; 1] = [0];
        return literals::short_number(string::parse_string_literal(
            text, at, place, terminator, limit, &mut byte,
        ));
    }
    let scanned = string::parse_string_literal(text, at, place, terminator, limit, &mut *out);
    literals::answer(scanned, &mut *answer)
}
