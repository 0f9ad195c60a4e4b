// Raw string literals through C: `parse_raw_string_literal`, entered or resumed, on numbers and byte slices.
ghost use Rattle.std.specs.Prelude.{[], ◌∷◌};
ghost use Rattle.c_scanners.specs.LiteralRow.{ScanLeaves};
ghost use Rattle.c_scanners.specs.RawScans.{raw_parsing, raw_parsed, raw_resuming, raw_resumed};

use crate::literals;
use position::Position;

// The body goes to `out`, and the row of eleven numbers to `answer`. Where that is too short for the row, the
// scan is asked for its number alone, with a byte of our own.
#[unsafe(no_mangle)]
pub extern "C" fn stew_parse_raw_string_literal(
    text: &[u8],
    at: usize,
    line: u16,
    column: u16,
    limit: usize,
    out: &mut [u8],
    answer: &mut [u8],
) -> u32
    ensures { ScanLeaves (raw_parsed text.now at line column limit out.old) (raw_parsed text.now at line column limit (0 ∷ [])) (raw_parsing text.now at line column) out.old answer.old result out.new answer.new }
{
    let place = Position::given(line, column);
    if answer.len() < 88 {
        let mut byte: [u8; 1] = [0];
        return literals::short_number(raw::parse_raw_string_literal(
            text, at, place, limit, &mut byte,
        ));
    }
    let scanned = raw::parse_raw_string_literal(text, at, place, limit, &mut *out);
    literals::answer(scanned, &mut *answer)
}

// The same from anywhere in the body of a literal that so many hashes close.
#[unsafe(no_mangle)]
pub extern "C" fn stew_resume_raw_string_literal(
    text: &[u8],
    at: usize,
    line: u16,
    column: u16,
    hashes: usize,
    limit: usize,
    out: &mut [u8],
    answer: &mut [u8],
) -> u32
    ensures { ScanLeaves (raw_resumed text.now at line column hashes limit out.old) (raw_resumed text.now at line column hashes limit (0 ∷ [])) (raw_resuming text.now at line column hashes) out.old answer.old result out.new answer.new }
{
    let place = Position::given(line, column);
    if answer.len() < 88 {
        let mut byte: [u8; 1] = [0];
        return literals::short_number(raw::resume_raw_string_literal(
            text, at, place, hashes, limit, &mut byte,
        ));
    }
    let scanned = raw::resume_raw_string_literal(text, at, place, hashes, limit, &mut *out);
    literals::answer(scanned, &mut *answer)
}
