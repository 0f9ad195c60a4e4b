// What the compile tool asks of the raw writer: `raw_write` on byte slices.
ghost use Rattle.std.specs.Prelude.{◌≡◌};
ghost use Rattle.stew.specs.WriteAnswer.{short_write_number, write_returned, out_of, write_answer};

use lex_error::LexError;

fn short_number(body: &[u8]) -> u32
    ensures { result ≡ short_write_number body.now }
{
    match door::text(body) {
        Ok(()) => u32::from(LexError::NoLiteralRoom.number()),
        Err(error) => u32::from(error.number()),
    }
}

// The literal goes to `out`, and its length in four bytes to `answer`. Returns 0 or the refusal's number. Where `answer` is
// shorter than four bytes, nothing is written.
pub fn stew_raw_write(body: &[u8], out: &mut [u8], answer: &mut [u8]) -> u32
    ensures value { result ≡ write_returned body.now out.old answer.old }
    ensures out_after { out.new ≡ out_of body.now out.old answer.old }
    ensures answer_after { answer.new ≡ write_answer body.now out.old answer.old }
{
    if answer.len() < 4 {
        return short_number(body);
    }
    match raw_writer::raw_write(body, out) {
        Ok(len) => {
            numbers::put(len as u64, 4, answer, 0);
            0
        }
        Err(error) => {
            numbers::put(0, 4, answer, 0);
            u32::from(error.number())
        }
    }
}
