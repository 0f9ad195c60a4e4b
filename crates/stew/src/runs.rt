// What the compile tool asks of the run: `run` on byte slices.
ghost use Rattle.std.specs.Prelude.{◌≡◌, ◌≤◌, get_or};
ghost use Rattle.stew.specs.RunAnswer.{tells_of, run_short, c_called, stew_run_of};

use lex_error::LexError;
use reading::Ending;
use run::Ran;

// The number comes first: it is small, so that a caller can cast it.
fn row_of(ran: Ran) -> [u64; 7]
    ensures { (result ≡ tells_of ran.ending ran.listed ran.used) × (get_or result 0 0 ≤ 255) }
{
    let listed = ran.listed as u64;
    let used = ran.used as u64;
    match ran.ending {
        Ok(place) => [
            0,
            u64::from(place.line_number()),
            u64::from(place.column_number()),
            listed,
            used,
            0,
            0,
        ],
        Err(fault) => [
            u64::from(fault.error.number()),
            u64::from(fault.place.line_number()),
            u64::from(fault.place.column_number()),
            listed,
            used,
            fault.part.at as u64,
            fault.part.len as u64,
        ],
    }
}

fn short_number(script: &[u8], book: &[u8]) -> u32
    ensures { result ≡ run_short script.now book.now }
{
    match door::run::refuses(script, book) {
        Ok(()) => u32::from(LexError::NoLiteralRoom.number()),
        Err(error) => u32::from(error.number()),
    }
}

// The entries go to `entries`, 20 bytes each, the bytes of literals to `literals`, and seven numbers of four bytes to `answer`:
// number, line, position, entries listed, literal bytes used, and where the part of the script is that the fault is about.
// Returns 0 or the stop's number. Where `answer` is shorter than 28 bytes, nothing is written.
pub fn stew_run(
    script: &[u8],
    book: &[u8],
    limit: usize,
    literals: &mut [u8],
    entries: &mut [u8],
    answer: &mut [u8],
) -> u32
    ensures { c_called result literals.new entries.new answer.new ≡ stew_run_of script.now book.now limit literals.old entries.old answer.old }
{
    if answer.len() < 28 {
        return short_number(script, book);
    }
    let ran = run::bytes::run(script, book, limit, literals, entries);
    let row = row_of(ran);
    let _ = numbers::write_row(&row, 4, &mut *answer);
    row[0] as u32
}
