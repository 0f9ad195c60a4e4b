// The C names of the compile tool: each asks stew's function of its name, and promises what that promises.
#![tactic(auto)]

ghost use Rattle.std.specs.Prelude.{◌≡◌};
ghost use Rattle.stew.specs.RunAnswer.{c_called, stew_run_of};
ghost use Rattle.stew.specs.WriteAnswer.{write_returned, out_of, write_answer};

use stew::{runs, writer};

// The entries go to `entries`, 20 bytes each, the bytes of literals to `literals`, and seven numbers of four bytes to `answer`:
// number, line, position, entries listed, literal bytes used, and where the part of the script is that the fault is about.
// Returns 0 or the stop's number. Where `answer` is shorter than 28 bytes, nothing is written.
#[unsafe(no_mangle)]
pub extern "C" fn stew_run(
    script: &[u8],
    book: &[u8],
    limit: usize,
    literals: &mut [u8],
    entries: &mut [u8],
    answer: &mut [u8],
) -> u32
    ensures { c_called result literals.new entries.new answer.new ≡ stew_run_of script.now book.now limit literals.old entries.old answer.old }
{
    runs::stew_run(script, book, limit, literals, entries, answer)
}

// The literal goes to `out`, and its length in four bytes to `answer`. Returns 0 or the refusal's number. Where `answer` is
// shorter than four bytes, nothing is written.
#[unsafe(no_mangle)]
pub extern "C" fn stew_raw_write(body: &[u8], out: &mut [u8], answer: &mut [u8]) -> u32
    ensures value { result ≡ write_returned body.now out.old answer.old }
    ensures out_after { out.new ≡ out_of body.now out.old answer.old }
    ensures answer_after { answer.new ≡ write_answer body.now out.old answer.old }
{
    writer::stew_raw_write(body, out, answer)
}
