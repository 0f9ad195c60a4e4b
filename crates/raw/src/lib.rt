// Raw string literals: the entries of the Rust's `parse_raw_string_literal`, which ask their arguments first.
#![tactic(auto)]

pub mod open;
pub mod scan;
pub mod write;

ghost use Rattle.std.specs.Prelude.{◌≡◌, ◌≤◌, length};
ghost use Rattle.lex_error.specs.Numbers.{no_refusal};
ghost use Rattle.literal.specs.Cut.{cut, wrote};
ghost use Rattle.literal.specs.Answers.{full};
ghost use Rattle.raw.specs.Raw.{as_source};
ghost use Rattle.raw.specs.Entries.{raw_trace, resumes_of, parse_trace, parse_of, resume_trace, resume_of};

use chars::cursor::Cursor;
use lex_error::LexError;
use literal::{Refusal, Scanned};
use position::Position;

// What the arguments of a scan refuse.
fn asks(text: &[u8], start: Cursor, hashes: usize) -> Result<(), LexError>
    ensures { result ≡ resumes_of text.now start hashes }
{
    door::door(text, start.at)?;
    if start.place.is_on_line() && 1 <= hashes && hashes <= 16_777_216 {
        Ok(())
    } else {
        Err(LexError::BadArgument)
    }
}

// Refuses what the arguments were refused with; where they were not, measures, and writes only what is accepted.
fn read(
    text: &[u8],
    start: Cursor,
    asked: Result<(), LexError>,
    hashes: usize,
    limit: usize,
    out: &mut [u8],
) -> Scanned
    requires { asked ≡ no_refusal → start.at ≤ length text.now }
    ensures value { result ≡ cut (full start) limit (length out.old) 0 (raw_trace as_source asked text.now start hashes) }
    ensures out_after { out.new ≡ wrote result (raw_trace as_source asked text.now start hashes) out.old }
{
    if let Err(error) = asked {
        return Err(Refusal::as_given(error, start));
    }
    let (end, len) = scan::measure(text, start, hashes, limit, out.len())?;
    write::write(text, start, hashes, len, out);
    Ok((end, len))
}

// The scan of a raw literal from after its first `#`, which is asked as a hash count of 1. The body is written to the front of
// what is lent only if the literal is accepted.
pub fn parse_raw_string_literal(
    text: &[u8],
    at: usize,
    place: Position,
    limit: usize,
    out: &mut [u8],
) -> Scanned
    ensures value { result ≡ parse_of as_source text.now at place limit (length out.old) }
    ensures out_after { out.new ≡ wrote result (parse_trace as_source text.now at place) out.old }
{
    let start = Cursor { at, place };
    read(text, start, asks(text, start, 1), 0, limit, out)
}

// The same from anywhere in the body of a literal that so many hashes close.
pub fn resume_raw_string_literal(
    text: &[u8],
    at: usize,
    place: Position,
    hashes: usize,
    limit: usize,
    out: &mut [u8],
) -> Scanned
    ensures value { result ≡ resume_of as_source text.now at place hashes limit (length out.old) }
    ensures out_after { out.new ≡ wrote result (resume_trace as_source text.now at place hashes) out.old }
{
    let start = Cursor { at, place };
    read(text, start, asks(text, start, hashes), hashes, limit, out)
}
