// Numbers as little-endian bytes, put into memory that a caller lends: alone, or a row of them.
#![tactic(auto)]

ghost use Rattle.std.specs.Prelude.{◌≡◌};
ghost use Rattle.basis.specs.Store.{stored, after};
ghost use Rattle.lent.specs.Written.{written_of, left_of};
ghost use Rattle.numbers.specs.Spell.{spell, spelled};

use lent::Written;
use lex_error::LexError;

// Puts a number in at an index, in so many bytes, the lowest first, and answers the index after them. Where they have no
// room nothing is written, and the index given is answered.
pub fn put(n: u64, width: usize, out: &mut [u8], at: usize) -> usize
    ensures value { result ≡ after out.old at (spell width n) }
    ensures out_after { out.new ≡ stored out.old at (spell width n) }
{
    let Some(end) = lent::room(out, at, width) else {
        return at;
    };
    let mut rest = n;
    for byte in out[at..end].iter_mut() {
        *byte = (rest % 256) as u8;
        rest /= 256;
    }
    end
}

// Puts a row of numbers, so many bytes each, at the front of what is lent, and answers their length; too little room is 9,
// and nothing is written.
pub fn write_row(row: &[u64], width: usize, out: &mut [u8]) -> Written
    ensures value { result ≡ written_of (spelled width row.now) out.old }
    ensures out_after { out.new ≡ left_of (spelled width row.now) out.old }
{
    if width == 0 {
        return Ok(0);
    }
    if out.len() / width < row.len() {
        return Err(LexError::NoLiteralRoom);
    }
    let mut at = 0;
    for n in row {
        at = put(*n, width, out, at);
    }
    Ok(at)
}
