// Memory that a caller lends: bytes go into it whole or not at all.
#![tactic(auto)]

ghost use Rattle.std.specs.Prelude.{◌≡◌, ◌+◌, ◌≤◌, SomeIff, length, replicate};
ghost use Rattle.basis.specs.Store.{stored, after};
ghost use Rattle.lent.specs.Written.{written_of, left_of};

use lex_error::LexError;

// How a write went: how many bytes were written, or the refusal.
pub type Written = Result<usize, LexError>;

// The index after n bytes from an index on, where they have room.
pub fn room(out: &[u8], at: usize, n: usize) -> Option<usize>
    ensures { SomeIff result (at + n ≤ length out.now) (at + n) }
{
    at.checked_add(n).filter(|end| *end <= out.len())
}

// Puts the bytes `from` in at an index, and answers the index after them. Where they have no room
// nothing is written, and the index given is answered.
pub fn copy(from: &[u8], out: &mut [u8], at: usize) -> usize
    ensures value { result ≡ after out.old at from.now }
    ensures out_after { out.new ≡ stored out.old at from.now }
{
    let Some(end) = room(out, at, from.len()) else {
        return at;
    };
    for (i, b) in from.iter().enumerate() {
        out[at + i] = *b;
    }
    end
}

// The same for n bytes that are all b.
pub fn fill(b: u8, n: usize, out: &mut [u8], at: usize) -> usize
    ensures value { result ≡ after out.old at (replicate n b) }
    ensures out_after { out.new ≡ stored out.old at (replicate n b) }
{
    let Some(end) = room(out, at, n) else {
        return at;
    };
    out[at..end].fill(b);
    end
}

// Puts a text at the front of what is lent; too little room is 9, and nothing is written.
pub fn write(text: &[u8], out: &mut [u8]) -> Written
    ensures value { result ≡ written_of text.now out.old }
    ensures out_after { out.new ≡ left_of text.now out.old }
{
    if out.len() < text.len() {
        return Err(LexError::NoLiteralRoom);
    }
    Ok(copy(text, out, 0))
}
