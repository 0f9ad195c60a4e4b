// The raw writer: a body between hashes and quotes, so that the raw scanner reads it back.
#![tactic(auto)]

ghost use Rattle.std.specs.Prelude.{◌≡◌, ◌≤◌, length};
ghost use Rattle.basis.specs.Store.{over};
ghost use Rattle.raw_writer.specs.Step.{next_held};
ghost use Rattle.raw_writer.specs.Writer.{hashes_for, raw_literal_of, raw_write_of, raw_left_of};

use lent::Written;
use lex_error::LexError;

// A quote begins a run, a hash goes on with one, and any other byte ends it. The run's length then.
#[tactic(auto, unfolding(crate::specs::Step::next_held))]
fn next_held(held: usize, c: u8) -> usize
    requires { held ≤ 16777216 }
    ensures { result ≡ next_held held c }
{
    match c {
        b'"' => 1,
        b'#' if held != 0 => held + 1,
        _ => 0,
    }
}

// Measures: how many hashes a body is written with. A run of a quote and n hashes is n + 1 bytes
// long, and n + 1 hashes are then enough.
fn hashes_for(body: &[u8]) -> usize
    requires { length body.now ≤ 16777216 }
    ensures { result ≡ hashes_for body.now }
{
    let mut hashes: usize = 1;
    let mut held: usize = 0;
    for c in body {
        held = next_held(held, *c);
        hashes = hashes.max(held);
    }
    hashes
}

// Writes the literal to the front of what is lent.
fn write(body: &[u8], hashes: usize, out: &mut [u8])
    requires { (hashes ≡ hashes_for body.now) × (length (raw_literal_of body.now) ≤ length out.old) }
    ensures { out.new ≡ over (raw_literal_of body.now) out.old }
{
    let opened = lent::fill(b'#', hashes, out, 0);
    let begun = lent::fill(b'"', 1, out, opened);
    let ended = lent::copy(body, out, begun);
    let closed = lent::fill(b'"', 1, out, ended);
    lent::fill(b'#', hashes, out, closed);
}

// The raw literal of a body, at the front of what is lent. A literal that is longer than a script may
// be is still written.
pub fn raw_write(body: &[u8], out: &mut [u8]) -> Written
    ensures value { result ≡ raw_write_of body.now out.old }
    ensures out_after { out.new ≡ raw_left_of body.now out.old }
{
    door::text(body)?;
    let hashes = hashes_for(body);
    let len = 2 * hashes + 2 + body.len();
    if out.len() < len {
        return Err(LexError::NoLiteralRoom);
    }
    write(body, hashes, out);
    Ok(len)
}
