// The body of a raw string literal, written into lent bytes: a part of the text, copied whole.
ghost use Rattle.std.specs.Prelude.{◌≡◌, ◌≤◌, length};
ghost use Rattle.std.proofs.lemmas.List.Edits.{sets};
ghost use Rattle.literal.specs.Trace.{bytes};
ghost use Rattle.raw.specs.Raw.{as_source, read_of};

use crate::open;
use chars::cursor::Cursor;

// Writes the body of a literal that was measured and accepted, `len` bytes long, to the front of what is lent.
pub fn write(text: &[u8], start: Cursor, hashes: usize, len: usize, out: &mut [u8])
    requires { (start.at ≤ length text.now) × (len ≡ length (bytes (read_of as_source text.now start hashes))) × (len ≤ length out.old) }
    ensures { out.new ≡ sets out.old 0 (bytes (read_of as_source text.now start hashes)) }
{
    if let Ok((_, from)) = open::open(text, start, hashes) {
        lent::copy(&text[from.at..from.at + len], out, 0);
    }
}
