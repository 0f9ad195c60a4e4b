// The listing of a script, one token on a line: its place, its kind, and its bytes in hex. Document 01, "Listing program": the
// empty book, no limit, 1,800 entries and 32,768 literal bytes.
#![tactic(auto)]

ghost use Rattle.std.specs.Prelude.{◌+◌, ◌*◌, ◌≤◌, ◌<◌, min, [], ◌∷◌, ◌≡◌, length, drop};
ghost use Rattle.display.specs.Decimal.{decimal};
ghost use Rattle.display.specs.Forms.{debug_of};
ghost use Rattle.listed.specs.Texts.{writing, put, puts};
ghost use Rattle.listed.specs.Listing.{hex_digit, hex_byte, hex_of, kind_word, token_line, part_at, token_bytes, entry_line, entries_lines, ending_line, run_lines, listing_of};

use display::Shown;
use entry::Entry;
use entry::kinds::Kind;
use lent::Written;
use position::Position;
use reading::Ending;

// Who puts a piece into `out` is told the index that it goes to, and answers the index behind it: a piece that has no room is
// left out.
fn put_byte(b: u8, out: &mut [u8], at: usize) -> usize
    ensures { writing out.new result ≡ put (writing out.old at) (b ∷ []) }
{
    lent::copy(&[b], out, at)
}

fn put_word(word: &[u8], out: &mut [u8], at: usize) -> usize
    ensures { writing out.new result ≡ put (writing out.old at) word.now }
{
    lent::copy(word, out, at)
}

fn digit(d: u8) -> u8
    requires { d < 16 }
    ensures { result ≡ hex_digit d }
{
    if d < 10 { b'0' + d } else { b'a' + (d - 10) }
}

fn put_hex_byte(b: u8, out: &mut [u8], at: usize) -> usize
    ensures { writing out.new result ≡ put (writing out.old at) (hex_byte b) }
{
    lent::copy(&[digit(b / 16), digit(b % 16)], out, at)
}

// In lowercase hex, `-` for none.
fn put_hex(bytes: &[u8], out: &mut [u8], at: usize) -> usize
    ensures { writing out.new result ≡ puts (writing out.old at) (hex_of bytes.now) }
{
    if bytes.is_empty() {
        return put_byte(b'-', out, at);
    }
    let mut n = at;
    for b in bytes {
        n = put_hex_byte(*b, &mut *out, n);
    }
    n
}

// The word of a kind, `-` for none.
#[tactic(auto, unfolding(basis::specs::Words::word, crate::specs::Listing::kinds, crate::specs::Listing::kind_word))]
fn kind_name(kind: u32) -> &'static [u8]
    ensures { result.now ≡ kind_word kind }
{
    match kind {
        1 => b"name",
        2 => b"keyword",
        3 => b"symbol",
        4 => b"number",
        5 => b"string",
        6 => b"interpolated",
        7 => b"text",
        8 => b"raw",
        9 => b"char",
        10 => b"comment",
        11 => b"reserved",
        _ => b"-",
    }
}

// In the source's Debug form.
fn put_place(place: Position, out: &mut [u8], at: usize) -> usize
    ensures { writing out.new result ≡ put (writing out.old at) (debug_of place) }
{
    if out.len() < at {
        return at;
    }
    match display::write(Shown::Debug(place), &mut out[at..]) {
        Ok(n) => at + n,
        Err(_) => at,
    }
}

// In decimal.
fn put_number(n: u8, out: &mut [u8], at: usize) -> usize
    ensures { writing out.new result ≡ put (writing out.old at) (decimal n) }
{
    let [hundreds, tens, ones] = [b'0' + n / 100, b'0' + n / 10 % 10, b'0' + n % 10];
    if n < 10 {
        put_word(&[ones], out, at)
    } else if n < 100 {
        put_word(&[tens, ones], out, at)
    } else {
        put_word(&[hundreds, tens, ones], out, at)
    }
}

// A part of some bytes; empty where they do not have it.
fn part<'a>(bytes: &'a [u8], at: usize, len: usize) -> &'a [u8]
    ensures { result.now ≡ part_at bytes.now at len }
{
    if at <= bytes.len() && len <= bytes.len() - at {
        &bytes[at..at + len]
    } else {
        &[]
    }
}

// A number of a place, none of which is above 65,535.
fn coordinate(n: u32) -> u16
    ensures { result ≡ min n 65535 }
{
    n.min(65535) as u16
}

// The bytes of an entry: those of literals are packed, all else is a part of the script.
fn bytes_of<'a>(script: &'a [u8], literals: &'a [u8], kind: u32, at: u32, len: u32) -> &'a [u8]
    ensures { result.now ≡ token_bytes script.now literals.now kind at len }
{
    if Kind::String as u32 <= kind && kind <= Kind::Char as u32 {
        part(literals, at as usize, len as usize)
    } else {
        part(script, at as usize, len as usize)
    }
}

fn put_line(place: Position, kind: u32, bytes: &[u8], out: &mut [u8], at: usize) -> usize
    ensures { writing out.new result ≡ puts (writing out.old at) (token_line place kind bytes.now) }
{
    let mut n = put_place(place, &mut *out, at);
    n = put_byte(b' ', &mut *out, n);
    n = put_word(kind_name(kind), &mut *out, n);
    n = put_byte(b' ', &mut *out, n);
    n = put_hex(bytes, &mut *out, n);
    put_byte(b'\n', out, n)
}

// The entry whose five numbers stand in front.
fn put_entry(script: &[u8], literals: &[u8], entries: &[u32], out: &mut [u8], at: usize) -> usize
    requires { 5 ≤ length entries.now }
    ensures { writing out.new result ≡ puts (writing out.old at) (entry_line script.now literals.now entries.now) }
{
    let kind = entries[0];
    let place = Position::given(coordinate(entries[1]), coordinate(entries[2]));
    let bytes = bytes_of(script, literals, kind, entries[3], entries[4]);
    put_line(place, kind, bytes, out, at)
}

fn put_entries(
    script: &[u8],
    literals: &[u8],
    entries: &[u32],
    listed: usize,
    out: &mut [u8],
) -> usize
    requires { 5 * listed ≤ length entries.now }
    ensures { writing out.new result ≡ puts (writing out.old 0) (entries_lines script.now literals.now listed entries.now) }
{
    let mut at = 0;
    for n in 0..listed {
        at = put_entry(
            script,
            literals,
            &entries[Entry::NUMBERS * n..],
            &mut *out,
            at,
        );
    }
    at
}

fn put_ending(ending: Ending, out: &mut [u8], at: usize) -> usize
    ensures { writing out.new result ≡ puts (writing out.old at) (ending_line ending) }
{
    match ending {
        Ok(place) => {
            let mut n = put_word(b"end ", &mut *out, at);
            n = put_place(place, &mut *out, n);
            put_byte(b'\n', out, n)
        }
        Err(fault) => {
            let mut n = put_word(b"stop ", &mut *out, at);
            n = put_number(fault.error.number(), &mut *out, n);
            n = put_byte(b' ', &mut *out, n);
            n = put_place(fault.place, &mut *out, n);
            put_byte(b'\n', out, n)
        }
    }
}

// The lines of a run in memory that is lent to it.
fn list_run(script: &[u8], literals: &mut [u8], entries: &mut [u32], out: &mut [u8]) -> usize
    ensures { writing out.new result ≡ puts (writing out.old 0) (run_lines script.now literals.old entries.old) }
{
    let book = [0u8; 2];
    let ran = run::run(script, &book, 0, &mut *literals, &mut *entries);
    let at = put_entries(script, literals, entries, ran.listed, &mut *out);
    put_ending(ran.ending, out, at)
}

// Puts the listing into what is lent, and answers where it ends. A piece that has no room is left out; 180,000 bytes have room
// for all: an entry's line has at most 27 bytes beside its hex digits, and these are at most 131,072.
pub fn list(script: &[u8], out: &mut [u8]) -> usize
    ensures within { result ≤ length out.new }
    ensures text { writing out.new result ≡ puts (writing out.old 0) (listing_of script.now) }
{
    if 32768 < script.len() {
        return put_word(b"stop 2 1\n", out, 0);
    }
    let mut literals = [0u8; 32768];
    let mut entries = [0u32; 9000];
    list_run(script, &mut literals, &mut entries, out)
}
