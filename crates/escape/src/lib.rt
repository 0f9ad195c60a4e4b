// Escapes in a string literal: what a backslash and the character after it stand for.
#![tactic(auto)]

ghost use Rattle.utf8.specs.Looks.{char_found};
ghost use Rattle.std.specs.Prelude.{◌≡◌, ◌+◌, ◌≤◌, length};
ghost use Rattle.utf8.specs.Table.{look_at};
ghost use Rattle.escape.specs.Escapes.{no_char, letter_of, digits_after, digits_from, scalar_of, escaped_of};
ghost use Rattle.escape.specs.Whole.{DigitsAt, WholeAt};

use chars::cursor::Cursor;
use classes::marks::BACKSLASH;

// No character: it stands for nothing, and has no encoding.
pub const NOTHING: u32 = 0x110000;

// An escape whose character was taken: what it stands for and the cursor behind it, that it is
// malformed and the cursor then, or that it is none of those that all literals have.
#[derive(Clone, Copy)]
pub enum Escaped {
    Char(u32, Cursor),
    Malformed(Cursor),
    Other,
}

// What a whole escape stands for, and how many bytes it has, its backslash too; 0 where none was read.
#[derive(Clone, Copy)]
pub struct WholeEscape {
    pub c: u32,
    pub width: usize,
}

const NONE: WholeEscape = WholeEscape {
    c: NOTHING,
    width: 0,
};

// The number that digits make and the cursor behind them, or the cursor where they fail.
type Digits = Result<(u32, Cursor), Cursor>;

// The character that a letter stands for by itself.
fn letter_of(c: u32) -> u32
    ensures { result ≡ letter_of c }
{
    match c {
        0x72 => 0x0D,
        0x6E => 0x0A,
        0x5C => 0x5C,
        0x74 => 0x09,
        _ => NOTHING,
    }
}

// How many hex digits come after a letter.
fn digits_after(c: u32) -> u32
    ensures { (result ≡ digits_after c) × (result ≤ 8) }
{
    match c {
        0x78 => 2,
        0x75 => 4,
        0x55 => 8,
        _ => 0,
    }
}

// Takes n characters as hex digits, whatever they are: a line feed or a terminator too.
fn hex_digits(text: &[u8], n: u32, from: Cursor) -> Digits
    requires { n ≤ 8 }
    ensures { result ≡ digits_from text.now n 0 from }
{
    let mut here = from;
    let mut v: u32 = 0;
    let mut i = 0;
    while i < n {
        let Some((c, next)) = here.eat_next_and_advance(text) else {
            return Err(here);
        };
        let Some(d) = classes::to_digit(c) else {
            return Err(next);
        };
        v = v * 16 + d;
        here = next;
        i += 1;
    }
    Ok((v, here))
}

// The scalar value that n digits make: a surrogate or a number above 10FFFF is malformed.
fn number(text: &[u8], n: u32, here: Cursor) -> Escaped
    requires { n ≤ 8 }
    ensures { result ≡ scalar_of (digits_from text.now n 0 here) }
{
    match hex_digits(text, n, here) {
        Ok((v, next)) => {
            if utf8::is_scalar(v) {
                Escaped::Char(v, next)
            } else {
                Escaped::Malformed(next)
            }
        }
        Err(next) => Escaped::Malformed(next),
    }
}

// What a backslash and the character c stand for, where c was taken and the cursor stands behind it.
pub fn unescape(text: &[u8], c: u32, here: Cursor) -> Escaped
    ensures { result ≡ escaped_of text.now c here }
{
    let letter = letter_of(c);
    if letter == NOTHING {
        let n = digits_after(c);
        if n == 0 {
            return Escaped::Other;
        }
        return number(text, n, here);
    }
    Escaped::Char(letter, here)
}

// The number that n bytes from an offset make as hex digits; NOTHING where one is none.
fn value_at(text: &[u8], from: usize, n: usize) -> u32
    requires { n ≤ 8 }
    ensures { (result ≡ no_char → ⊥) → DigitsAt text.now from n result }
{
    if text.len() < from || text.len() - from < n {
        return NOTHING;
    }
    let mut v: u32 = 0;
    let mut i = 0;
    while i < n {
        let Some(d) = classes::to_digit(text[from + i] as u32) else {
            return NOTHING;
        };
        v = v * 16 + d;
        i += 1;
    }
    v
}

// What a backslash and the character c behind it, at an offset, stand for, with the digits that belong to them; none where they
// are malformed.
fn whole_of(text: &[u8], q: u32, at: usize, c: u32) -> WholeEscape
    requires { (at + 2 ≤ length text.now) × (look_at text.now at ≡ char_found 0x5C 1) × (look_at text.now (at + 1) ≡ char_found c 1) × (0x20 ≤ c) }
    ensures { WholeAt text.now q at result }
{
    let letter = letter_of(c);
    if letter != NOTHING {
        return WholeEscape {
            c: letter,
            width: 2,
        };
    }
    let n = digits_after(c) as usize;
    if n == 0 {
        if c == q {
            return WholeEscape { c: q, width: 2 };
        }
        return NONE;
    }
    let v = value_at(text, at + 2, n);
    if utf8::is_scalar(v) {
        return WholeEscape { c: v, width: n + 2 };
    }
    NONE
}

// The escape whose backslash stands at an offset, read at once in a literal with the terminator q. Where there is none, or
// it is malformed, none is read: the turns of a scan find what to say.
pub fn whole_at(text: &[u8], q: u32, at: usize) -> WholeEscape
    ensures { WholeAt text.now q at result }
{
    if text.len() <= at || text[at] as u32 != BACKSLASH || text.len() - at < 2 {
        return NONE;
    }
    let c = text[at + 1] as u32;
    if c < 0x20 || 0x80 <= c {
        return NONE;
    }
    whole_of(text, q, at, c)
}
