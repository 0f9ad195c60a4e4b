// UTF-8: the character at an offset of a text lent as bytes, and which numbers are characters. With `formed` and `encoder`, the leaf that alone knows about bytes.
#![tactic(auto)]

pub mod encoder;
pub mod formed;

ghost use Rattle.std.specs.Prelude.{true, ◌≡◌, ◌∷◌, ◌+◌, ◌≤◌, ◌<◌, length, drop};
ghost use Rattle.utf8.specs.Table.{look, look_at};
ghost use Rattle.utf8.specs.Encode.{is_scalar};
ghost use Rattle.utf8.specs.Bits.{bits_of, joined_of, sized_of};
ghost use Rattle.utf8.specs.Widths.{width_of};

// The character that begins at an offset: its code point and its width in bytes; None where none does.
pub type Look = Option<(u32, usize)>;

// The six bits of a further byte, 80..BF, at an offset; 64 where none stands.
fn bits_at(text: &[u8], at: usize) -> u32
    ensures { result ≡ bits_of (drop at text.now) }
{
    match text.get(at) {
        Some(b @ 0x80..=0xBF) => *b as u32 - 0x80,
        _ => 64,
    }
}

// The first bits, and then those of the n bytes after an offset; 0 if one of these is no further byte.
fn joined(text: &[u8], at: usize, n: usize, first: u32) -> u32
    requires { (at < length text.now) × (n ≤ 3) × (first < 32) }
    ensures { result ≡ joined_of n first (drop (at + 1) text.now) }
{
    let mut v = first;
    let mut i = 1;
    while i <= n {
        let b = bits_at(text, at + i);
        if 63 < b {
            return 0;
        }
        v = v * 64 + b;
        i += 1;
    }
    v
}

// The character of n further bytes: a scalar value, and not one that fewer bytes would do for.
#[tactic(auto, unfolding(crate::specs::Bits::sized_of))]
fn sized(text: &[u8], at: usize, n: usize, first: u32, least: u32) -> Look
    requires { (at < length text.now) × (n ≤ 3) × (first < 32) }
    ensures { result ≡ sized_of n first least (drop (at + 1) text.now) }
{
    let c = joined(text, at, n, first);
    if least <= c && is_scalar(c) {
        Some((c, n + 1))
    } else {
        None
    }
}

// The character at an offset whose byte, a, is above 7F: Table 3-6 read backwards. It has two callers, `look_at` and `width_beyond`, so that the compiler keeps it apart and those two small.
fn longer(text: &[u8], at: usize, a: u32) -> Look
    requires { (at < length text.now) × (0x80 ≤ a) }
    ensures { result ≡ look (a ∷ drop (at + 1) text.now) }
{
    match a {
        0xC0..=0xDF => sized(text, at, 1, a - 0xC0, 0x80),
        0xE0..=0xEF => sized(text, at, 2, a - 0xE0, 0x800),
        0xF0..=0xF7 => sized(text, at, 3, a - 0xF0, 0x10000),
        _ => None,
    }
}

// Whether a character of three bytes whose first, a, is E1..EC stands at an offset: Table 3-7's row with the most letters.
fn is_three(text: &[u8], at: usize, a: u32) -> bool
    requires { at < length text.now }
    ensures { result ≡ true → width_of (look (a ∷ drop (at + 1) text.now)) ≡ 3 }
{
    if a < 0xE1 || 0xEC < a || 63 < bits_at(text, at + 1) {
        return false;
    }
    bits_at(text, at + 2) < 64
}

// Whether a character of four bytes whose first, a, is F0 stands at an offset: the row of the emoji.
fn is_four(text: &[u8], at: usize, a: u32) -> bool
    requires { at < length text.now }
    ensures { result ≡ true → width_of (look (a ∷ drop (at + 1) text.now)) ≡ 4 }
{
    if a != 0xF0 {
        return false;
    }
    let b = bits_at(text, at + 1);
    if b < 16 || 63 < b || 63 < bits_at(text, at + 2) {
        return false;
    }
    bits_at(text, at + 3) < 64
}

// The width of the character at an offset whose byte, a, is above 7F, by that character; 0 where none begins. It is kept apart, so that
// `width` stays small.
#[inline(never)]
fn width_beyond(text: &[u8], at: usize, a: u32) -> usize
    requires { (at < length text.now) × (0x80 ≤ a) }
    ensures { result ≡ width_of (look (a ∷ drop (at + 1) text.now)) }
{
    match longer(text, at, a) {
        Some((_, w)) => w,
        None => 0,
    }
}

// The width of the character at an offset whose byte, a, is above 7F; 0 where none begins. The common rows are seen at once.
pub fn width(text: &[u8], at: usize, a: u32) -> usize
    requires { (at < length text.now) × (0x80 ≤ a) }
    ensures { result ≡ width_of (look (a ∷ drop (at + 1) text.now)) }
{
    if a < 0xE0 {
        if a < 0xC2 || 63 < bits_at(text, at + 1) {
            return 0;
        }
        return 2;
    }
    if is_three(text, at, a) {
        return 3;
    }
    if is_four(text, at, a) {
        return 4;
    }
    width_beyond(text, at, a)
}

// The character at an offset; None also past the end.
#[tactic(auto, using(crate::proofs::Laws::look_past, crate::proofs::Bits::look_ascii, crate::proofs::Bits::look_here))]
pub fn look_at(text: &[u8], at: usize) -> Look
    ensures { result ≡ look_at text.now at }
{
    if text.len() <= at {
        return None;
    }
    let a = text[at] as u32;
    if a < 0x80 {
        return Some((a, 1));
    }
    longer(text, at, a)
}

// Whether a number is a scalar value, as `char::from_u32` asks.
#[tactic(auto, unfolding(crate::specs::Encode::is_scalar))]
pub fn is_scalar(c: u32) -> bool
    ensures { result ≡ is_scalar c }
{
    matches!(c, 0..=0xD7FF | 0xE000..=0x10FFFF)
}
