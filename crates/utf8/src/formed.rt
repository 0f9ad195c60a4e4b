// Whether a text lent as bytes is UTF-8, and where its characters begin.
ghost use Rattle.std.specs.Prelude.{true, [], ◌∷◌, ◌≡◌, ◌+◌, ◌≤◌, ◌<◌, length, drop, get_or};
ghost use Rattle.utf8.specs.Table.{◌‥◌, look, well, boundary};
ghost use Rattle.utf8.specs.Widths.{width_of, fits_row, row_width};
ghost use Rattle.utf8.specs.Blocks.{Ascii};

// Whether n bytes stand from an offset on and are all ASCII. The loop goes to its end, so that the compiler takes many bytes at a time.
fn is_ascii(text: &[u8], at: usize, n: usize) -> bool
    requires { at ≤ length text.now }
    ensures { result ≡ true → Ascii text.now at (at + n) }
{
    if text.len() - at < n {
        return false;
    }
    let mut ascii = true;
    let mut i = 0;
    while i < n {
        let b = text[at + i];
        i += 1;
        if 0x7F < b {
            ascii = false;
        }
    }
    ascii
}

// Behind an ASCII byte; at each sixteenth byte, behind the block of ASCII that begins there, a long one or a short one.
fn behind_ascii(text: &[u8], at: usize) -> usize
    requires { (at < length text.now) × (get_or text.now at 0 < 0x80) }
    ensures { (at < result) × Ascii text.now at result }
{
    if at % 16 != 0 {
        return at + 1;
    }
    if is_ascii(text, at, 128) {
        return at + 128;
    }
    if is_ascii(text, at, 16) {
        return at + 16;
    }
    at + 1
}

// Whether a byte of a range stands at an offset.
#[tactic(auto, unfolding(crate::specs::Widths::fits_row))]
fn is_in(text: &[u8], at: usize, low: u8, high: u8) -> bool
    ensures { result ≡ fits_row (low ‥ high ∷ []) (drop at text.now) }
{
    at < text.len() && low <= text[at] && text[at] <= high
}

// Table 3-7, the rows of two bytes, of three, and of four, by the range of the second byte: the width, if the bytes after an
// offset are there.
#[tactic(auto, using(crate::proofs::Widths::fits_on))]
fn two(text: &[u8], at: usize) -> usize
    requires { at < length text.now }
    ensures { result ≡ row_width (0x80 ‥ 0xBF ∷ []) (drop (at + 1) text.now) }
{
    if is_in(text, at + 1, 0x80, 0xBF) {
        2
    } else {
        0
    }
}

fn three(text: &[u8], at: usize, low: u8, high: u8) -> usize
    requires { at < length text.now }
    ensures { result ≡ row_width (low ‥ high ∷ 0x80 ‥ 0xBF ∷ []) (drop (at + 1) text.now) }
{
    if is_in(text, at + 1, low, high) && is_in(text, at + 2, 0x80, 0xBF) {
        3
    } else {
        0
    }
}

fn four(text: &[u8], at: usize, low: u8, high: u8) -> usize
    requires { at < length text.now }
    ensures { result ≡ row_width (low ‥ high ∷ 0x80 ‥ 0xBF ∷ 0x80 ‥ 0xBF ∷ []) (drop (at + 1) text.now) }
{
    if is_in(text, at + 1, low, high)
        && is_in(text, at + 2, 0x80, 0xBF)
        && is_in(text, at + 3, 0x80, 0xBF)
    {
        4
    } else {
        0
    }
}

// The width of the character at an offset whose byte, a, is above 7F, by the rows of Table 3-7; 0 where none begins. Nothing is decoded.
#[tactic(auto, using(crate::proofs::Widths::row_none, crate::proofs::Widths::row_two, crate::proofs::Widths::row_three_low, crate::proofs::Widths::row_three, crate::proofs::Widths::row_three_high, crate::proofs::Widths::row_three_last, crate::proofs::Widths::row_four_low, crate::proofs::Widths::row_four, crate::proofs::Widths::row_four_high, crate::proofs::Widths::row_beyond))]
fn width(text: &[u8], at: usize, a: u8) -> usize
    requires { (at < length text.now) × (0x80 ≤ a) }
    ensures { result ≡ width_of (look (a ∷ drop (at + 1) text.now)) }
{
    match a {
        0xC2..=0xDF => two(text, at),
        0xE0 => three(text, at, 0xA0, 0xBF),
        0xE1..=0xEC => three(text, at, 0x80, 0xBF),
        0xED => three(text, at, 0x80, 0x9F),
        0xEE..=0xEF => three(text, at, 0x80, 0xBF),
        0xF0 => four(text, at, 0x90, 0xBF),
        0xF1..=0xF3 => four(text, at, 0x80, 0xBF),
        0xF4 => four(text, at, 0x80, 0x8F),
        _ => 0,
    }
}

// Whether a text is UTF-8.
pub fn check(text: &[u8]) -> bool
    ensures { result ≡ well text.now }
{
    let mut at = 0;
    while at < text.len() {
        let a = text[at];
        if a < 0x80 {
            at = behind_ascii(text, at);
        } else {
            let w = width(text, at, a);
            if w == 0 {
                return false;
            }
            at += w;
        }
    }
    true
}

// Whether a character of a well-formed text begins at an offset, or the text ends there: one byte tells.
#[tactic(auto, unfolding(crate::specs::Table::boundary))]
pub fn is_boundary(text: &[u8], at: usize) -> bool
    ensures { result ≡ boundary text.now at }
{
    match text.get(at) {
        Some(b) => *b < 0x80 || 0xBF < *b,
        None => at == text.len(),
    }
}
