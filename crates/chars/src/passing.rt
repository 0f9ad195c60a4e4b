// Passing many characters at once, for the scanners: those that a scanner takes one by one in the same way.
ghost use Rattle.std.specs.Prelude.{◌≡◌, ◌+◌, ◌≤◌, ◌<◌, length, get_or, None};
ghost use Rattle.utf8.specs.Table.{look_at};
ghost use Rattle.chars.specs.Stretch.{StretchOf, NextChar, among, Low, High, Other};

// The offset behind what was passed, and how many characters that is.
#[derive(Clone, Copy)]
pub struct Passed {
    pub at: usize,
    pub count: usize,
}

// Whether a character is one of five.
#[tactic(auto, unfolding(crate::specs::Stretch::among))]
fn is_among(c: u32, a: u32, b: u32, d: u32, e: u32, f: u32) -> bool
    ensures { result ≡ among a b d e f c }
{
    [a, b, d, e, f].contains(&c)
}

// Where passing stops at the latest: `most` bytes on, or at the end of the text.
fn last(len: usize, from: usize, most: usize) -> usize
    ensures { (from ≤ result) × (result ≤ from + most) × (from < result → result ≤ len) }
{
    from + len.saturating_sub(from).min(most)
}

// The width of the character at an offset whose byte, x, is above 7F, if it ends by `stop`; else 0.
fn width(text: &[u8], at: usize, x: u32, stop: usize) -> usize
    requires { (at < length text.now) × (x ≡ get_or text.now at 0) × (0x80 ≤ x) × (at ≤ stop) }
    ensures next_char { (result ≡ 0 → ⊥) → NextChar text.now High at stop result }
    ensures at_value { result ≡ 0 → stop ≡ length text.now → look_at text.now at ≡ None }
{
    let w = utf8::width(text, at, x);
    if w <= stop - at { w } else { 0 }
}

// Passes the characters above 7F that begin at an offset, up to `stop`; if there is none, and `stop` is the end of the text, then
// no character begins there. It has two callers, so that the compiler keeps it apart and the loops of ASCII small.
pub(crate) fn high(text: &[u8], from: usize, stop: usize) -> Passed
    requires { (from < stop) × (stop ≤ length text.now) × (0x80 ≤ get_or text.now from 0) }
    ensures stretch_of { StretchOf text.now High from result.count result.at }
    ensures at_le_stop { result.at ≤ stop }
    ensures from_value { result.count ≡ 0 → stop ≡ length text.now → look_at text.now from ≡ None }
{
    let mut at = from;
    let mut count = 0;
    while at < stop {
        let x = text[at] as u32;
        if x <= 0x7F {
            return Passed { at, count };
        }
        let w = width(text, at, x, stop);
        if w == 0 {
            return Passed { at, count };
        }
        at += w;
        count += 1;
    }
    Passed { at, count }
}

// Passes the characters that are none of five, in `most` bytes at the most. The five are ASCII, so a longer character is none of them.
// It is drawn into each scanner, which knows all five or all but one.
#[inline(always)]
pub fn pass(text: &[u8], from: usize, most: usize, a: u32, b: u32, d: u32, e: u32, f: u32) -> Passed
    requires { Low a b d e f }
    ensures stretch_of { StretchOf text.now (Other a b d e f) from result.count result.at }
    ensures at_bound { result.at ≤ from + most }
{
    let stop = last(text.len(), from, most);
    let mut at = from;
    let mut extra = 0;
    while at < stop {
        let x = text[at] as u32;
        if x < 0x80 {
            if is_among(x, a, b, d, e, f) {
                return Passed {
                    at,
                    count: at - from - extra,
                };
            }
            at += 1;
        } else {
            let run = high(text, at, stop);
            if run.count == 0 {
                return Passed {
                    at,
                    count: at - from - extra,
                };
            }
            extra += run.at - at - run.count;
            at = run.at;
        }
    }
    Passed {
        at,
        count: at - from - extra,
    }
}
