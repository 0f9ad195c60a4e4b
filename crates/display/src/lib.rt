// The words of types/position.rs, written into lent bytes: Display and Debug for Position, Display for Span.
#![tactic(auto)]

ghost use Rattle.std.specs.Prelude.{◌+◌, ◌≤◌, ◌++◌, ◌≡◌};
ghost use Rattle.arrayvec.specs.ArrayString.{array_string_len};
ghost use Rattle.lent.specs.Written.{written_of, left_of};
ghost use Rattle.display.specs.Decimal.{decimal};
ghost use Rattle.display.specs.Forms.{display_of, debug_of, span_of, shown_of};

use arrayvec::ArrayString;
use itoa::Buffer;
use lent::Written;
use position::Position;
use span::Span;

// What is shown: a place by Display or by Debug, or a span, of which the two are one.
#[derive(Clone, Copy)]
pub enum Shown {
    Display(Position),
    Debug(Position),
    Span(Span),
}

// A text while it is put together. None has more than the 26 bytes of `line 65535, position 65535`.
type Words = ArrayString<32>;

// The digits of a number.
#[tactic(auto, using(crate::proofs::Printed::decimal_is))]
fn put_number(words: &mut Words, n: u16)
    requires { array_string_len words.old + 5 ≤ 32 }
    ensures text { words.new.bytes ≡ words.old.bytes ++ decimal n }
    ensures len { array_string_len words.new ≤ array_string_len words.old + 5 }
{
    words.push_str(Buffer::new().format(n));
}

// "none", "3", "3:7".
#[tactic(auto, unfolding(crate::specs::Forms::debug_of, crate::specs::Forms::colon_of, basis::specs::Words::word))]
fn put_debug(words: &mut Words, p: Position)
    requires { array_string_len words.old + 11 ≤ 32 }
    ensures text { words.new.bytes ≡ words.old.bytes ++ debug_of p }
    ensures len { array_string_len words.new ≤ array_string_len words.old + 11 }
{
    if p.is_none() {
        words.push_str("none");
    } else {
        put_number(words, p.line_number());
        if !p.is_beginning_of_line() {
            words.push_str(":");
            put_number(words, p.column_number());
        }
    }
}

// "none", "line 3, position 7".
#[tactic(auto, unfolding(crate::specs::Forms::display_of, crate::specs::Forms::long_of, basis::specs::Words::word))]
fn put_display(words: &mut Words, p: Position)
    requires { array_string_len words.old + 26 ≤ 32 }
    ensures { words.new.bytes ≡ words.old.bytes ++ display_of p }
{
    if p.is_none() {
        words.push_str("none");
    } else {
        words.push_str("line ");
        put_number(words, p.line_number());
        words.push_str(", position ");
        put_number(words, p.column_number());
    }
}

// The cases of the Rust's match: "2:3", "..2:3", "1:9-3:7", "1:9-15". Its first and its third are one: up to NONE the start is
// alone, NONE too. Past them neither place is NONE, so that the numbers of the lines differ exactly where the Rust's Options do, and
// its `start.line().unwrap()` cannot fail.
fn put_span(words: &mut Words, s: Span)
    requires { array_string_len words.old + 23 ≤ 32 }
    ensures { words.new.bytes ≡ words.old.bytes ++ span_of s }
{
    let start = s.start();
    let end = s.end();
    if end.is_none() {
        put_debug(words, start);
    } else if start.is_none() {
        words.push_str("..");
        put_debug(words, end);
    } else if start.line_number() != end.line_number() {
        put_debug(words, start);
        words.push_str("-");
        put_debug(words, end);
    } else {
        put_number(words, start.line_number());
        words.push_str(":");
        put_number(words, start.column_number());
        words.push_str("-");
        put_number(words, end.column_number());
    }
}

// What is shown goes out whole, or is refused with 9 and leaves what is lent as it was.
#[tactic(auto, unfolding(crate::specs::Forms::shown_of))]
pub fn write(what: Shown, out: &mut [u8]) -> Written
    ensures value { result ≡ written_of (shown_of what) out.old }
    ensures out_after { out.new ≡ left_of (shown_of what) out.old }
{
    let mut words = Words::new();
    match what {
        Shown::Display(p) => put_display(&mut words, p),
        Shown::Debug(p) => put_debug(&mut words, p),
        Shown::Span(s) => put_span(&mut words, s),
    }
    lent::write(words.as_str().as_bytes(), out)
}
