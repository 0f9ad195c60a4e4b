// One turn of a string literal, its first half: a character is taken. The state between two turns, and how a scan is over.
ghost use Rattle.std.specs.Prelude.{true, false, ◌≡◌, ◌+◌, ◌≤◌, ◌<◌};
ghost use Rattle.classes.specs.Marks.{backtick};
ghost use Rattle.literal.specs.Answers.{once, ending};
ghost use Rattle.string_turn.specs.Endings.{unterminated_at};
ghost use Rattle.string_turn.specs.Take.{next_is, input_end, dollar_of, take_of};
ghost use Rattle.string_turn.specs.Passing.{Plain, Added, place_behind, StringPasses};

use crate::kinds;
use chars::cursor::Cursor;
use classes::marks::{BACKSLASH, BACKTICK, CR, DOLLAR, LEFT_BRACE, LF};
use fault::Fault;
use lex_error::LexError;
use literal::{End, Refusal, Terminator};
use position::Position;
use std::ops::ControlFlow;

// What a turn leaves to the next one. White space in columns below `skip` is skipped.
#[derive(Clone, Copy)]
pub struct Scanning {
    pub place: Position,
    pub first: Position,
    // The offset of a lone backslash that is pending.
    pub escape: Option<usize>,
    pub skip: usize,
}

// How a scan is over, but for the limit, which is tested again at a good end.
pub type Last = Result<End, Refusal>;

// Where a scan stands with no escape pending and no white space to skip.
#[derive(Clone, Copy)]
pub struct Stood {
    pub at: usize,
    pub place: Position,
    pub first: Position,
}

// The character of a turn and the cursor behind it, or how the scan is over.
pub type Got = ControlFlow<Last, (u32, Cursor)>;

// Whether the character at an offset is c.
#[tactic(auto, unfolding(crate::specs::Take::next_is))]
pub(crate) fn next_is(text: &[u8], at: usize, c: u32) -> bool
    ensures { result ≡ next_is text.now at c }
{
    matches!(utf8::look_at(text, at), Some((d, _)) if d == c)
}

// 4, at the start of the literal: the record is cleared.
#[tactic(auto, unfolding(crate::specs::Endings::unterminated_at))]
pub(crate) fn unterminated(start: Position, here: Cursor) -> Last
    ensures { result ≡ Err (unterminated_at start here) }
{
    Err(Refusal {
        fault: Fault::at(LexError::UnterminatedString, start),
        cursor: here,
        on_record: Terminator::NONE,
    })
}

// The end of input adds a column. What may go on in a further text keeps its terminator on record.
#[tactic(auto, unfolding(crate::specs::Take::input_end))]
fn at_end(q: u32, start: Position, at: usize, s: Scanning) -> Last
    ensures { result ≡ input_end q start at s }
{
    let place = s.place.advanced();
    let here = Cursor { at, place };
    if kinds::is_verbatim(q) || (kinds::is_continued(q) && s.escape.is_some()) {
        return Ok(End {
            cursor: here,
            first: s.first,
            on_record: Terminator { c: q, times: 1 },
            interpolated: false,
        });
    }
    unterminated(start, here)
}

// In text, a `$` or a backslash may be about an interpolation.
#[tactic(auto, unfolding(crate::specs::Take::dollar_of))]
fn dollar(text: &[u8], c: u32, here: Cursor, first: Position) -> Got
    ensures { result ≡ dollar_of text.now c here first }
{
    match c {
        DOLLAR if next_is(text, here.at, LEFT_BRACE) => ControlFlow::Break(Ok(End {
            cursor: here,
            first,
            on_record: Terminator::NONE,
            interpolated: true,
        })),
        BACKSLASH => match here.get_next(text) {
            Some((DOLLAR, next)) if next_is(text, next.at, LEFT_BRACE) => {
                ControlFlow::Continue((DOLLAR, next))
            }
            _ => ControlFlow::Continue((c, here)),
        },
        _ => ControlFlow::Continue((c, here)),
    }
}

// The character of a turn that begins at an offset, taken with a column; or how the scan is over.
#[tactic(auto, unfolding(crate::specs::Take::take_of))]
pub fn take(text: &[u8], q: u32, start: Position, at: usize, s: Scanning) -> Got
    ensures { result ≡ take_of text.now q start at s }
{
    let place = s.place;
    let from = Cursor { at, place };
    let Some((c, here)) = from.eat_next_and_advance(text) else {
        return ControlFlow::Break(at_end(q, start, at, s));
    };
    if kinds::is_interpolated(q) && s.escape.is_none() {
        return dollar(text, c, here, s.first);
    }
    ControlFlow::Continue((c, here))
}

// Passes all but the terminator, a backslash, `$`, LF and CR, in `most` bytes at the most.
fn stretch(text: &[u8], q: u32, most: usize, from: Stood) -> Stood
    requires { q < 0x80 }
    ensures string_passes { StringPasses text.now q from result }
    ensures at_bound { result.at ≤ from.at + most }
{
    let passed = chars::passing::pass(text, from.at, most, q, BACKSLASH, DOLLAR, LF, CR);
    if passed.count == 0 {
        return from;
    }
    let place = from.place;
    Stood {
        at: passed.at,
        place: place.advanced_by(passed.count),
        first: from.first.or_else(place.advanced()),
    }
}

// Whether a byte is a character, and neither the terminator nor one that the rules name.
fn is_plain(q: u32, b: u32) -> bool
    ensures { result ≡ true → (b < 0x80) × Plain q b }
{
    b < 0x80 && b != q && !matches!(b, BACKSLASH | DOLLAR | LF | CR)
}

// Passes one such byte, if one stands here. It is for places where more of them are unlikely: a stretch takes longer to begin.
pub fn pass_byte(text: &[u8], q: u32, from: Stood) -> Stood
    ensures string_passes { StringPasses text.now q from result }
    ensures at_bound { result.at ≤ from.at + 1 }
{
    let at = from.at;
    if text.len() <= at {
        return from;
    }
    if is_plain(q, text[at] as u32) {
        let place = from.place;
        let first = from.first.or_else(place.advanced());
        return Stood {
            at: at + 1,
            place: place.advanced_by(1),
            first,
        };
    }
    from
}

// Whether a turn of text only adds the character c, which ends at an offset, although the rules name it.
fn is_added(text: &[u8], c: u32, end: usize) -> bool
    ensures { result ≡ true → Added text.now end c }
{
    match c {
        LF => true,
        CR => !next_is(text, end, LF),
        DOLLAR => !next_is(text, end, LEFT_BRACE),
        BACKSLASH => !next_is(text, end, DOLLAR),
        _ => false,
    }
}

// The place behind a character that is added: a line feed begins a line.
#[tactic(auto, unfolding(crate::specs::Passing::place_behind))]
fn place_behind(c: u32, p: Position) -> Position
    ensures { result ≡ place_behind c p }
{
    let next = p.advanced();
    if c == LF { next.lined() } else { next }
}

// In text, passes a character that the rules name, if a turn only adds it.
fn pass_one(text: &[u8], from: Stood) -> Stood
    ensures string_passes { StringPasses text.now backtick from result }
    ensures at_bound { result.at ≤ from.at + 1 }
{
    let at = from.at;
    if text.len() <= at {
        return from;
    }
    let c = text[at] as u32;
    let end = at + 1;
    if is_added(text, c, end) {
        let place = from.place;
        let behind = place_behind(c, place);
        return Stood {
            at: end,
            place: behind,
            first: from.first.or_else(place.advanced()),
        };
    }
    from
}

// In text, passes the characters that the rules name, as long as turns only add them.
fn pass_added(text: &[u8], most: usize, from: Stood) -> Stood
    ensures string_passes { StringPasses text.now backtick from result }
    ensures at_bound { result.at ≤ from.at + most }
{
    let mut here = from;
    for _ in 0..most {
        let next = pass_one(text, here);
        if next.at == here.at {
            return next;
        }
        here = next;
    }
    here
}

// In text, passes all that turns only add, behind a stretch.
fn pass_on(text: &[u8], most: usize, from: Stood) -> Stood
    ensures string_passes { StringPasses text.now backtick from result }
    ensures at_bound { result.at ≤ from.at + most }
{
    let mut here = from;
    let mut left = most;
    loop {
        let one = pass_added(text, left, here);
        if one.at == here.at {
            return one;
        }
        left -= one.at - here.at;
        let next = stretch(text, BACKTICK, left, one);
        left -= next.at - one.at;
        here = next;
    }
}

// Passes at once what turns would only take and add, in `most` bytes at the most, for a terminator, which is ASCII. Most
// stretches end at the terminator, so that is looked for first.
pub fn pass(text: &[u8], q: u32, most: usize, from: Stood) -> Stood
    requires { q < 0x80 }
    ensures string_passes { StringPasses text.now q from result }
    ensures at_bound { result.at ≤ from.at + most }
{
    if next_is(text, from.at, q) {
        return from;
    }
    let near = stretch(text, q, most, from);
    if kinds::is_verbatim(q) {
        return pass_on(text, most - (near.at - from.at), near);
    }
    near
}
