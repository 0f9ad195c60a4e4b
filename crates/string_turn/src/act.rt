// One turn of a string literal, its second half: the character that was taken is acted on, behind the test of the limit that the
// caller makes.
ghost use Rattle.std.specs.declared.ops.ControlFlow.TheVariants.{Break};
ghost use Rattle.std.specs.Prelude.{◌≡◌, ◌-◌, ◌≤◌, None, Err};
ghost use Rattle.position.specs.Place.{column_number, rewound};
ghost use Rattle.white.specs.White.{is_white};
ghost use Rattle.fault.specs.Faults.{part};
ghost use Rattle.chars.specs.Cursors.{cursor};
ghost use Rattle.string_turn.specs.Endings.{unterminated_at, malformed_at};
ghost use Rattle.string_turn.specs.Take.{scanning};
ghost use Rattle.string_turn.specs.Act.{close_of, line_feed_of, escape_of, add_of, plain_of, other_of, match_of, act_of};

use crate::take::{Last, Scanning};
use crate::{kinds, take};
use chars::cursor::Cursor;
use classes::marks::{BACKSLASH, CR, LF};
use escape::{Escaped, NOTHING};
use fault::{Fault, Part};
use lex_error::LexError;
use literal::{End, Refusal, Terminator};
use position::Position;
use std::ops::ControlFlow;

// What a character leads to: the character that is added, NOTHING for none, the offset and the state
// from which the scan goes on; or how it is over.
pub type Acted = ControlFlow<Last, (u32, usize, Scanning)>;

// 6: the terminator stays on record.
#[tactic(auto, unfolding(crate::specs::Endings::malformed_at))]
fn malformed(q: u32, from: usize, here: Cursor) -> Acted
    ensures { result ≡ Break (Err (malformed_at q from here)) }
{
    let part = Part {
        at: from,
        len: here.at.saturating_sub(from),
    };
    ControlFlow::Break(Err(Refusal {
        fault: Fault::about(LexError::MalformedEscapeSequence, here.place, part),
        cursor: here,
        on_record: Terminator { c: q, times: 1 },
    }))
}

// A state with no escape pending.
fn settled(place: Position, first: Position, skip: usize) -> Scanning
    ensures { result ≡ scanning place first None skip }
{
    Scanning {
        place,
        first,
        escape: None,
        skip,
    }
}

// A terminator alone closes: None. Else the cursor behind it, or behind both of a doubled one.
#[tactic(auto, unfolding(crate::specs::Act::close_of))]
fn close(text: &[u8], q: u32, c: u32, here: Cursor, escape: Option<usize>) -> Option<Cursor>
    ensures { result ≡ close_of text.now q c here escape }
{
    if c != q || escape.is_some() {
        return Some(here);
    }
    match here.eat_next_and_advance(text) {
        Some((d, next)) if d == q => Some(next),
        _ => None,
    }
}

// A line feed, which starts a line unless the literal ends there: 4, the column rewound.
#[tactic(auto, unfolding(crate::specs::Act::line_feed_of))]
fn line_feed(q: u32, start: Position, at: usize, s: Scanning) -> Acted
    ensures { result ≡ line_feed_of q start at s }
{
    if kinds::is_verbatim(q) {
        let place = s.place.lined();
        return ControlFlow::Continue((LF, at, Scanning { place, ..s }));
    }
    if kinds::is_continued(q) && s.escape.is_some() {
        let skip = start.column_number() as usize + 1;
        return ControlFlow::Continue((NOTHING, at, settled(s.place.lined(), s.first, skip)));
    }
    let place = s.place.rewound();
    ControlFlow::Break(take::unterminated(start, Cursor { at, place }))
}

// The character behind a backslash. The skipping of white space goes on.
#[tactic(auto, unfolding(crate::specs::Act::escape_of))]
fn escaped(text: &[u8], q: u32, c: u32, from: usize, at: usize, s: Scanning) -> Acted
    ensures { result ≡ escape_of text.now q c from at s }
{
    let place = s.place;
    let here = Cursor { at, place };
    match escape::unescape(text, c, here) {
        Escaped::Char(d, next) => {
            ControlFlow::Continue((d, next.at, settled(next.place, s.first, s.skip)))
        }
        Escaped::Malformed(next) => malformed(q, from, next),
        Escaped::Other if c == q => {
            ControlFlow::Continue((q, at, settled(place, s.first, s.skip)))
        }
        Escaped::Other => malformed(q, from, here),
    }
}

// Adds a character, unless it is white space to skip.
#[tactic(auto, unfolding(crate::specs::Act::add_of))]
fn add(c: u32, at: usize, s: Scanning) -> Acted
    ensures { result ≡ add_of is_white c at s }
{
    if white::is_white(c) && (s.place.column_number() as usize) < s.skip {
        return ControlFlow::Continue((NOTHING, at, s));
    }
    ControlFlow::Continue((c, at, settled(s.place, s.first, 0)))
}

// A character with no escape pending. A backslash begins one, but not in text; it has one byte.
#[tactic(auto, unfolding(crate::specs::Act::plain_of))]
fn plain(q: u32, c: u32, at: usize, s: Scanning) -> Acted
    ensures { result ≡ plain_of is_white q c at s }
{
    if c == BACKSLASH && !kinds::is_verbatim(q) {
        let escape = Some(at.saturating_sub(1));
        return ControlFlow::Continue((NOTHING, at, Scanning { escape, ..s }));
    }
    add(c, at, s)
}

// A character that is no line feed and does not vanish.
#[tactic(auto, unfolding(crate::specs::Act::other_of))]
fn other(text: &[u8], q: u32, c: u32, at: usize, s: Scanning) -> Acted
    ensures { result ≡ other_of is_white text.now q c at s }
{
    match s.escape {
        None => plain(q, c, at, s),
        Some(from) => escaped(text, q, c, from, at, s),
    }
}

// The Rust's match on the character, the offset being the one behind it.
#[tactic(auto, unfolding(crate::specs::Act::match_of))]
fn match_char(text: &[u8], q: u32, start: Position, c: u32, at: usize, s: Scanning) -> Acted
    ensures { result ≡ match_of is_white text.now q start c at s }
{
    match c {
        CR if take::next_is(text, at, LF) => ControlFlow::Continue((NOTHING, at, s)),
        LF => line_feed(q, start, at, s),
        _ => other(text, q, c, at, s),
    }
}

// What the character of a turn leads to, the cursor standing behind it.
#[tactic(auto, unfolding(crate::specs::Act::act_of))]
pub fn act(text: &[u8], q: u32, start: Position, c: u32, here: Cursor, s: Scanning) -> Acted
    ensures { result ≡ act_of is_white text.now q start c here s }
{
    let Some(to) = close(text, q, c, here, s.escape) else {
        return ControlFlow::Break(Ok(End {
            cursor: here,
            first: s.first,
            on_record: Terminator::NONE,
            interpolated: false,
        }));
    };
    let next = Scanning {
        place: to.place,
        first: s.first.or_else(to.place),
        ..s
    };
    match_char(text, q, start, c, to.at, next)
}
