// The scan of a string literal: the Rust's `parse_string_literal`, with its body written into lent bytes as far as it has room there.
ghost use Rattle.std.specs.Prelude.{true, ◌≡◌, ◌-◌, ◌≤◌, ◌<◌, length, get_or, take, drop, IfSome};
ghost use Rattle.basis.specs.Store.{stored};
ghost use Rattle.white.specs.White.{is_white};
ghost use Rattle.utf8.specs.Encode.{encoded};
ghost use Rattle.literal.specs.Cut.{cut};
ghost use Rattle.classes.specs.Marks.{cr, space, backtick, backslash};
ghost use Rattle.literal.specs.Answers.{full};
ghost use Rattle.string.specs.Ends.{last_of};
ghost use Rattle.string.specs.Reading.{string_begun, string_reading};
ghost use Rattle.string.specs.Limited.{LimitAnswers, Tells};
ghost use Rattle.string.specs.Kept.{BodyKept};
ghost use Rattle.string.specs.Units.{TerminatorOf, StandsAt, clear_of, stand_of, Reads, ReadsAnywhere};
ghost use Rattle.string.specs.Standing.{ScanLeads, ScanLeadsAnywhere};

use chars::cursor::Cursor;
use classes::marks::{APOSTROPHE, BACKSLASH, BACKTICK, CR, DOLLAR, LEFT_BRACE, LF, QUOTE, SPACE};
use lex_error::LexError;
use literal::{Refusal, Scanned, Terminator};
use position::Position;
use std::ops::ControlFlow;
use string_turn::take::{Last, Scanning, Stood};

// Where a scan stands: the offset, the state, and the length of the body so far.
#[derive(Clone, Copy)]
struct ScanStand {
    at: usize,
    state: Scanning,
    n: usize,
}

// The same with no escape pending. Reading ahead keeps to these: the state's enum would be written and read back at each step.
#[derive(Clone, Copy)]
struct Clear {
    at: usize,
    place: Position,
    first: Position,
    skip: usize,
    n: usize,
}

// What is read at once and adds one character or none: its bytes, the place behind it, below which column white space is skipped
// there, and whether a plain byte is likely to stand behind it.
#[derive(Clone, Copy)]
struct Unit {
    c: u32,
    width: usize,
    place: Position,
    skip: usize,
    more: bool,
}

// A turn under a limit: as Acted, or the answer.
type LimitedTurn = ControlFlow<Scanned, (u32, usize, Scanning)>;

// How many bytes a character adds to the body.
fn size(c: u32) -> usize
    ensures { result ≡ length (encoded c) }
{
    match c {
        0..=0x7F => 1,
        _ if !utf8::is_scalar(c) => 0,
        0x80..=0x7FF => 2,
        0x800..=0xFFFF => 3,
        _ => 4,
    }
}

// How a scan is over under a limit, with a body of n bytes.
fn answered(start: Position, limit: usize, n: usize, last: Last) -> Scanned
    ensures { LimitAnswers limit n (last_of start last) result }
{
    match last {
        Ok(end) if literal::is_over(limit, n) => {
            Err(Refusal::too_long(start, end.cursor, end.on_record))
        }
        Ok(end) => Ok((end, n)),
        Err(refusal) => Err(refusal),
    }
}

fn is_terminator(q: u32) -> bool
    ensures { result ≡ true → TerminatorOf q }
{
    matches!(q, QUOTE | APOSTROPHE | BACKTICK)
}

// The byte at an offset; at the end 0, which no rule names.
fn byte_at(text: &[u8], at: usize) -> u32
    ensures { result ≡ get_or text.now at 0 }
{
    if at < text.len() {
        return text[at] as u32;
    }
    0
}

// A doubled terminator gives itself, where the first place is set and no white space is skipped.
fn doubled(text: &[u8], q: u32, here: Clear) -> Option<Unit>
    requires { TerminatorOf q × StandsAt text.now here.at q }
    ensures { IfSome result (λ u. ReadsAnywhere text.now q here u) }
{
    if 0 < here.skip || here.first.is_none() || byte_at(text, here.at + 1) != q {
        return None;
    }
    Some(Unit {
        c: q,
        width: 2,
        place: here.place.advanced_by(2),
        skip: 0,
        more: byte_at(text, here.at + 2) != q,
    })
}

// In text, a CR before LF vanishes.
fn feed(text: &[u8], here: Clear) -> Option<Unit>
    requires { StandsAt text.now here.at cr }
    ensures { IfSome result (λ u. ReadsAnywhere text.now backtick here u) }
{
    if byte_at(text, here.at + 1) != LF {
        return None;
    }
    Some(Unit {
        c: LF,
        width: 2,
        place: here.place.advanced_by(2).lined(),
        skip: here.skip,
        more: false,
    })
}

// In text, `\$` before `{` gives `$`, one column for both.
fn sign(text: &[u8], here: Clear) -> Option<Unit>
    requires { StandsAt text.now here.at backslash }
    ensures { IfSome result (λ u. ReadsAnywhere text.now backtick here u) }
{
    if byte_at(text, here.at + 1) == DOLLAR && byte_at(text, here.at + 2) == LEFT_BRACE {
        return Some(Unit {
            c: DOLLAR,
            width: 2,
            place: here.place.advanced(),
            skip: 0,
            more: true,
        });
    }
    None
}

// A backslash, but in text: an ordinary literal goes on behind the end of a line, where white space up to the start's column is
// skipped; else a whole escape.
fn escaped(text: &[u8], q: u32, start: Position, here: Clear) -> Option<Unit>
    requires { TerminatorOf q × (q ≡ backtick → ⊥) × StandsAt text.now here.at backslash }
    ensures { IfSome result (λ u. Reads text.now q start here u) }
{
    if byte_at(text, here.at + 1) == LF {
        if q == QUOTE {
            return Some(Unit {
                c: escape::NOTHING,
                width: 2,
                place: here.place.advanced_by(2).lined(),
                skip: start.column_number() as usize + 1,
                more: false,
            });
        }
        return None;
    }
    let whole = escape::whole_at(text, q, here.at);
    if whole.width == 0 {
        return None;
    }
    let skip = here.skip;
    Some(Unit {
        c: whole.c,
        width: whole.width,
        place: here.place.advanced_by(whole.width),
        skip,
        more: false,
    })
}

// Behind the end of a line, a space that is skipped gives nothing.
fn skipped(text: &[u8], q: u32, here: Clear) -> Option<Unit>
    requires { TerminatorOf q × (q ≡ backtick → ⊥) × StandsAt text.now here.at space }
    ensures { IfSome result (λ u. ReadsAnywhere text.now q here u) }
{
    let place = here.place.advanced();
    let below = here.skip;
    if (place.column_number() as usize) < below {
        return Some(Unit {
            c: escape::NOTHING,
            width: 1,
            place,
            skip: below,
            more: false,
        });
    }
    None
}

// What is read at once where a scan stands.
fn unit_at(text: &[u8], q: u32, start: Position, here: Clear) -> Option<Unit>
    requires { TerminatorOf q }
    ensures { IfSome result (λ u. Reads text.now q start here u) }
{
    let at = here.at;
    if text.len() <= at {
        return None;
    }
    match text[at] as u32 {
        b if b == q => doubled(text, q, here),
        CR if q == BACKTICK => feed(text, here),
        BACKSLASH if q == BACKTICK => sign(text, here),
        BACKSLASH => escaped(text, q, start, here),
        SPACE if q != BACKTICK => skipped(text, q, here),
        _ => None,
    }
}

// A turn with n bytes in the body: the limit is tested between taking a character and acting on it.
fn turn(
    text: &[u8],
    q: u32,
    start: Position,
    limit: usize,
    n: usize,
    at: usize,
    s: Scanning,
) -> LimitedTurn
    ensures { Tells limit n text.now q start at s result }
{
    let (c, here) = match string_turn::take::take(text, q, start, at, s) {
        ControlFlow::Continue(taken) => taken,
        ControlFlow::Break(last) => {
            return ControlFlow::Break(answered(start, limit, n, last));
        }
    };
    if literal::is_over(limit, n) {
        let on_record = Terminator { c: q, times: 1 };
        return ControlFlow::Break(Err(Refusal::too_long(start, here, on_record)));
    }
    match string_turn::act::act(text, q, start, c, here, s) {
        ControlFlow::Break(last) => ControlFlow::Break(answered(start, limit, n, last)),
        ControlFlow::Continue(acted) => ControlFlow::Continue(acted),
    }
}

// Before the first turn.
fn begun(place: Position) -> Scanning
    ensures { result ≡ string_begun place }
{
    Scanning {
        place,
        first: Position::NONE,
        escape: None,
        skip: 0,
    }
}

// Copies what stands in the text from one offset to another.
fn copy(text: &[u8], at: usize, to: usize, out: &mut [u8], n: usize)
    requires { at < to → to ≤ length text.now }
    ensures { out.new ≡ stored out.old n (take (to - at) (drop at text.now)) }
{
    if at < to {
        lent::copy(&text[at..to], out, n);
    }
}

// Writes a character's bytes, where they have room. Most are ASCII.
fn put(c: u32, out: &mut [u8], n: usize)
    ensures { out.new ≡ stored out.old n (encoded c) }
{
    if c < 0x80 {
        if n < out.len() {
            out[n] = c as u8;
        }
        return;
    }
    utf8::encoder::put(c, out, n);
}

// Reads one byte that a turn would only take and add, if neither the limit nor the room is in the way.
fn add_byte(text: &[u8], q: u32, limit: usize, room: usize, here: Clear, out: &mut [u8]) -> Clear
    requires { TerminatorOf q × (here.n ≤ room) }
    ensures { ScanLeadsAnywhere text.now q limit room (stand_of here) out.old (stand_of result) out.new }
{
    if here.skip != 0 || literal::most(limit, room, here.n) == 0 {
        return here;
    }
    let at = here.at;
    let place = here.place;
    let first = here.first;
    let stood = string_turn::take::pass_byte(text, q, Stood { at, place, first });
    copy(text, at, stood.at, out, here.n);
    Clear {
        at: stood.at,
        place: stood.place,
        first: stood.first,
        skip: 0,
        n: here.n + (stood.at - at),
    }
}

// Reads two such bytes, or as many as stand here. Between two units there often are no more, and a stretch takes longer to begin.
fn add_bytes(text: &[u8], q: u32, limit: usize, room: usize, here: Clear, out: &mut [u8]) -> Clear
    requires { TerminatorOf q × (here.n ≤ room) }
    ensures { ScanLeadsAnywhere text.now q limit room (stand_of here) out.old (stand_of result) out.new }
{
    let one = add_byte(text, q, limit, room, here, &mut *out);
    add_byte(text, q, limit, room, one, out)
}

// Reads a unit, if one stands here and neither the limit nor the room is in the way, and bytes behind it where they are likely.
fn add_unit(
    text: &[u8],
    q: u32,
    start: Position,
    limit: usize,
    room: usize,
    here: Clear,
    out: &mut [u8],
) -> Clear
    requires { TerminatorOf q × (here.n ≤ room) }
    ensures { ScanLeads text.now q start limit room (stand_of here) out.old (stand_of result) out.new }
{
    let n = here.n;
    if literal::is_over(limit, here.n) {
        return here;
    }
    let Some(unit) = unit_at(text, q, start, here) else {
        return here;
    };
    let m = size(unit.c);
    if room - n < m {
        return here;
    }
    put(unit.c, &mut *out, n);
    let first = here.first.or_else(here.place.advanced());
    let place = unit.place;
    let next = Clear {
        at: here.at + unit.width,
        place,
        first,
        skip: unit.skip,
        n: n + m,
    };
    if unit.more {
        return add_bytes(text, q, limit, room, next, out);
    }
    next
}

// Reads what turns would only take and add, as far as neither the limit nor the room is in the way.
fn add_stretch(text: &[u8], q: u32, limit: usize, room: usize, here: Clear, out: &mut [u8]) -> Clear
    requires { TerminatorOf q × (here.n ≤ room) }
    ensures { ScanLeadsAnywhere text.now q limit room (stand_of here) out.old (stand_of result) out.new }
{
    if here.skip != 0 {
        return here;
    }
    let at = here.at;
    let place = here.place;
    let first = here.first;
    let most = literal::most(limit, room, here.n);
    let stood = string_turn::take::pass(text, q, most, Stood { at, place, first });
    copy(text, at, stood.at, out, here.n);
    Clear {
        at: stood.at,
        place: stood.place,
        first: stood.first,
        skip: 0,
        n: here.n + (stood.at - at),
    }
}

// Reads units and stretches, one behind the other, as long as there are any.
fn ahead(
    text: &[u8],
    q: u32,
    start: Position,
    limit: usize,
    room: usize,
    from: Clear,
    out: &mut [u8],
) -> Clear
    requires { TerminatorOf q × (from.n ≤ room) }
    ensures { ScanLeads text.now q start limit room (stand_of from) out.old (stand_of result) out.new }
{
    let mut here = from;
    loop {
        let next = add_unit(text, q, start, limit, room, here, &mut *out);
        if next.at == here.at {
            let last = add_stretch(text, q, limit, room, next, &mut *out);
            if last.at == next.at {
                return last;
            }
            here = last;
        } else {
            here = next;
        }
    }
}

// Where a scan stands, without the escape of its state, and with none.
fn cleared(at: usize, s: Scanning, n: usize) -> Clear
    ensures { result ≡ clear_of at s n }
{
    let place = s.place;
    let first = s.first;
    Clear {
        at,
        place,
        first,
        skip: s.skip,
        n,
    }
}

fn standing(here: Clear) -> ScanStand
    ensures { result ≡ stand_of here }
{
    let place = here.place;
    let first = here.first;
    let state = Scanning {
        place,
        first,
        escape: None,
        skip: here.skip,
    };
    ScanStand {
        at: here.at,
        state,
        n: here.n,
    }
}

// Reads ahead, unless an escape is pending.
fn lead(
    text: &[u8],
    q: u32,
    start: Position,
    limit: usize,
    room: usize,
    from: ScanStand,
    out: &mut [u8],
) -> ScanStand
    requires { from.n ≤ room }
    ensures { ScanLeads text.now q start limit room from out.old result out.new }
{
    let s = from.state;
    if !is_terminator(q) || s.escape.is_some() {
        return from;
    }
    let here = cleared(from.at, s, from.n);
    standing(ahead(text, q, start, limit, room, here, out))
}

// The scan of a literal whose start is the cursor's place: how it ends and the length of the body, within a limit and a
// room. The body goes to the front of `out`, where it is whole if the scan is accepted and it has room there: with no room the
// literal is only measured. It does not ask the arguments.
pub fn scan(text: &[u8], from: Cursor, q: u32, limit: usize, room: usize, out: &mut [u8]) -> Scanned
    ensures value { result ≡ cut (full from) limit room 0 (string_reading is_white text.now q from) }
    ensures body_kept { BodyKept result (string_reading is_white text.now q from) out.old out.new }
{
    let start = from.place;
    let mut at = from.at;
    let mut s = begun(start);
    let mut n = 0;
    loop {
        let stand = lead(
            text,
            q,
            start,
            limit,
            room,
            ScanStand { at, state: s, n },
            &mut *out,
        );
        at = stand.at;
        s = stand.state;
        n = stand.n;
        match turn(text, q, start, limit, n, at, s) {
            ControlFlow::Break(r) => {
                return r;
            }
            ControlFlow::Continue((d, next, r)) => {
                let m = size(d);
                if room - n < m {
                    return Err(Refusal::as_given(LexError::NoLiteralRoom, from));
                }
                utf8::encoder::put(d, &mut *out, n);
                n += m;
                at = next;
                s = r;
            }
        }
    }
}
