// One turn of a run over a script, within its bounds.
#![tactic(auto)]

ghost use Rattle.std.specs.Prelude.{◌≡◌, true, false, ◌+◌, ◌≤◌, eqb, length, Err};
ghost use Rattle.std.proofs.lemmas.List.Edits.{sets};
ghost use Rattle.utf8.specs.Table.{chars};
ghost use Rattle.classes.specs.Marks.{hash, apostrophe};
ghost use Rattle.book.specs.Book.{good};
ghost use Rattle.literal.specs.Trace.{bytes};
ghost use Rattle.literal.specs.Answers.{full};
ghost use Rattle.literal.specs.Cut.{cut};
ghost use Rattle.string.specs.Kept.{BodyKept};
ghost use Rattle.token.specs.Tokens.{EOF};
ghost use Rattle.fault.specs.Faults.{fault};
ghost use Rattle.script.specs.Rules.{document01};
ghost use Rattle.script.specs.Skips.{skipped};
ghost use Rattle.script.specs.Steps.{literal_trace, verdict_of, literal_step, part_step, end_step, step_of};
ghost use Rattle.turn.specs.declared.Next.TheVariants.{Over};
ghost use Rattle.turn.specs.Aside.{Holds, Aside, Ready};
ghost use Rattle.turn.specs.Turns.{turn_of, Leads, Turns, Deep, At, Standing, listed_as};

use chars::cursor::Cursor;
use classes::marks;
use entry::Entry;
use entry::kinds::Kind;
use fault::Fault;
use find::{Found, Opener};
use lex_error::LexError;
use literal::{End, Scanned};
use position::Position;
use reading::{Bounds, Ending};
use script::Verdict;
use token::tokens;

// How many bytes of a body are kept aside as it is measured, so that most literals are read once.
const ASIDE: usize = 128;

// How far a run has come within its bounds: the entries that are listed, and the literal bytes that are used.
#[derive(Clone, Copy)]
pub struct Room {
    pub bounds: Bounds,
    pub listed: usize,
    pub used: usize,
}

// What a turn comes to: nothing is listed, an entry is, or the run is over.
#[derive(Clone, Copy)]
pub enum Next {
    On,
    Listed(Entry),
    Over(Ending),
}

// What a turn has passed and up to where, how many literal bytes are used then, and what the turn came to.
#[derive(Clone, Copy)]
pub struct Turned {
    // Whether it is a piece of text that `${` ended; else the Rust's token. As one `Crossed` here, or as an enum in place of `next`,
    // a run over white space or symbols took a tenth to a quarter longer.
    pub piece: bool,
    pub token: u8,
    pub to: Cursor,
    pub used: usize,
    pub next: Next,
}

// A literal that its scan accepts: what opens it, from where its body was read, how it ends, and the body's length.
#[derive(Clone, Copy)]
struct Read {
    opener: Opener,
    from: Cursor,
    end: End,
    len: usize,
}

// A literal's answer within the limit and the room. The body of a string goes aside, where it has room there.
fn measure(
    text: &[u8],
    opener: Opener,
    from: Cursor,
    limit: usize,
    room: usize,
    aside: &mut [u8],
) -> Scanned
    ensures value { result ≡ cut (full from) limit room 0 (literal_trace document01 text.now opener from) }
    ensures body_kept { (opener.terminator ≡ hash → ⊥) → BodyKept result (literal_trace document01 text.now opener from) aside.old aside.new }
{
    if opener.terminator == marks::HASH {
        raw::scan::measure(text, from, 0, limit, room)
    } else {
        string::scan::scan(text, from, opener.terminator, limit, room, aside)
    }
}

// Whether the body of a `'` literal, which stands aside, is one character; none has more than four bytes.
fn is_one_character(aside: &[u8], text: &[u8], read: Read) -> bool
    requires { (read.opener.terminator ≡ apostrophe) × (read.len ≡ length (bytes (literal_trace document01 text.now read.opener read.from))) × Holds (bytes (literal_trace document01 text.now read.opener read.from)) aside.now }
    ensures { result ≡ eqb (length (chars (bytes (literal_trace document01 text.now read.opener read.from)))) 1 }
{
    read.len <= 4 && utf8::look_at(aside, 0).is_some_and(|(_, width)| width == read.len)
}

// What is to be said of a literal that its scan accepts, with so many interpolations open.
fn verdict(aside: &[u8], text: &[u8], read: Read, level: usize) -> Verdict
    requires { (read.len ≡ length (bytes (literal_trace document01 text.now read.opener read.from))) × Aside text.now read.opener read.from aside.now }
    ensures { result ≡ verdict_of read.opener level read.from read.end (bytes (literal_trace document01 text.now read.opener read.from)) }
{
    let start = read.from.place;
    if read.end.on_record.times != 0 {
        Err(Fault::at(LexError::StillOpen, read.end.cursor.place))
    } else if read.end.interpolated && 16 <= level {
        Err(Fault::at(LexError::TooDeep, start))
    } else if !read.end.interpolated
        && read.opener.terminator == marks::APOSTROPHE
        && !is_one_character(aside, text, read)
    {
        Err(Fault::at(LexError::NotOneCharacter, start))
    } else {
        Ok(())
    }
}

// Writes the body of a literal that is listed, behind the literal bytes that are used: a short string from aside, a long one by the
// same scan once more.
fn write(aside: &[u8], text: &[u8], read: Read, room: Room, literals: &mut [u8])
    requires { Ready text.now room read aside.now literals.old }
    ensures { literals.new ≡ sets literals.old room.used (bytes (literal_trace document01 text.now read.opener read.from)) }
{
    let from = read.from;
    let len = read.len;
    let used = room.used;
    if read.opener.terminator == marks::HASH {
        raw::write::write(text, from, 0, len, &mut literals[used..]);
    } else if len <= ASIDE {
        lent::copy(&aside[..len], literals, used);
    } else {
        let _ = string::scan::scan(
            text,
            from,
            read.opener.terminator,
            room.bounds.limit,
            literals.len() - used,
            &mut literals[used..],
        );
    }
}

// The run is over.
fn over(to: Cursor, used: usize, ending: Ending) -> Turned
    ensures { result ≡ record { piece = false; token = EOF; to = to; used = used; next = Over ending } }
{
    Turned {
        piece: false,
        token: tokens::EOF,
        to,
        used,
        next: Next::Over(ending),
    }
}

// It stops with a fault that is about no part of the script.
fn stop(to: Cursor, used: usize, error: LexError, place: Position) -> Turned
    ensures { result ≡ record { piece = false; token = EOF; to = to; used = used; next = Over (Err (fault error place)) } }
{
    over(to, used, Err(Fault::at(error, place)))
}

// A literal that is listed: a piece of text that `${` ends opens an interpolation.
#[tactic(auto, unfolding(crate::specs::Turns::listed_as))]
fn list(read: Read, at: usize, used: usize) -> Turned
    requires { used ≡ at + read.len }
    ensures { result ≡ listed_as read.opener read.end read.from.place read.len at }
{
    let (piece, token, kind) = if read.end.interpolated {
        (true, tokens::INTERPOLATED_STRING, Kind::Interpolated)
    } else {
        (false, tokens::STRING_CONSTANT, read.opener.kind)
    };
    Turned {
        piece,
        token,
        to: read.end.cursor,
        used,
        next: Next::Listed(Entry {
            kind,
            place: read.from.place,
            at,
            len: read.len,
        }),
    }
}

// A literal that its scan accepts.
fn accepted(
    aside: &[u8],
    text: &[u8],
    read: Read,
    level: usize,
    room: Room,
    literals: &mut [u8],
) -> Turned
    requires { Ready text.now room read aside.now literals.old }
    ensures { Deep level (λ s. Turns room.bounds room.listed room.used s (literal_step document01 text.now read.opener read.from s) result literals.old literals.new) }
{
    let from = read.from;
    let used = room.used;
    let after = used + read.len;
    let verdict = verdict(aside, text, read, level);
    match verdict {
        Err(fault) => over(from, used, Err(fault)),
        Ok(()) => {
            if room.listed < room.bounds.entries {
                write(aside, text, read, room, literals);
                return list(read, used, after);
            }
            stop(from, used, LexError::NoTokenRoom, from.place)
        }
    }
}

// A literal, from behind what opens it.
fn literal(
    text: &[u8],
    opener: Opener,
    from: Cursor,
    level: usize,
    room: Room,
    literals: &mut [u8],
) -> Turned
    requires { (from.at ≤ length text.now) × (room.bounds.literals ≡ length literals.old) × (room.used ≤ length literals.old) }
    ensures { Deep level (λ s. Turns room.bounds room.listed room.used s (literal_step document01 text.now opener from s) result literals.old literals.new) }
{
    let mut aside = [0; ASIDE];
    let free = literals.len() - room.used;
    match measure(text, opener, from, room.bounds.limit, free, &mut aside) {
        Ok((end, len)) => {
            let read = Read {
                opener,
                from,
                end,
                len,
            };
            accepted(&aside, text, read, level, room, literals)
        }
        Err(refusal) => over(from, room.used, Err(refusal.fault)),
    }
}

// A token that is a part of the script, from a cursor up to another.
fn part(kind: Kind, token: u8, to: Cursor, from: Cursor, room: Room) -> Turned
    requires { from.at ≤ to.at }
    ensures { At from (λ s. Leads s result (turn_of room.bounds room.listed room.used s (part_step kind token to s))) }
{
    let at = from.at;
    let place = from.place.advanced();
    let used = room.used;
    if room.listed < room.bounds.entries {
        let len = to.at - at;
        return Turned {
            piece: false,
            token,
            to,
            used,
            next: Next::Listed(Entry {
                kind,
                place,
                at,
                len,
            }),
        };
    }
    stop(from, used, LexError::NoTokenRoom, place)
}

// The script's end: 11 at the cursor where an interpolation is open.
fn end(here: Cursor, level: usize, room: Room) -> Turned
    ensures { Standing here level false (λ s. Leads s result (turn_of room.bounds room.listed room.used s (end_step s))) }
{
    let place = here.place;
    if level == 0 {
        over(here, room.used, Ok(place))
    } else {
        stop(here, room.used, LexError::StillOpen, place)
    }
}

// One turn, for a run, which has checked its script and its book. A text that is due goes on from its `}`; else what begins behind
// the white space. It takes of the run's state what it needs, and answers what it has passed, so that the open braces are touched
// only where they are counted.
pub fn turn(
    book: &[u8],
    text: &[u8],
    cursor: Cursor,
    level: usize,
    due: bool,
    room: Room,
    literals: &mut [u8],
) -> Turned
    requires { (good book.now ≡ true) × (cursor.at ≤ length text.now) × (room.bounds.literals ≡ length literals.old) × (room.used ≤ length literals.old) }
    ensures { Standing cursor level due (λ s. let here = skipped document01 text.now s in Turns room.bounds room.listed room.used here (step_of document01 text.now book.now here) result literals.old literals.new) }
{
    if due {
        // `literal` is handed a cursor in memory: a copy, so that the run's own stays in registers.
        let from = cursor;
        return literal(text, Opener::TEXT, from, level, room, literals);
    }
    let here = find::skip(text, cursor);
    match find::find(book, text, here) {
        Found::White(to) => Turned {
            piece: false,
            token: tokens::COMMENT,
            to,
            used: room.used,
            next: Next::On,
        },
        Found::Part(to, kind, token) => part(kind, token, to, here, room),
        Found::Literal(from, opener) => literal(text, opener, from, level, room, literals),
        Found::Wrong(fault) => over(here, room.used, Err(fault)),
        Found::End => end(here, level, room),
    }
}
