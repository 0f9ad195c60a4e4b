// The scan of a raw string literal: the Rust's `parse_raw_string_literal` with nothing written.
ghost use Rattle.literal.specs.Scans.{accepted_as};
ghost use Rattle.utf8.specs.Looks.{char_found};
ghost use Rattle.std.specs.Prelude.{true, false, IfSome, ◌≡◌, ℕ, ◌+◌, ◌≤◌, ◌<◌, length};
ghost use Rattle.utf8.specs.Table.{look_at};
ghost use Rattle.chars.specs.Stretch.{NextChar};
ghost use Rattle.literal.specs.Cut.{cut};
ghost use Rattle.classes.specs.Marks.{quote, lf};
ghost use Rattle.literal.specs.Trace.{passes};
ghost use Rattle.literal.specs.Answers.{full};
ghost use Rattle.raw.specs.Raw.{as_source, raw_end, body_of, read_of};
ghost use Rattle.raw.specs.Step.{held_behind, cursor_behind, Failing, Hashes, LostAt, BodyPasses, Passes};

use crate::open;
use chars::cursor::Cursor;
use classes::marks::{HASH, LF, QUOTE};
use lex_error::LexError;
use literal::{End, Refusal, Scanned, Terminator};
use position::Position;

// How many bytes are held back behind a character, a quote and the hashes after it, while an attempt to close lasts: a quote
// begins or restarts one, a hash goes on with it, and any other character ends it.
#[tactic(auto, unfolding(crate::specs::Step::held_behind))]
fn holds(c: u32, held: usize) -> usize
    requires { held < 0xFFFFFFFFFFFFFFFF }
    ensures { result ≡ held_behind c held }
{
    match c {
        QUOTE => 1,
        HASH if 0 < held => held + 1,
        _ => 0,
    }
}

// The cursor behind a character that does not close. A line feed that ends an attempt to close starts no line.
#[tactic(auto, unfolding(crate::specs::Raw::placed))]
fn behind(c: u32, held: usize, next: Cursor) -> Cursor
    ensures { result ≡ cursor_behind as_source c held next }
{
    if c == LF && held == 0 {
        let at = next.at;
        let place = next.place.lined();
        Cursor { at, place }
    } else {
        next
    }
}

// An accepted body of so many bytes.
fn accept(cursor: Cursor, first: Position, on_record: Terminator, len: usize) -> Scanned
    ensures { result ≡ accepted_as (raw_end cursor first on_record) len }
{
    let end = End {
        cursor,
        first,
        on_record,
        interpolated: false,
    };
    Ok((end, len))
}

// How many hashes stand one behind the other from an offset on, counted up to k.
fn hashes_at(text: &[u8], from: usize, k: usize) -> usize
    requires { from ≤ length text.now }
    ensures { Hashes text.now from result }
{
    let mut n = 0;
    while n < k && from + n < text.len() && text[from + n] == b'#' {
        n += 1;
    }
    n
}

// How many bytes and columns a quote that closes nothing is passed with: alone with the hashes behind it where another quote,
// which begins the attempt to close anew, stands behind them; else with the character that ends the attempt too.
#[derive(Clone, Copy)]
struct Lost {
    width: usize,
    columns: usize,
}

// What a quote with so many hashes behind it is passed with, by what stands at the offset behind them; nothing where neither
// another quote nor a character that ends the attempt does.
fn lost_at(text: &[u8], at: usize, hashes: usize) -> Option<Lost>
    requires { hashes < at }
    ensures { IfSome result (LostAt text.now hashes at) }
{
    let (c, w) = utf8::look_at(text, at)?;
    match c {
        QUOTE => Some(Lost {
            width: hashes + 1,
            columns: hashes + 1,
        }),
        HASH => None,
        _ => Some(Lost {
            width: hashes + w + 1,
            columns: hashes + 2,
        }),
    }
}

// Where a scan of the body stands: the cursor, the first place, and the length of the body.
#[derive(Clone, Copy)]
struct Stand {
    here: Cursor,
    first: Position,
    n: usize,
}

// The body of a literal that k hashes close, in its text, and what stops it: a limit and a room.
#[derive(Clone, Copy)]
struct Body<'a> {
    text: &'a [u8],
    k: usize,
    limit: usize,
    room: usize,
}

impl Body<'_> {
    // How many bytes may be passed.
    fn most(self, s: Stand) -> usize
        requires { s.n ≤ self.room }
        ensures { (s.n + result ≤ self.entry.room) × (0 < result → passes self.entry.limit (s.n + result) ≡ false) }
    {
        literal::most(self.limit, self.room, s.n)
    }

    // Outside an attempt to close, passes all that is neither a quote nor a line feed, as far as no limit and no room stops it.
    fn pass_plain(self, s: Stand) -> Option<Stand>
        requires { s.n ≤ self.room }
        ensures { IfSome result (Passes self.entry s) }
    {
        let from = s.here.at;
        let place = s.here.place;
        let passed = chars::passing::pass(self.text, from, self.most(s), QUOTE, LF, LF, LF, LF);
        if passed.count == 0 {
            return None;
        }
        Some(Stand {
            here: Cursor {
                at: passed.at,
                place: place.advanced_by(passed.count),
            },
            first: s.first.or_else(place.advanced()),
            n: s.n + (passed.at - from),
        })
    }

    // Passes a line feed.
    fn pass_line(self, s: Stand) -> Option<Stand>
        requires { (s.n ≤ self.room) × (look_at self.text.now s.here.at ≡ char_found lf 1) }
        ensures { IfSome result (Passes self.entry s) }
    {
        if self.most(s) == 0 {
            return None;
        }
        let at = s.here.at + 1;
        let place = s.here.place.advanced().lined();
        Some(Stand {
            here: Cursor { at, place },
            first: s.first.or_else(place),
            n: s.n + 1,
        })
    }

    // Passes a quote with the hashes behind it, too few to close: a line feed that ends the attempt to close starts no line.
    fn pass_attempt(self, hashes: usize, s: Stand) -> Option<Stand>
        requires { (s.n ≤ self.room) × (hashes < self.k)
            × (look_at self.text.now s.here.at ≡ char_found quote 1)
            × Hashes self.text.now (s.here.at + 1) hashes }
        ensures { IfSome result (Passes self.entry s) }
    {
        let at = s.here.at;
        let place = s.here.place;
        let lost = lost_at(self.text, at + 1 + hashes, hashes)?;
        if self.most(s) < lost.width {
            return None;
        }
        Some(Stand {
            here: Cursor {
                at: at + lost.width,
                place: place.advanced_by(lost.columns),
            },
            first: s.first.or_else(place.advanced()),
            n: s.n + lost.width,
        })
    }

    // Passes a quote that closes nothing. Mostly no hash stands behind it, which is tried first.
    fn pass_quote(self, s: Stand) -> Option<Stand>
        requires { (1 ≤ self.k) × (s.n ≤ self.room) × (look_at self.text.now s.here.at ≡ char_found quote 1) }
        ensures { IfSome result (Passes self.entry s) }
    {
        let alone = self.pass_attempt(0, s);
        if alone.is_some() {
            return alone;
        }
        let hashes = hashes_at(self.text, s.here.at + 1, self.k);
        if hashes < self.k {
            self.pass_attempt(hashes, s)
        } else {
            None
        }
    }

    // Passes a quote that closes nothing, a line feed, or all up to the next of them.
    fn pass(self, s: Stand) -> Option<Stand>
        requires { (1 ≤ self.k) × (s.n ≤ self.room) }
        ensures { IfSome result (Passes self.entry s) }
    {
        let at = s.here.at;
        if self.text.len() <= at {
            return None;
        }
        match self.text[at] {
            b'"' => self.pass_quote(s),
            b'\n' => self.pass_line(s),
            _ => self.pass_plain(s),
        }
    }

    // Outside an attempt to close, passes what is kept, as long as there is any and no limit and no room stops it.
    fn ahead(self, held: usize, from: Stand) -> Stand
        requires { (1 ≤ self.k) × (from.n ≤ self.room) }
        ensures { BodyPasses self.entry.text.now self.entry.k self.entry.limit self.entry.room held from result }
    {
        let mut s = from;
        if held == 0 {
            while let Some(next) = self.pass(s) {
                s = next;
            }
        }
        s
    }

    // The length of the body, which begins at `from`, and how it ends. The literal's start is where its refusals are reported.
    // A raw body is a part of the text: all from its beginning to here, but for what is held back.
    fn read(self, start: Cursor, from: Cursor) -> Scanned
        requires { 1 ≤ self.k }
        ensures { result ≡ cut (full start) self.entry.limit self.entry.room 0 (body_of as_source self.entry.text.now start.place self.entry.k from) }
    {
        let on_record = Terminator {
            c: HASH,
            times: self.k,
        };
        let mut s = Stand {
            here: from,
            first: Position::NONE,
            n: 0,
        };
        let mut held = 0;
        loop {
            s = self.ahead(held, s);
            let Some((c, next)) = s.here.eat_next_and_advance(self.text) else {
                return accept(s.here, s.first, on_record, s.n);
            };
            let here = behind(c, held, next);
            held = holds(c, held);
            if self.k < held {
                return accept(next, s.first, Terminator::NONE, s.n);
            }
            s = Stand {
                here,
                first: s.first.or_else(here.place),
                n: next.at - from.at - held,
            };
            if self.room < s.n {
                return Err(Refusal::as_given(LexError::NoLiteralRoom, start));
            }
            if literal::is_over(self.limit, s.n) {
                return Err(Refusal::too_long(start.place, here, on_record));
            }
        }
    }
}

// What the scan of a text from a cursor answers for a limit and a room. As in the Rust, `hashes` is 0 where the literal
// is entered after its first hash. It does not ask the arguments.
pub fn measure(text: &[u8], start: Cursor, hashes: usize, limit: usize, room: usize) -> Scanned
    ensures { result ≡ cut (full start) limit room 0 (read_of as_source text.now start hashes) }
{
    let (k, from) = open::open(text, start, hashes)?;
    let body = Body {
        text,
        k,
        limit,
        room,
    };
    body.read(start, from)
}
