// A stretch of characters that go on: those of a word, or those before the end of a line.
ghost use Rattle.std.specs.Prelude.{◌≡◌, ◌≤◌, length};
ghost use Rattle.position.specs.Place.{advanced_by};
ghost use Rattle.chars.specs.Cursors.{cursor};
ghost use Rattle.chars.specs.Ends.{stretch_end};
ghost use Rattle.chars.specs.Passing.{Ends};
ghost use Rattle.chars.specs.declared.stretch.Stretch.TheVariants.{Word, Line};

use crate::cursor::Cursor;
use crate::passing::Passed;
use classes::marks;

// What goes on: ASCII letters, digits and `_`, or all but LF.
#[derive(Clone, Copy)]
pub enum Stretch {
    Word,
    Line,
}

// Passes a word, which is ASCII: its bytes are its characters.
fn word(text: &[u8], from: usize) -> Passed
    ensures { Ends Word text.now from result.count result.at }
{
    let mut at = from;
    while at < text.len() && classes::is_id_continue(text[at] as u32) {
        at += 1;
    }
    Passed {
        at,
        count: at - from,
    }
}

// Passes a line.
fn line(text: &[u8], from: usize) -> Passed
    ensures { Ends Line text.now from result.count result.at }
{
    let mut at = from;
    let mut count = 0;
    while at < text.len() {
        let x = text[at] as u32;
        if x < 0x80 {
            if x == marks::LF {
                return Passed { at, count };
            }
            at += 1;
            count += 1;
        } else {
            let run = crate::passing::high(text, at, text.len());
            if run.count == 0 {
                return Passed { at, count };
            }
            count += run.count;
            at = run.at;
        }
    }
    Passed { at, count }
}

// The cursor behind what was passed, a column on for each character.
fn behind(start: Cursor, passed: Passed) -> Cursor
    ensures { result ≡ cursor passed.at (advanced_by passed.count start.place) }
{
    Cursor {
        at: passed.at,
        place: start.place.advanced_by(passed.count),
    }
}

// Behind every character that goes on.
pub fn end_of(what: Stretch, text: &[u8], start: Cursor) -> Cursor
    ensures value { result ≡ stretch_end what text.now start }
    ensures at_le_at { (start.at ≤ result.at) × (start.at ≤ length text.now → result.at ≤ length text.now) }
{
    match what {
        Stretch::Word => behind(start, word(text, start.at)),
        Stretch::Line => behind(start, line(text, start.at)),
    }
}
