// Block comments, which nest: the scan of the Rust's `scan_block_comment`, from a place that was found good.
ghost use Rattle.std.specs.Prelude.{◌≡◌, ◌≤◌, length};
ghost use Rattle.comment.specs.Block.{comment_of};
ghost use Rattle.comment.specs.Step.{eat_if_of, move_of, as_led, LevelFits, TurnFits};

use chars::cursor::{Cursor, Taken};
use classes::marks::{LF, SLASH, STAR};
use fault::Fault;
use std::ops::ControlFlow;

// The level that is still open, 0 where the comment is closed, and the cursor behind what was taken.
#[derive(Clone, Copy)]
pub struct Comment {
    pub level: usize,
    pub cursor: Cursor,
}

// A scan's answer: where it ended, or a refusal.
pub type Commented = Result<Comment, Fault>;

// One turn of the scan: it goes on at a cursor, with so many levels open, or it is over.
type Led = ControlFlow<Comment, (usize, Cursor)>;

// Takes the next character if it is c, and one column.
fn eat_if(text: &[u8], from: Cursor, c: u32) -> Taken
    ensures { result ≡ eat_if_of text.now from c }
{
    from.eat_next_and_advance(text).filter(|(d, _)| *d == c)
}

// Takes a character, or a pair whole.
fn turn(text: &[u8], level: usize, from: Cursor) -> Led
    requires { LevelFits (length text.now) level from }
    ensures value { result ≡ as_led (move_of text.now level from) }
    ensures turn_fits { TurnFits (length text.now) from result }
{
    let Some((c, next)) = from.eat_next_and_advance(text) else {
        return ControlFlow::Break(Comment {
            level,
            cursor: from,
        });
    };
    match c {
        SLASH => match eat_if(text, next, STAR) {
            Some((_, after)) => ControlFlow::Continue((level + 1, after)),
            None => ControlFlow::Continue((level, next)),
        },
        STAR => match eat_if(text, next, SLASH) {
            Some((_, after)) if level == 1 => ControlFlow::Break(Comment {
                level: 0,
                cursor: after,
            }),
            Some((_, after)) => ControlFlow::Continue((level - 1, after)),
            None => ControlFlow::Continue((level, next)),
        },
        LF => {
            let place = next.place.lined();
            ControlFlow::Continue((level, Cursor { place, ..next }))
        }
        _ => ControlFlow::Continue((level, next)),
    }
}

// The scan of a text from a place, both found good, for a run.
pub fn scan(text: &[u8], start: Cursor, level: usize) -> Comment
    requires { (start.at ≤ length text.now) × (1 ≤ level) × (level ≤ 65535) }
    ensures { result ≡ comment_of text.now start level }
{
    let mut depth = level;
    let mut cursor = start;
    loop {
        let passed = chars::passing::pass(text, cursor.at, text.len(), SLASH, STAR, LF, LF, LF);
        cursor = Cursor {
            at: passed.at,
            place: cursor.place.advanced_by(passed.count),
        };
        match turn(text, depth, cursor) {
            ControlFlow::Continue((n, next)) => {
                depth = n;
                cursor = next;
            }
            ControlFlow::Break(comment) => return comment,
        }
    }
}
