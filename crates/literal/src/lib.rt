// How a scan of a literal answers, and the limit on a literal's length.
#![tactic(auto)]

ghost use Rattle.std.specs.Prelude.{false, ◌≡◌, ◌+◌, ◌≤◌, ◌<◌};
ghost use Rattle.literal.specs.Trace.{passes};
ghost use Rattle.literal.specs.Answers.{as_given, too_long};

use chars::cursor::Cursor;
use fault::Fault;
use lex_error::LexError;
use position::Position;

// The terminator on record, for a literal that is still open: a character, and how often it stands.
#[derive(Clone, Copy)]
pub struct Terminator {
    pub c: u32,
    pub times: usize,
}

impl Terminator {
    // Nothing is on record.
    pub const NONE: Self = Self { c: 0, times: 0 };
}

// Where an accepted literal ends, where its first character ended, and whether `${` ended it.
#[derive(Clone, Copy)]
pub struct End {
    pub cursor: Cursor,
    pub first: Position,
    pub on_record: Terminator,
    pub interpolated: bool,
}

// A refusal, and where the scan then stood.
#[derive(Clone, Copy)]
pub struct Refusal {
    pub fault: Fault,
    pub cursor: Cursor,
    pub on_record: Terminator,
}

// A scan's answer: the end and the body's length in bytes, or a refusal.
pub type Scanned = Result<(End, usize), Refusal>;

impl Refusal {
    // 1, 2, 3 or 9: offset and position are those given, and nothing is on record.
    pub fn as_given(error: LexError, start: Cursor) -> Refusal
        ensures { result ≡ as_given error start }
    {
        Refusal {
            fault: Fault::at(error, start.place),
            cursor: start,
            on_record: Terminator::NONE,
        }
    }

    // 7, at the literal's start, with what is on record.
    pub fn too_long(start: Position, here: Cursor, on_record: Terminator) -> Refusal
        ensures { result ≡ too_long start here on_record }
    {
        Refusal {
            fault: Fault::at(LexError::StringTooLong, start),
            cursor: here,
            on_record,
        }
    }
}

// Whether a length in bytes passes the limit; 0 is no limit.
#[tactic(auto, unfolding(crate::specs::Trace::passes))]
pub fn is_over(limit: usize, n: usize) -> bool
    ensures { result ≡ passes limit n }
{
    limit != 0 && limit < n
}

// By how many bytes a body of n bytes may grow before a limit or a room stops it.
#[tactic(auto, unfolding(crate::specs::Trace::passes))]
pub fn most(limit: usize, room: usize, n: usize) -> usize
    requires { n ≤ room }
    ensures { (n + result ≤ room) × (0 < result → passes limit (n + result) ≡ false) }
{
    if limit == 0 {
        room - n
    } else {
        room.min(limit).saturating_sub(n)
    }
}
