// The tokens of a script that was let in, turn by turn.
ghost use Rattle.std.specs.Prelude.{◌≡◌, true, ◌≤◌, length};
ghost use Rattle.book.specs.Book.{good};
ghost use Rattle.reading.specs.CutRun.{bounds};
ghost use Rattle.run.specs.Run.{called, read_call};

use crate::Ran;
use crate::layout::Part;
use chars::cursor::Cursor;
use position::Position;
use reading::Bounds;
use script::{Crossed, State};
use turn::{Next, Room};

// Where a script begins.
const START: Cursor = Cursor {
    at: 0,
    place: Position::START,
};

// Before the first turn nothing is listed, and no literal byte is used.
fn fresh(limit: usize, literals: usize, entries: usize) -> Room
    ensures { result ≡ record { bounds = bounds limit literals entries; listed = 0; used = 0 } }
{
    let bounds = Bounds {
        limit,
        literals,
        entries,
    };
    Room {
        bounds,
        listed: 0,
        used: 0,
    }
}

// Lists them, each laid out in parts of the memory for entries, and the bytes of their literals.
pub fn tokens<P: Part>(
    book: &[u8],
    script: &[u8],
    limit: usize,
    literals: &mut [u8],
    entries: &mut [P],
) -> Ran
    requires { (good book.now ≡ true) × (length script.now ≤ 16777216) }
    ensures { called result literals.new (P.numbers entries.new) ≡ read_call P.WIDTH P.laid script.now book.now limit literals.old (P.numbers entries.old) }
{
    let mut room = fresh(limit, literals.len(), entries.len() / P::WIDTH);
    let mut s = State::begun(START);
    loop {
        let cursor = s.cursor;
        let turned = turn::turn(book, script, cursor, s.level, s.due, room, literals);
        let to = turned.to;
        let next = turned.next;
        match next {
            Next::On => {
                s.cursor = to;
                s.due = false;
            }
            Next::Listed(entry) => {
                P::store(entries, entry, room.listed);
                room.listed += 1;
                room.used = turned.used;
                let passed = Crossed::given(turned.piece, turned.token);
                if passed.counts(s.level) {
                    s = s.behind(passed, to);
                } else {
                    s.cursor = to;
                    s.due = false;
                }
            }
            Next::Over(ending) => {
                return Ran {
                    ending,
                    listed: room.listed,
                    used: room.used,
                };
            }
        }
    }
}
