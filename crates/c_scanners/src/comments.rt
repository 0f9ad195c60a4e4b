// Comments through C: `scan_block_comment` on numbers and byte slices, and `is_doc_comment`.
ghost use Rattle.std.specs.Prelude.{◌≡◌, ◌≤◌, get_or};
ghost use Rattle.comment.specs.Block.{told};
ghost use Rattle.comment.specs.Doc.{is_doc_comment};
ghost use Rattle.numbers.specs.Answer.{answered};
ghost use Rattle.c_answer.specs.Short.{returned};
ghost use Rattle.c_scanners.specs.CommentRow.{comment_numbers, comment_row};

use chars::cursor::Cursor;
use comment::scan::Commented;
use position::Position;

// A refused scan tells the level, the offset and the place that it was given. The number is small, so that a caller can
// cast it.
fn row_of(level: usize, start: Cursor, scanned: Commented) -> [u64; 4]
    ensures { (result ≡ comment_numbers (told level start scanned)) × (get_or result 0 0 ≤ 255) }
{
    match scanned {
        Ok(comment) => {
            let cursor = comment.cursor;
            return [
                0,
                comment.level as u64,
                cursor.at as u64,
                c_answer::pack(cursor.place),
            ];
        }
        Err(fault) => {
            return [
                u64::from(fault.error.number()),
                level as u64,
                start.at as u64,
                c_answer::pack(start.place),
            ];
        }
    }
}

// The row: number, level, offset, place.
#[unsafe(no_mangle)]
pub extern "C" fn stew_scan_block_comment(
    text: &[u8],
    at: usize,
    line: u16,
    column: u16,
    level: usize,
    answer: &mut [u8],
) -> u32
    ensures value { result ≡ returned (comment_row text.now at line column level) answer.old }
    ensures answer_after { answer.new ≡ answered (comment_row text.now at line column level) answer.old }
{
    let place = Position::given(line, column);
    let scanned = comment::scan_block_comment(text, at, place, level);
    let row = row_of(level, Cursor { at, place }, scanned);
    if answer.len() < 32 {
        return c_answer::short_number(row[0]);
    }
    let _ = numbers::write_row(&row, 8, &mut *answer);
    row[0] as u32
}

#[unsafe(no_mangle)]
pub extern "C" fn stew_is_doc_comment(comment: &[u8]) -> bool
    ensures { result ≡ is_doc_comment comment.now }
{
    comment::doc::is_doc_comment(comment)
}
