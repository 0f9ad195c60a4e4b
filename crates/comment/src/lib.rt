// Block comments: the Rust's `scan_block_comment`, with the refusals of its arguments.
#![tactic(auto)]

pub mod doc;
pub mod scan;

ghost use Rattle.std.specs.Prelude.{◌≡◌};
ghost use Rattle.comment.specs.Block.{comment_refuses, scan_block_comment_of};

use crate::scan::Commented;
use chars::cursor::Cursor;
use fault::Fault;
use lex_error::LexError;
use position::Position;

// What the arguments of a scan refuse.
#[tactic(auto, unfolding(crate::specs::Block::comment_refuses))]
fn refuses(text: &[u8], at: usize, place: Position, level: usize) -> Result<(), LexError>
    ensures { result ≡ comment_refuses text.now at place level }
{
    door::door(text, at)?;
    if !place.is_on_line() || !(1..=65535).contains(&level) {
        return Err(LexError::BadArgument);
    }
    Ok(())
}

// The scan of a comment from behind its opener, or from anywhere in it: `level` comments are open.
#[tactic(auto, using(crate::proofs::Refusals::nothing_refused), unfolding(crate::specs::Block::scan_block_comment_of))]
pub fn scan_block_comment(text: &[u8], at: usize, place: Position, level: usize) -> Commented
    ensures { result ≡ scan_block_comment_of text.now at place level }
{
    match refuses(text, at, place, level) {
        Ok(()) => Ok(scan::scan(text, Cursor { at, place }, level)),
        Err(error) => Err(Fault::at(error, place)),
    }
}
