// Where the last tokens ended: the Rust's `record_token`, by value.
#![tactic(auto, unfolding(crate::specs::Ends::record_token_of))]

ghost use Rattle.std.specs.Prelude.{◌≡◌};
ghost use Rattle.token_ends.specs.Ends.{record_token_of};

use lex_error::LexError;
use position::Position;
use token::tokens;

// The Rust's `last_token_end` and `previous_token_end`.
#[derive(Eq, PartialEq, Debug, Clone, Copy)]
pub struct TokenEnds {
    pub last: Position,
    pub previous: Position,
}

pub type Recorded = Result<TokenEnds, LexError>;

// Records a token that ends at a place: a comment and the end of input leave the last end alone. On line 0 it is 3, as every
// move is.
pub fn record_token(ends: TokenEnds, token: u8, pos: Position) -> Recorded
    ensures { result ≡ record_token_of ends token pos }
{
    let previous = ends.last;
    if token == tokens::COMMENT || token == tokens::EOF {
        return Ok(TokenEnds {
            last: previous,
            previous,
        });
    }
    let last = places::moves::advance(pos)?;
    Ok(TokenEnds { last, previous })
}
