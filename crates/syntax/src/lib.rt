// The text of a token: the Rust's `literal_syntax`.
#![tactic(auto)]

ghost use Rattle.std.specs.Prelude.{◌≡◌};
ghost use Rattle.lent.specs.Written.{written_of, left_of};
ghost use Rattle.syntax.specs.Syntax.{written_as, literal_syntax_of};

use token::tokens::*;

// The token that a token is written as.
#[tactic(auto, unfolding(crate::specs::Syntax::written_as))]
fn written_as(token: u8) -> u8
    ensures { result ≡ written_as token }
{
    match token {
        UNARY_PLUS => PLUS,
        UNARY_MINUS => MINUS,
        _ => token,
    }
}

// Writes a token's text at the front of what is lent; nothing for a token without one, and for a
// number that names no token. The text is the bytes of the number that it is spelt as, without the
// zeros before them.
pub fn literal_syntax(token: u8, out: &mut [u8]) -> lent::Written
    ensures value { result ≡ written_of (literal_syntax_of token) out.old }
    ensures out_after { out.new ≡ left_of (literal_syntax_of token) out.old }
{
    let spelt = token::word_table::spelt(written_as(token));
    let bytes = spelt.to_be_bytes();
    let zeros = (spelt.leading_zeros() / 8) as usize;
    lent::write(&bytes[zeros..], out)
}
