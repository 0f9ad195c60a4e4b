// An operator's precedence, and whether it binds to the right: the Rust's `precedence` and `is_bind_right`.
ghost use Rattle.std.specs.Prelude.{◌≡◌};
ghost use Rattle.operators.specs.Precedence.{precedence_of, is_bind_right};

use token::tokens::*;

// The precedence of an operator, 0 for any other token.
pub fn precedence(token: u8) -> u8
    ensures { result ≡ precedence_of token }
{
    match token {
        OR | XOR | PIPE => 30,
        AND | AMPERSAND => 60,
        EQUALS_TO | NOT_EQUALS_TO => 90,
        IN | NOT_IN => 110,
        LESS_THAN | LESS_THAN_EQUALS_TO | GREATER_THAN | GREATER_THAN_EQUALS_TO => 130,
        DOUBLE_QUESTION => 135,
        EXCLUSIVE_RANGE | INCLUSIVE_RANGE => 140,
        PLUS | MINUS => 150,
        DIVIDE | MULTIPLY | MODULO => 180,
        POWER_OF => 190,
        LEFT_SHIFT | RIGHT_SHIFT => 210,
        _ => 0,
    }
}

// Whether an operator binds to the right.
#[tactic(auto, unfolding(crate::specs::Precedence::is_bind_right))]
pub fn is_bind_right(token: u8) -> bool
    ensures { result ≡ is_bind_right token }
{
    token == POWER_OF
}
