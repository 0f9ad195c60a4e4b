// What kind of token a token is. Tokens of one kind stand together in the numbering, so a kind is a
// few ranges of it.
ghost use Rattle.std.specs.Prelude.{◌≡◌};
ghost use Rattle.operators.specs.Kinds.{is_literal, is_standard_symbol, is_standard_keyword};

use token::tokens::*;

// Whether a token is a literal symbol, one whose text says all of it.
pub fn is_literal(token: u8) -> bool
    ensures { result ≡ is_literal token }
{
    matches!(token, LEFT_BRACE..=AS | UNPROCESSED_RAW_CHAR)
}

// Whether a token is a standard symbol.
pub fn is_standard_symbol(token: u8) -> bool
    ensures { result ≡ is_standard_symbol token }
{
    matches!(
        token,
        LEFT_BRACE..=RIGHT_BRACKET
            | PLUS..=DOUBLE_COLON
            | COMMA..=EQUALS
            | LESS_THAN..=AND
            | PLUS_ASSIGN..=POWER_OF_ASSIGN
    )
}

// Whether a token is a standard keyword; `switch` is none in the source.
pub fn is_standard_keyword(token: u8) -> bool
    ensures { result ≡ is_standard_keyword token }
{
    matches!(
        token,
        TRUE..=ELSE | DO..=IN | FN..=CATCH | PRIVATE..=AS
    )
}
