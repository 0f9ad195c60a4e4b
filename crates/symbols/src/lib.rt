// The longest symbol at a place of a text, by the list of `token`.
#![tactic(auto)]

ghost use Rattle.std.specs.Prelude.{◌≡◌, ◌<◌, get_or};
ghost use Rattle.classes.specs.Class.{is_id_continue};
ghost use Rattle.symbols.specs.Symbols.{longest_of};
ghost use Rattle.symbols.specs.Begun.{
  followed_of,
  assigned_of,
  doubled_of,
  stars_of,
  less_of,
  greater_of,
  dots_of,
  bang_of,
  question_of,
  map_start_of,
};

use token::tokens::*;

// A symbol's token and its length in bytes, or nothing.
pub type Longest = Option<(u8, usize)>;

// A symbol of one character, or of two where the second is the one given.
#[tactic(auto, unfolding(crate::specs::Begun::followed_of))]
fn followed(text: &[u8], one: u8, second: u8, two: u8) -> Longest
    requires { 0 < second }
    ensures { result ≡ followed_of (get_or text.now 1 0) one second two }
{
    match text {
        [_, b, ..] if *b == second => Some((two, 2)),
        _ => Some((one, 1)),
    }
}

// A symbol of one character, or of two where the second is `=` or the one given.
#[tactic(auto, unfolding(crate::specs::Begun::assigned_of))]
fn assigned(text: &[u8], one: u8, assign: u8, second: u8, two: u8) -> Longest
    requires { 0 < second }
    ensures { result ≡ assigned_of (get_or text.now 1 0) one assign second two }
{
    match text {
        [_, b'=', ..] => Some((assign, 2)),
        _ => followed(text, one, second, two),
    }
}

// A symbol of one character, or twice that, each alone or before `=`.
#[tactic(auto, unfolding(crate::specs::Begun::doubled_of))]
fn doubled(text: &[u8], first: u8, one: u8, assign: u8, two: u8, three: u8) -> Longest
    requires { 0 < first }
    ensures { result ≡ doubled_of (get_or text.now 1 0) (get_or text.now 2 0) first one assign two three }
{
    match text {
        [_, b, b'=', ..] if *b == first => Some((three, 3)),
        [_, b, ..] if *b == first => Some((two, 2)),
        _ => followed(text, one, b'=', assign),
    }
}

// What `*` begins.
fn stars(text: &[u8]) -> Longest
    ensures { result ≡ stars_of (get_or text.now 1 0) (get_or text.now 2 0) }
{
    doubled(
        text,
        b'*',
        MULTIPLY,
        MULTIPLY_ASSIGN,
        POWER_OF,
        POWER_OF_ASSIGN,
    )
}

// What `<` begins.
fn less(text: &[u8]) -> Longest
    ensures { result ≡ less_of (get_or text.now 1 0) (get_or text.now 2 0) }
{
    doubled(
        text,
        b'<',
        LESS_THAN,
        LESS_THAN_EQUALS_TO,
        LEFT_SHIFT,
        LEFT_SHIFT_ASSIGN,
    )
}

// What `>` begins.
fn greater(text: &[u8]) -> Longest
    ensures { result ≡ greater_of (get_or text.now 1 0) (get_or text.now 2 0) }
{
    doubled(
        text,
        b'>',
        GREATER_THAN,
        GREATER_THAN_EQUALS_TO,
        RIGHT_SHIFT,
        RIGHT_SHIFT_ASSIGN,
    )
}

// What `.` begins.
#[tactic(auto, unfolding(crate::specs::Begun::dots_of))]
fn dots(text: &[u8]) -> Longest
    ensures { result ≡ dots_of (get_or text.now 1 0) (get_or text.now 2 0) }
{
    match text {
        [_, b'.', b'=', ..] => Some((INCLUSIVE_RANGE, 3)),
        [_, b'.', ..] => Some((EXCLUSIVE_RANGE, 2)),
        _ => Some((PERIOD, 1)),
    }
}

// What `!` begins: `!in` only if no identifier goes on there.
#[tactic(auto, using(crate::proofs::Begun::not_on), unfolding(crate::specs::Begun::bang_of, crate::specs::Begun::followed_of))]
fn bang(text: &[u8]) -> Longest
    ensures { result ≡ bang_of (get_or text.now 1 0) (get_or text.now 2 0) (is_id_continue (get_or text.now 3 0)) }
{
    match text {
        [_, b'i', b'n', b, ..] if classes::is_id_continue(u32::from(*b)) => { Some((BANG, 1)) }
        [_, b'i', b'n', ..] => Some((NOT_IN, 3)),
        [_, b'=', ..] => Some((NOT_EQUALS_TO, 2)),
        _ => Some((BANG, 1)),
    }
}

// What `?` begins, which is no symbol by itself.
#[tactic(auto, unfolding(crate::specs::Begun::question_of))]
fn question(text: &[u8]) -> Longest
    ensures { result ≡ question_of (get_or text.now 1 0) }
{
    match text {
        [_, b'.', ..] => Some((ELVIS, 2)),
        [_, b'[', ..] => Some((QUESTION_BRACKET, 2)),
        [_, b'?', ..] => Some((DOUBLE_QUESTION, 2)),
        _ => None,
    }
}

// What `#` begins, which is no symbol by itself.
#[tactic(auto, unfolding(crate::specs::Begun::map_start_of))]
fn hash(text: &[u8]) -> Longest
    ensures { result ≡ map_start_of (get_or text.now 1 0) }
{
    match text {
        [_, b'{', ..] => Some((MAP_START, 2)),
        _ => None,
    }
}

// The longest symbol at the front of a text, by its first byte.
#[tactic(auto, using(crate::proofs::Fronts::by_bytes, crate::proofs::Begun::followed_is, crate::proofs::Begun::assigned_is, crate::proofs::Begun::doubled_is, crate::proofs::Begun::dots_is, crate::proofs::Begun::bang_is, crate::proofs::Begun::question_is, crate::proofs::Begun::hash_is), unfolding(token::specs::Keywords::keywords, basis::specs::Words::word, classes::specs::Class::is_id_first_alphabetic, crate::specs::Symbols::is_symbol, crate::specs::Symbols::longer))]
pub fn longest_of(text: &[u8]) -> Longest
    ensures { result ≡ longest_of text.now }
{
    let [first, ..] = text else {
        return None;
    };
    match *first {
        b'(' => followed(text, LEFT_PAREN, b')', UNIT),
        b')' => Some((RIGHT_PAREN, 1)),
        b'[' => Some((LEFT_BRACKET, 1)),
        b']' => Some((RIGHT_BRACKET, 1)),
        b'{' => Some((LEFT_BRACE, 1)),
        b'}' => Some((RIGHT_BRACE, 1)),
        b',' => Some((COMMA, 1)),
        b';' => Some((SEMI_COLON, 1)),
        b'_' => Some((UNDERSCORE, 1)),
        b':' => followed(text, COLON, b':', DOUBLE_COLON),
        b'=' => assigned(text, EQUALS, EQUALS_TO, b'>', DOUBLE_ARROW),
        b'+' => followed(text, PLUS, b'=', PLUS_ASSIGN),
        b'-' => followed(text, MINUS, b'=', MINUS_ASSIGN),
        b'/' => followed(text, DIVIDE, b'=', DIVIDE_ASSIGN),
        b'%' => followed(text, MODULO, b'=', MODULO_ASSIGN),
        b'^' => followed(text, XOR, b'=', XOR_ASSIGN),
        b'&' => assigned(text, AMPERSAND, AND_ASSIGN, b'&', AND),
        b'|' => assigned(text, PIPE, OR_ASSIGN, b'|', OR),
        b'*' => stars(text),
        b'<' => less(text),
        b'>' => greater(text),
        b'.' => dots(text),
        b'!' => bang(text),
        b'?' => question(text),
        b'#' => hash(text),
        _ => None,
    }
}
