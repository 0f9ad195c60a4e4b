// What begins at a place of a script: document 01, "Run".
#![tactic(auto)]

ghost use Rattle.std.specs.Prelude.{◌≡◌, true, ◌+◌, ◌≤◌, ◌<◌, length};
ghost use Rattle.book.specs.Book.{good};
ghost use Rattle.utf8.specs.Table.{look_at};
ghost use Rattle.white.specs.White.{is_white};
ghost use Rattle.symbols.specs.Symbols.{longest_symbol_of};
ghost use Rattle.identifier.specs.Identifiers.{identify_of};
ghost use Rattle.find.specs.Find.{
  white_of,
  word_of,
  symbol_of,
  block_comment,
  code_of,
  slash_sign,
  hash_sign,
  sign_at,
  mark_of,
  begins_word,
  find_of,
};
ghost use Rattle.find.specs.Skip.{skip_of};

use chars::cursor::Cursor;
use chars::stretch::Stretch;
use classes::marks;
use comment::scan::Comment;
use entry::kinds::Kind;
use fault::{Fault, Part};
use lex_error::LexError;
use token::tokens;

// What opens a literal: its kind, and the terminator that closes it; a raw literal's is `#`.
#[derive(Clone, Copy)]
pub struct Opener {
    pub kind: Kind,
    pub terminator: u32,
}

impl Opener {
    pub const STRING: Self = Self {
        kind: Kind::String,
        terminator: marks::QUOTE,
    };

    pub const CHAR: Self = Self {
        kind: Kind::Char,
        terminator: marks::APOSTROPHE,
    };

    pub const TEXT: Self = Self {
        kind: Kind::Text,
        terminator: marks::BACKTICK,
    };

    pub const RAW: Self = Self {
        kind: Kind::Raw,
        terminator: marks::HASH,
    };
}

// The cursor comes first in each, at one offset: the compiler then keeps it in registers.
#[derive(Clone, Copy)]
pub enum Found {
    // White space, up to a cursor.
    White(Cursor),
    // A token that is a part of the script: the cursor behind it, its kind, and the Rust's token.
    Part(Cursor, Kind, u8),
    // A literal: the cursor behind what opens it, whose place is the literal's start, and what opens it.
    Literal(Cursor, Opener),
    // Nothing that a script may have.
    Wrong(Fault),
    // The script's end.
    End,
}

// What a mark is the sign of. A mark is a character that is not white, no letter, no `_` and no digit.
#[derive(Clone, Copy)]
enum Sign {
    // A literal, by what opens it.
    Literal(Opener),
    // A comment up to the end of its line.
    Line,
    // A block comment.
    Block,
    // A symbol, or nothing that a script may have.
    Symbol,
}

// The longest listed symbol, whose first character is at a cursor; or 5, about a character so many bytes wide.
fn symbol(text: &[u8], start: Cursor, width: usize) -> Found
    requires { start.at ≤ length text.now }
    ensures { result ≡ symbol_of start.at width start.place (longest_symbol_of text.now start.at) }
{
    let Cursor { at, place } = start;
    let Some((token, n)) = symbols::longest_of(&text[at..]) else {
        let part = Part { at, len: width };
        return Found::Wrong(Fault::about(LexError::UnexpectedInput, place, part));
    };
    let end = Cursor {
        at: at + n,
        place: place.advanced_by(n - 1),
    };
    Found::Part(end, Kind::Symbol, token)
}

// A block comment, from behind its `/*`; 11 at the cursor where a level is still open at the end.
#[tactic(auto, unfolding(crate::specs::Find::block_comment))]
fn block(text: &[u8], from: Cursor) -> Found
    requires { from.at ≤ length text.now }
    ensures { result ≡ block_comment text.now from }
{
    let Comment { level, cursor } = comment::scan::scan(text, from, 1);
    if level == 0 {
        Found::Part(cursor, Kind::Comment, tokens::COMMENT)
    } else {
        Found::Wrong(Fault::at(LexError::StillOpen, cursor.place))
    }
}

// The code point at an offset; None at the end.
fn code_at(text: &[u8], at: usize) -> Option<u32>
    ensures { result ≡ code_of (look_at text.now at) }
{
    let (c, _) = utf8::look_at(text, at)?;
    Some(c)
}

// What `/` is the sign of, by the character behind it.
#[tactic(auto, unfolding(crate::specs::Find::slash_sign))]
fn slash(behind: Option<u32>) -> Sign
    ensures { result ≡ slash_sign behind }
{
    match behind {
        Some(marks::SLASH) => Sign::Line,
        Some(marks::STAR) => Sign::Block,
        _ => Sign::Symbol,
    }
}

// What `#` is the sign of, by the character behind it.
#[tactic(auto, unfolding(crate::specs::Find::hash_sign))]
fn hash(behind: Option<u32>) -> Sign
    ensures { result ≡ hash_sign behind }
{
    match behind {
        Some(marks::LEFT_BRACE) => Sign::Symbol,
        _ => Sign::Literal(Opener::RAW),
    }
}

// What a mark at an offset is the sign of.
#[tactic(auto, unfolding(crate::specs::Find::sign_at))]
fn sign_at(text: &[u8], at: usize, c: u32) -> Sign
    requires { at ≤ length text.now }
    ensures { result ≡ sign_at text.now at c }
{
    match c {
        marks::QUOTE => Sign::Literal(Opener::STRING),
        marks::APOSTROPHE => Sign::Literal(Opener::CHAR),
        marks::BACKTICK => Sign::Literal(Opener::TEXT),
        marks::HASH => hash(code_at(text, at + 1)),
        marks::SLASH => slash(code_at(text, at + 1)),
        _ => Sign::Symbol,
    }
}

// What a mark begins. `symbol` is called from this one place, so that the compiler draws it in.
fn mark(text: &[u8], start: Cursor, c: u32, width: usize) -> Found
    requires { start.at + width ≤ length text.now }
    ensures { result ≡ mark_of text.now start.at start.place c width }
{
    let Cursor { at, place } = start;
    match sign_at(text, at, c) {
        Sign::Literal(opener) => Found::Literal(
            Cursor {
                at: at + width,
                place,
            },
            opener,
        ),
        Sign::Line => Found::Part(
            chars::stretch::end_of(
                Stretch::Line,
                text,
                Cursor {
                    at: at + 2,
                    place: place.advanced(),
                },
            ),
            Kind::Comment,
            tokens::COMMENT,
        ),
        Sign::Block => block(
            text,
            Cursor {
                at: at + 2,
                place: place.advanced(),
            },
        ),
        Sign::Symbol => symbol(text, start, width),
    }
}

// A name, a keyword, a reserved word, the symbol `_`; or 8.
#[tactic(auto, unfolding(crate::specs::Find::word_of))]
fn word(book: &[u8], text: &[u8], start: Cursor) -> Found
    requires { good book.now ≡ true }
    ensures { result ≡ word_of (identify_of text.now book.now start) }
{
    match identifier::scan::identify(book, text, start) {
        Ok(word) => Found::Part(word.cursor, word.kind, word.token),
        Err((fault, _)) => Found::Wrong(fault),
    }
}

// A letter or `_`. It is one test, so that `word` is called from one place and drawn in as well.
#[tactic(auto, unfolding(crate::specs::Find::begins_word))]
fn begins_word(c: u32) -> bool
    ensures { result ≡ begins_word c }
{
    classes::is_id_first_alphabetic(c) || c == marks::UNDERSCORE
}

// Past a character that is white: only LF starts a line.
#[tactic(auto, unfolding(crate::specs::Find::white_of))]
fn white(c: u32, next: Cursor) -> Found
    ensures { result ≡ white_of c next }
{
    if c == marks::LF {
        let place = next.place.lined();
        Found::White(Cursor { place, ..next })
    } else {
        Found::White(next)
    }
}

// Behind the ASCII white space that follows a cursor; only LF starts a line. The offset and the place are two variables: the
// compiler keeps them in registers, and one cursor it does not.
pub fn skip(text: &[u8], from: Cursor) -> Cursor
    ensures { result ≡ skip_of is_white text.now from }
{
    let mut at = from.at;
    let mut place = from.place;
    while let Some((c, width)) = utf8::look_at(text, at) {
        if 0x80 <= c || !white::is_white(c) {
            break;
        }
        at += width;
        place = place.advanced();
        if c == marks::LF {
            place = place.lined();
        }
    }
    Cursor { at, place }
}

// What begins behind a cursor, for a run, which has checked its text and its book. Letters come first, since most tokens
// begin with one; none is white.
pub fn find(book: &[u8], text: &[u8], from: Cursor) -> Found
    requires { good book.now ≡ true }
    ensures { result ≡ find_of is_white text.now book.now from }
{
    let Some((c, width)) = utf8::look_at(text, from.at) else {
        return Found::End;
    };
    let place = from.place.advanced();
    let start = Cursor { place, ..from };
    let next = Cursor {
        at: from.at + width,
        place,
    };
    if begins_word(c) {
        word(book, text, start)
    } else if classes::is_numeric_digit(c) {
        let end = chars::stretch::end_of(Stretch::Word, text, next);
        Found::Part(end, Kind::Number, tokens::INTEGER_CONSTANT)
    } else if white::is_white(c) {
        white(c, next)
    } else {
        mark(text, start, c, width)
    }
}
