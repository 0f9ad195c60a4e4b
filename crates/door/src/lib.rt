// The door: what every scan of a text from an offset asks first.
#![tactic(auto)]

pub mod run;

ghost use Rattle.std.specs.Prelude.{◌≡◌};
ghost use Rattle.door.specs.Door.{text_of, door_of};

use lex_error::LexError;

// What a text that is lent refuses: 2 before 1.
pub fn text(text: &[u8]) -> Result<(), LexError>
    ensures { result ≡ text_of text.now }
{
    if 16_777_216 < text.len() {
        return Err(LexError::TextTooLong);
    }
    if utf8::formed::check(text) {
        return Ok(());
    }
    Err(LexError::NotUtf8)
}

// What a text and an offset refuse: 2 before 1 before 3.
pub fn door(text: &[u8], at: usize) -> Result<(), LexError>
    ensures { result ≡ door_of text.now at }
{
    crate::text(text)?;
    if utf8::formed::is_boundary(text, at) {
        return Ok(());
    }
    Err(LexError::BadArgument)
}
