// What is wrong with an input, or with what is lent: the refusals, each by its name and its number.
#![tactic(auto)]

ghost use Rattle.std.specs.Prelude.{◌≡◌};
ghost use Rattle.lex_error.specs.Numbers.{number_of};

// The refusals, named after the Rust's `LexError` where it has the case. Each stands for its number.
#[derive(Clone, Copy, PartialEq, Eq, Debug)]
pub enum LexError {
    NotUtf8 = 1,
    TextTooLong = 2,
    BadArgument = 3,
    UnterminatedString = 4,
    UnexpectedInput = 5,
    MalformedEscapeSequence = 6,
    StringTooLong = 7,
    MalformedIdentifier = 8,
    NoLiteralRoom = 9,
    NoTokenRoom = 10,
    StillOpen = 11,
    NotOneCharacter = 12,
    TooDeep = 13,
    BadBook = 14,
    BadSum = 15,
}

impl LexError {
    // The number that tells it where answers cross as numbers.
    pub fn number(self) -> u8
        ensures { result ≡ number_of self }
    {
        self as u8
    }
}
