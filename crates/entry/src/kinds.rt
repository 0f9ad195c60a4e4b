// The kinds of tokens.
ghost use Rattle.std.specs.Prelude.{◌≡◌};
ghost use Rattle.entry.specs.Kinds.{kind_number};

// What a token is. Each stands for its number.
#[derive(Clone, Copy, PartialEq, Eq, Debug)]
pub enum Kind {
    Name = 1,
    // A keyword of letters.
    Keyword = 2,
    Symbol = 3,
    Number = 4,
    String = 5,
    // A piece of text that `${` ends.
    Interpolated = 6,
    // A piece of text that its backtick ends.
    Text = 7,
    Raw = 8,
    Char = 9,
    Comment = 10,
    Reserved = 11,
}

impl Kind {
    // The number that an entry has for it.
    pub fn number(self) -> u8
        ensures { result ≡ kind_number self }
    {
        self as u8
    }
}
