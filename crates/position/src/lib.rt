// Places in a script, a line and a column of at most 65,535 each: the type Position of types/position.rs, and its moves for the scanners.
#![tactic(auto, using(crate::proofs::Moves::advanced_by_numbers), unfolding(crate::specs::Place::given, crate::specs::Place::line_number, crate::specs::Place::column_number, crate::specs::Place::is_none, crate::specs::Place::on_line, crate::specs::Place::begins_line, crate::specs::Place::or_else, crate::specs::Place::up, crate::specs::Place::advanced, crate::specs::Place::lined, crate::specs::Place::rewound))]

ghost use Rattle.std.specs.Prelude.{◌≡◌};
ghost use Rattle.position.specs.Place.{
  given,
  line_number,
  column_number,
  is_none,
  on_line,
  begins_line,
  or_else,
  advanced,
  advanced_by,
  lined,
  rewound,
};

mod words;

#[derive(Eq, PartialEq, Ord, PartialOrd, Hash, Clone, Copy)]
pub struct Position {
    // 0 is no line.
    line: u16,
    // 0 is the beginning of a line.
    pos: u16,
}

impl Position {
    pub const NONE: Self = Self { line: 0, pos: 0 };

    pub const START: Self = Self { line: 1, pos: 0 };

    // Two numbers from outside, line 0 too: whatever takes a place refuses that line itself.
    pub fn given(line: u16, position: u16) -> Self
        ensures { result ≡ given line position }
    {
        Self {
            line,
            pos: position,
        }
    }

    // The two numbers out again, 0 where the place has none.
    pub fn line_number(self) -> u16
        ensures { result ≡ line_number self }
    {
        self.line
    }

    pub fn column_number(self) -> u16
        ensures { result ≡ column_number self }
    {
        self.pos
    }

    pub fn is_beginning_of_line(self) -> bool
        ensures { result ≡ begins_line self }
    {
        !self.is_none() && self.pos == 0
    }

    pub fn is_none(self) -> bool
        ensures { result ≡ is_none self }
    {
        self == Self::NONE
    }

    // Whether the place is on a line at all: a scan from one that is not is refused.
    pub fn is_on_line(self) -> bool
        ensures { result ≡ on_line self }
    {
        0 < self.line
    }

    // It returns twice: of one choice between the two the compiler makes one number, which every move then takes apart.
    pub fn or_else(self, pos: Position) -> Self
        ensures { result ≡ or_else self pos }
    {
        if self.is_none() {
            return pos;
        }
        self
    }

    // The moves with no refusal, for a scan whose start was found good: a number at its end stays there.
    pub fn advanced(self) -> Self
        ensures { result ≡ advanced self }
    {
        Self {
            pos: self.pos.saturating_add(1),
            ..self
        }
    }

    // The same for n columns at once.
    pub fn advanced_by(self, n: usize) -> Self
        ensures { result ≡ advanced_by n self }
    {
        Self {
            pos: self.pos.saturating_add(n.min(65535) as u16),
            ..self
        }
    }

    pub fn lined(self) -> Self
        ensures { result ≡ lined self }
    {
        Self {
            line: self.line.saturating_add(1),
            pos: 0,
        }
    }

    pub fn rewound(self) -> Self
        ensures { result ≡ rewound self }
    {
        Self {
            pos: self.pos.saturating_sub(1),
            ..self
        }
    }
}
