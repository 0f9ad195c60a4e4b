// Spans between two places: the type Span of types/position.rs.
#![tactic(auto, unfolding(crate::specs::Spans::new_span, crate::specs::Spans::is_no_span, crate::specs::Spans::span_start, crate::specs::Spans::span_end, position::specs::Place::is_none))]

ghost use Rattle.std.specs.Prelude.{◌≡◌};
ghost use Rattle.span.specs.Spans.{new_span, is_no_span, span_start, span_end};

use position::Position;

mod words;

#[derive(Eq, PartialEq, Ord, PartialOrd, Hash, Clone, Copy)]
pub struct Span {
    start: Position,
    end: Position,
}

impl Span {
    pub const NONE: Self = Self {
        start: Position::NONE,
        end: Position::NONE,
    };

    pub fn new(start: Position, end: Position) -> Self
        ensures { result ≡ new_span start end }
    {
        Self { start, end }
    }

    pub fn is_none(self) -> bool
        ensures { result ≡ is_no_span self }
    {
        self == Self::NONE
    }

    pub fn start(self) -> Position
        ensures { result ≡ span_start self }
    {
        self.start
    }

    pub fn end(self) -> Position
        ensures { result ≡ span_end self }
    {
        self.end
    }
}
