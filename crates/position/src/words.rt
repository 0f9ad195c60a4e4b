// A place in words: its Display and its Debug of types/position.rs.
ghost use Rattle.std.specs.Prelude.{Some};
ghost use Rattle.position.specs.Words.{display_words, debug_words};

use crate::Position;
use std::fmt;

// "none", "line 3, position 7".
impl fmt::Display for Position {
    ghost output = { λ p. Some (display_words p) };

    fn fmt<W: fmt::Write>(&self, f: &mut fmt::Formatter<W>) -> fmt::Result {
        if self.is_none() {
            write!(f, "none")
        } else {
            write!(f, "line {}, position {}", self.line, self.pos)
        }
    }
}

// "none", "3", "3:7".
impl fmt::Debug for Position {
    ghost debug_output = { λ p. Some (debug_words p) };

    fn fmt<W: fmt::Write>(&self, f: &mut fmt::Formatter<W>) -> fmt::Result {
        if self.is_none() {
            f.write_str("none")
        } else if self.is_beginning_of_line() {
            write!(f, "{}", self.line)
        } else {
            write!(f, "{}:{}", self.line, self.pos)
        }
    }
}
