// A span in words: its Display of types/position.rs, which is its Debug too.
ghost use Rattle.std.specs.Prelude.{Some};
ghost use Rattle.span.specs.Words.{span_words};

use crate::Span;
use std::fmt;

// "none", "2:3", "..2:3", "1:9-3:7", "1:9-15".
impl fmt::Display for Span {
    ghost output = { λ s. Some (span_words s) };

    fn fmt<W: fmt::Write>(&self, f: &mut fmt::Formatter<W>) -> fmt::Result {
        let start = self.start();
        let end = self.end();
        if end.is_none() {
            write!(f, "{start:?}")
        } else if start.is_none() {
            write!(f, "..{end:?}")
        } else if start.line_number() == end.line_number() {
            write!(
                f,
                "{}:{}-{}",
                start.line_number(),
                start.column_number(),
                end.column_number()
            )
        } else {
            write!(f, "{start:?}-{end:?}")
        }
    }
}

impl fmt::Debug for Span {
    ghost debug_output = { λ s. Some (span_words s) };

    fn fmt<W: fmt::Write>(&self, f: &mut fmt::Formatter<W>) -> fmt::Result {
        fmt::Display::fmt(self, f)
    }
}
