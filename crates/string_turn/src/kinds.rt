// What the three terminators of a string literal differ in.
ghost use Rattle.std.specs.Prelude.{◌≡◌};
ghost use Rattle.string_turn.specs.Kinds.{is_verbatim, is_continued, is_interpolated};

use classes::marks::{BACKTICK, QUOTE};

// Text keeps its line feeds, and has no escapes.
#[tactic(auto, unfolding(crate::specs::Kinds::is_verbatim))]
pub(crate) fn is_verbatim(q: u32) -> bool
    ensures { result ≡ is_verbatim q }
{
    q == BACKTICK
}

// An ordinary literal goes on behind a backslash at the end of a line.
#[tactic(auto, unfolding(crate::specs::Kinds::is_continued))]
pub(crate) fn is_continued(q: u32) -> bool
    ensures { result ≡ is_continued q }
{
    q == QUOTE
}

// A piece of text ends at `${`.
#[tactic(auto, unfolding(crate::specs::Kinds::is_interpolated))]
pub(crate) fn is_interpolated(q: u32) -> bool
    ensures { result ≡ is_interpolated q }
{
    q == BACKTICK
}
