// Texts compared by their bytes.
ghost use Rattle.std.specs.Prelude.{◌≡◌};
ghost use Rattle.book.specs.Order.{compared};

use std::cmp::Ordering;

// Compares two texts.
pub fn compare(v: &[u8], w: &[u8]) -> Ordering
    ensures { result ≡ compared v.now w.now }
{
    v.cmp(&w)
}
