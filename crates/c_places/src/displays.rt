// C name of the words of places and spans: they go into the lent bytes, and their length comes out.
ghost use Rattle.std.specs.Prelude.{◌≡◌};
ghost use Rattle.lent.specs.Written.{written_of, left_of};
ghost use Rattle.c_answer.specs.Packed.{written_as_number};
ghost use Rattle.c_places.specs.Forms.{form_of, words_of};

use display::Shown;
use position::Position;
use span::Span;

// Display of the first place, Debug of it, or Display of the span between the two.
fn form_of(form: u8, p: Position, q: Position) -> Shown
    ensures { result ≡ form_of form p q }
{
    match form {
        0 => Shown::Display(p),
        1 => Shown::Debug(p),
        _ => Shown::Span(Span::new(p, q)),
    }
}

// The length, or 9 times 2^32 where the text has no room. The form: 0 for Display, 1 for Debug, any other for Display of the span.
#[unsafe(no_mangle)]
pub extern "C" fn stew_display(
    form: u8,
    line: u16,
    column: u16,
    line2: u16,
    column2: u16,
    out: &mut [u8],
) -> u64
    ensures value { result ≡ written_as_number (written_of (words_of form line column line2 column2) out.old) }
    ensures out_after { out.new ≡ left_of (words_of form line column line2 column2) out.old }
{
    let p = Position::given(line, column);
    let q = Position::given(line2, column2);
    c_answer::written_as_number(display::write(form_of(form, p, q), out))
}
