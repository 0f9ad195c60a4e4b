// The cursor: an offset and a place by value, over a text that is lent at each call. Whoever looks
// ahead takes from a copy, so there is nothing to unget. The next character is `utf8::look_at` at its offset.
ghost use Rattle.std.specs.Prelude.{◌≡◌};
ghost use Rattle.chars.specs.Cursors.{get_next_of, eat_next_of};

use position::Position;

#[derive(Clone, Copy)]
pub struct Cursor {
    pub at: usize,
    pub place: Position,
}

// A character that was taken, with the cursor behind it.
pub type Taken = Option<(u32, Cursor)>;

impl Cursor {
    // Takes the next character. The place stays.
    pub fn get_next(self, text: &[u8]) -> Taken
        ensures { result ≡ get_next_of text.now self }
    {
        let Cursor { at, place } = self;
        let (c, w) = utf8::look_at(text, at)?;
        Some((c, Cursor { at: at + w, place }))
    }

    // Takes the next character, and one column.
    pub fn eat_next_and_advance(self, text: &[u8]) -> Taken
        ensures { result ≡ eat_next_of text.now self }
    {
        let at = self.at;
        let place = self.place.advanced();
        Cursor { at, place }.get_next(text)
    }
}
