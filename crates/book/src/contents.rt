// The contents of a word book: how many words it has, each word's row, and its own part (document 01, Word book).
ghost use Rattle.std.specs.Prelude.{◌≡◌, ◌+◌, ◌<◌, ◌≤◌, length, IfSome};
ghost use Rattle.std.specs.Option.{option_map};
ghost use Rattle.book.specs.Contents.{u16_at, word_count, bodies, start_at, word_at, rows_of, row_of};

// A word's row: where its body starts in the book, how long the body is, and the flags.
#[derive(Clone, Copy)]
pub struct Row {
    pub start: usize,
    pub size: usize,
    pub flags: u8,
}

// A book that has bytes for its count and for each word's row, and the count.
#[derive(Clone, Copy)]
pub struct Contents<'a> {
    pub book: &'a [u8],
    pub words: usize,
    ghost counted: { words ≡ word_count book.now },
    ghost words_bound: { words < 65536 },
    ghost rows_within: { bodies book.now ≤ length book.now },
}

// The u16 at an index, little endian.
fn u16_at(book: &[u8], i: usize) -> usize
    requires { i + 1 < length book.now }
    ensures value { result ≡ u16_at book.now i }
    ensures upper_bound { result < 65536 }
{
    usize::from(u16::from_le_bytes([book[i], book[i + 1]]))
}

impl<'a> Contents<'a> {
    // The contents, or that the book is too short for them.
    pub fn of(book: &'a [u8]) -> Option<Self>
        ensures count { option_map (λ c. c.words) result ≡ rows_of book.now }
        ensures book { IfSome result (λ c. c.book ≡ book.entry) }
    {
        if book.len() < 2 {
            return None;
        }
        let words = u16_at(book, 0);
        if book.len() < 2 + 4 * words {
            return None;
        }
        Some(Contents { book, words })
    }

    // Word k's row.
    pub fn row(self, k: usize) -> Row
        requires { k < self.words }
        ensures value { result ≡ row_of self.entry.book.now k }
        ensures start_bound { (result.start < 524288) × (result.size < 256) }
    {
        let row = 2 + 4 * k;
        let offset = u16_at(self.book, row);
        let size = self.book[row + 2] as usize;
        let flags = self.book[row + 3];
        Row {
            start: 2 + 4 * self.words + offset,
            size,
            flags,
        }
    }

    // Word k's own part of the book. In a bad book a body may run past the end, and is cut there.
    pub fn text(self, k: usize) -> &'a [u8]
        requires { k < self.words }
        ensures result_value { result.now ≡ (word_at self.entry.book.now k).text }
        ensures ref_ptr_value { start_at self.entry.book.now k ≤ length self.entry.book.now → result.ref_ptr ≡ (self.entry.book.ref_ptr.0, self.entry.book.ref_ptr.1 + start_at self.entry.book.now k) }
    {
        let Row { start, size, .. } = self.row(k);
        let end = self.book.len().min(start + size);
        &self.book[start.min(end)..end]
    }
}
