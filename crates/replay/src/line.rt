// A case as a line of text, read byte by byte. A space, a colon or the line feed ends a field: a word, which is for the reader
// but for the first, or a number. Numbers are decimal; a quote, an apostrophe, a backtick, `#` and `$` are numbers too, their code points.
// A text is made of pieces: `[..]` holds bytes as they are, `<..>` holds them in hex, and `3*` before a piece repeats each of
// its bytes. A comma ends a text.
ghost use Rattle.std.specs.Prelude.{◌<◌};

use position::Position;
use std::mem;

// What a line asks.
#[derive(Clone, Copy)]
pub struct Case<'a> {
    // The first four bytes of the line.
    pub name: [u8; 4],
    fields: [usize; 12],
    // The last text, the one before it, and the bytes before these.
    pub last: &'a [u8],
    pub before: &'a [u8],
    pub first: &'a [u8],
}

impl<'a> Case<'a> {
    // The number in a field; 0 where there is none.
    pub(crate) fn number(&self, i: usize) -> usize {
        self.fields.get(i).copied().unwrap_or(0)
    }

    // A number as a code point.
    pub(crate) fn code(&self, i: usize) -> u32 {
        self.number(i).min(0x110000) as u32
    }

    // A number as a token.
    pub(crate) fn token(&self, i: usize) -> u8 {
        self.number(i).min(255) as u8
    }

    // A number as a line or a column.
    fn coordinate(&self, i: usize) -> u16 {
        self.number(i).min(65535) as u16
    }

    // Two numbers as a place: line and column.
    pub(crate) fn place(&self, i: usize) -> Position
        requires { i < 12 }
    {
        Position::given(self.coordinate(i), self.coordinate(i + 1))
    }
}

// How the bytes of a piece are written.
#[derive(Clone, Copy)]
enum Piece {
    Plain,
    Hex,
}

// What was read of a line.
#[derive(Drop)]
pub(crate) struct Line {
    // The first four bytes; of a line that has fewer, zeros before them.
    name: [u8; 4],
    // The fields that were read, a word being 0, how many they are, and the number that is read.
    fields: [usize; 12],
    count: usize,
    number: usize,
    // Where the last three texts end among the bytes of all texts.
    ends: [usize; 3],
    // The piece that is read, and how often each of its bytes stands.
    piece: Option<Piece>,
    times: usize,
    // The upper half of a byte in hex, where it was read.
    upper: Option<u8>,
}

// What a digit tells of a byte in hex.
fn hex_digit(b: u8) -> Option<u8> {
    match b {
        b'0'..=b'9' => Some(b - b'0'),
        b'a'..=b'f' => Some(b - b'a' + 10),
        b'A'..=b'F' => Some(b - b'A' + 10),
        _ => None,
    }
}

// The bytes between two ends; none where these are not in order or not within them.
fn between(bytes: &[u8], from: usize, to: usize) -> &[u8] {
    bytes.get(from..to).unwrap_or_default()
}

impl Line {
    // A line of which nothing was read.
    pub const NEW: Line = Line {
        name: [0; 4],
        fields: [0; 12],
        count: 0,
        number: 0,
        ends: [0; 3],
        piece: None,
        times: 1,
        upper: None,
    };

    // What the line asks: nothing where it has fewer than four bytes, or begins with `#` or a byte below it.
    pub(crate) fn case<'a>(&self, texts: &'a [u8]) -> Option<Case<'a>> {
        if self.name[0] <= b'#' {
            return None;
        }
        let [first, before, last] = self.ends;
        Some(Case {
            name: self.name,
            fields: self.fields,
            last: between(texts, before, last),
            before: between(texts, first, before),
            first: between(texts, 0, first),
        })
    }

    // Takes the next byte of the line. What a text has of it goes to the bytes of all texts.
    pub(crate) fn take(&mut self, b: u8, texts: &mut [u8]) {
        let [none, first, second, third] = self.name;
        if none == 0 {
            self.name = [first, second, third, b];
        }
        match self.piece {
            None => self.mark(b),
            Some(Piece::Plain) => self.plain(b, texts),
            Some(Piece::Hex) => self.hex(b, texts),
        }
    }

    // A byte outside of pieces.
    fn mark(&mut self, b: u8) {
        match b {
            b'0'..=b'9' => self.digit(b - b'0'),
            b' ' | b':' | b'\n' => self.end_field(),
            b'"' | b'\'' | b'`' | b'#' | b'$' => self.number = b as usize,
            b'*' => self.times = mem::take(&mut self.number),
            b',' => self.ends = [self.ends[1], self.ends[2], self.ends[2]],
            b'[' => self.piece = Some(Piece::Plain),
            b'<' => self.piece = Some(Piece::Hex),
            _ => {}
        }
    }

    // One digit more of the number that is read; of very long ones the front is enough.
    fn digit(&mut self, d: u8) {
        if self.number < 1_000_000_000_000 {
            self.number = self.number * 10 + d as usize;
        }
    }

    // The number that was read is a field, where there is room for it.
    fn end_field(&mut self) {
        let n = mem::take(&mut self.number);
        if self.count < self.fields.len() {
            self.fields[self.count] = n;
            self.count += 1;
        }
    }

    // A byte within a piece as it is.
    fn plain(&mut self, b: u8, texts: &mut [u8]) {
        if b == b']' {
            return self.end_piece();
        }
        self.put(b, texts);
    }

    // A byte within a piece in hex. What is no digit is passed over.
    fn hex(&mut self, b: u8, texts: &mut [u8]) {
        if b == b'>' {
            return self.end_piece();
        }
        let Some(digit) = hex_digit(b) else {
            return;
        };
        match self.upper.take() {
            None => self.upper = Some(digit << 4),
            Some(upper) => self.put(upper | digit, texts),
        }
    }

    // A piece ends where its bracket closes.
    fn end_piece(&mut self) {
        self.piece = None;
        self.times = 1;
    }

    // One byte of a text, as often as it stands; none where that has no room.
    fn put(&mut self, b: u8, texts: &mut [u8]) {
        self.ends[2] = lent::fill(b, self.times, texts, self.ends[2]);
    }
}
