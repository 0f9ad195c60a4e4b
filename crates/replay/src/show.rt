// How answers are written: each part with a space before it.
use chars::cursor::Cursor;
use entry::kinds::Kind;
use fault::Fault;
use lent::Written;
use lex_error::LexError;
use literal::{Scanned, Terminator};
use places::coordinates::Placed;
use position::Position;
use std::io;

// One byte as it is.
pub(crate) fn byte(to: &impl Print, b: u8) -> io::Result<()> {
    to.write_all(&[b])
}

// A word.
pub(crate) fn word(to: &impl Print, word: &str) -> io::Result<()> {
    print!(to; " {word}")
}

// A number.
pub(crate) fn number(to: &impl Print, n: usize) -> io::Result<()> {
    print!(to; " {n}")
}

// A number with a word before it.
pub(crate) fn labelled(to: &impl Print, label: &str, n: usize) -> io::Result<()> {
    print!(to; " {label} {n}")
}

// A truth value.
pub(crate) fn truth(to: &impl Print, b: bool) -> io::Result<()> {
    print!(to; " {b}")
}

// Bytes in hex, `-` for none.
pub(crate) fn bytes(to: &impl Print, bytes: &[u8]) -> io::Result<()> {
    if bytes.is_empty() {
        return word(to, "-");
    }
    print!(to; " ")?;
    for b in bytes {
        print!(to; "{b:02x}")?;
    }
    Ok(())
}

// A place as line and column, NONE being 0:0.
pub(crate) fn place(to: &impl Print, p: Position) -> io::Result<()> {
    print!(to; " {}:{}", p.line_number(), p.column_number())
}

// Where a scan stopped.
pub(crate) fn reached(to: &impl Print, c: Cursor) -> io::Result<()> {
    labelled(to, "ends", c.at)?;
    place(to, c.place)
}

// What is on record: how often which character, `-` for nothing.
fn record(to: &impl Print, t: Terminator) -> io::Result<()> {
    word(to, "record")?;
    if t.times == 0 {
        return word(to, "-");
    }
    number(to, t.times)?;
    if t.c < 128 {
        byte(to, t.c as u8)?;
    }
    Ok(())
}

// A refusal, by its number.
fn refused(to: &impl Print, error: LexError) -> io::Result<()> {
    print!(to; " refused {}", error.number())
}

// A fault: its number, the place reported, and the part of the script, offset and length.
pub(crate) fn fault(to: &impl Print, f: Fault) -> io::Result<()> {
    refused(to, f.error)?;
    word(to, "at")?;
    place(to, f.place)?;
    part(to, f)
}

// The part of the script that a fault is about, offset and length.
pub(crate) fn part(to: &impl Print, f: Fault) -> io::Result<()> {
    print!(to; " part {} {}", f.part.at, f.part.len)
}

// The kind of an identifier.
pub(crate) fn kind(to: &impl Print, kind: Kind) -> io::Result<()> {
    let name = match kind {
        Kind::Name => "name",
        Kind::Keyword => "keyword",
        Kind::Symbol => "symbol",
        Kind::Reserved => "reserved",
        _ => "unknown",
    };
    word(to, name)
}

// A literal's scan, with what was lent to it.
pub(crate) fn scanned(to: &impl Print, s: Scanned, out: &[u8]) -> io::Result<()> {
    match s {
        Ok((e, n)) => {
            word(to, "ok")?;
            bytes(to, out.get(..n).unwrap_or_default())?;
            reached(to, e.cursor)?;
            word(to, "first")?;
            place(to, e.first)?;
            record(to, e.on_record)?;
            if e.interpolated {
                word(to, "interpolated")?;
            }
            Ok(())
        }
        Err(r) => {
            fault(to, r.fault)?;
            reached(to, r.cursor)?;
            record(to, r.on_record)
        }
    }
}

// A place, or why there is none.
pub(crate) fn placed(to: &impl Print, p: Placed) -> io::Result<()> {
    match p {
        Ok(p) => place(to, p),
        Err(error) => refused(to, error),
    }
}

// A text that was written into what was lent.
pub(crate) fn written(to: &impl Print, w: Written, out: &[u8]) -> io::Result<()> {
    match w {
        Ok(n) => {
            print!(to; " [")?;
            to.write_all(out.get(..n).unwrap_or_default())?;
            print!(to; "]")
        }
        Err(error) => refused(to, error),
    }
}

// A token, where there is one.
pub(crate) fn token(to: &impl Print, t: Option<u8>) -> io::Result<()> {
    match t {
        Some(n) => labelled(to, "token", n as usize),
        None => word(to, "none"),
    }
}
