// What a case can ask: the name that its line begins with, and the function that answers it.
use crate::line::Case;
use crate::{runs, show};
use book_lookup::Reserved;
use comment::scan::Commented;
use display::Shown;
use identifier::scan::Identified;
use literal::Scanned;
use span::Span;
use std::io;

// The names. A case's numbers are known by the fields that they stand in: in the first line below the terminator is field 1,
// the place 3 and 4, the room 6, the limit 8, the offset 10. Fields at the end may be left out, and are 0.
//
//     string " at 1:1 room 9 limit 3 offset 0 [abc"]       raw # at 1:1 room 9 limit 3 offset 0 ["abc"#]
//     resumed 1 at 1:1 room 9 limit 3 offset 0 [abc"#]     comment 1 at 1:1 offset 0 [*/]
//     identifier at 1:1 offset 0 [a1], <0000>              the text, and the word book
//     advance 1:1    rewind 1:1    newline 1:1    sum 1:1 + 2:3    display 1:1    debug 1:1    span 1:1 to 2:3
//     lookup [let]    syntax 13    precedence 13    base 70    assignment 13
//     doc [///]    valid [_a1]    white 9
//     book <0000>    reserved <0000>, [a]    unchecked <0000>, [a]    find <0000>, <0000>, [a]    the house book first
//     write room 9 [a"#]                                   the raw writer
//     run limit 3 literals 9 numbers 25 [a], <0000>        a script and its book; room for literal bytes, and for the entries' numbers
//     listing [a]    last [a]                              a script's listing, `|` for a line feed; its last line, and how many it has
//
// Each is known by its first four bytes, `stri` to `last`.

// How much room a case gives for what is written into lent memory.
pub(crate) fn room(case: &Case) -> usize {
    match &case.name {
        b"stri" | b"raw " | b"resu" => case.number(6),
        b"writ" => case.number(2),
        _ => 256,
    }
}

// A scan of a string literal.
fn string_literal(case: &Case, out: &mut [u8]) -> Scanned {
    string::parse_string_literal(
        case.last,
        case.number(10),
        case.place(3),
        case.code(1),
        case.number(8),
        out,
    )
}

// A scan of a raw string.
fn raw_literal(case: &Case, out: &mut [u8]) -> Scanned {
    raw::parse_raw_string_literal(
        case.last,
        case.number(10),
        case.place(3),
        case.number(8),
        out,
    )
}

// The scan of a raw string that goes on.
fn resumed_literal(case: &Case, out: &mut [u8]) -> Scanned {
    raw::resume_raw_string_literal(
        case.last,
        case.number(10),
        case.place(3),
        case.number(1),
        case.number(8),
        out,
    )
}

// The form of a place or a span.
fn form(to: &impl Print, what: Shown, out: &mut [u8]) -> io::Result<()> {
    show::written(to, display::write(what, &mut *out), out)
}

// The scan of a comment.
fn block_comment(to: &impl Print, case: &Case) -> io::Result<()> {
    match comment::scan_block_comment(case.last, case.number(6), case.place(3), case.number(1)) {
        Ok(c) => {
            show::labelled(to, "level", c.level)?;
            show::reached(to, c.cursor)
        }
        Err(f) => show::fault(to, f),
    }
}

// The scan of an identifier.
fn identified(to: &impl Print, case: &Case) -> io::Result<()> {
    match identifier::parse_identifier_token(
        case.before,
        case.number(5),
        case.place(2),
        case.last,
    ) {
        Ok(w) => {
            show::kind(to, w.kind)?;
            show::labelled(to, "token", w.token as usize)?;
            show::reached(to, w.cursor)
        }
        Err((f, c)) => {
            show::fault(to, f)?;
            show::reached(to, c)
        }
    }
}

// The number of what a word book is refused with; 0 for nothing.
fn book_check(to: &impl Print, book: &[u8]) -> io::Result<()> {
    match book::check(book) {
        Ok(()) => show::number(to, 0),
        Err(error) => show::number(to, error.number() as usize),
    }
}

// Writes what a book says of a word.
fn reserved(to: &impl Print, r: Option<Reserved>) -> io::Result<()> {
    match r {
        Some(r) => print!(to; " true {} {}", r.a, r.ab),
        None => print!(to; " false false false"),
    }
}

// The answer to what is asked of lent memory, or of all else.
pub(crate) fn answer(to: &impl Print, case: &Case, out: &mut [u8]) -> io::Result<()> {
    match &case.name {
        b"stri" => show::scanned(to, string_literal(case, &mut *out), out),
        b"raw " => show::scanned(to, raw_literal(case, &mut *out), out),
        b"resu" => show::scanned(to, resumed_literal(case, &mut *out), out),
        b"writ" => show::written(to, raw_writer::raw_write(case.last, &mut *out), out),
        b"synt" => show::written(to, syntax::literal_syntax(case.token(1), &mut *out), out),
        b"disp" => form(to, Shown::Display(case.place(1)), out),
        b"debu" => form(to, Shown::Debug(case.place(1)), out),
        b"span" => form(
            to,
            Shown::Span(Span::new(case.place(1), case.place(4))),
            out,
        ),
        _ => of_numbers(to, case),
    }
}

// The answer to what is asked of numbers, or of texts.
fn of_numbers(to: &impl Print, case: &Case) -> io::Result<()> {
    match &case.name {
        b"adva" => show::placed(to, places::moves::advance(case.place(1))),
        b"rewi" => show::placed(to, places::moves::rewind(case.place(1))),
        b"newl" => show::placed(to, places::moves::new_line(case.place(1))),
        b"sum " => show::placed(to, places::sum::sum(case.place(1), case.place(4))),
        b"prec" => show::number(
            to,
            operators::precedence::precedence(case.token(1)) as usize,
        ),
        b"base" => show::token(
            to,
            operators::assignments::get_base_op_from_assignment(case.token(1)),
        ),
        b"assi" => show::token(
            to,
            operators::assignments::convert_to_op_assignment(case.token(1)),
        ),
        b"whit" => show::truth(to, white::is_white(case.code(1))),
        _ => of_texts(to, case),
    }
}

// The answer to what is asked of texts: words, word books and scripts.
fn of_texts(to: &impl Print, case: &Case) -> io::Result<()> {
    let last = case.last;
    match &case.name {
        b"comm" => block_comment(to, case),
        b"iden" => identified(to, case),
        b"look" => show::token(to, keywords::lookup_symbol_from_syntax(last)),
        b"doc " => show::truth(to, comment::doc::is_doc_comment(last)),
        b"vali" => show::truth(to, identifier::valid::is_valid_identifier(last)),
        b"book" => book_check(to, last),
        b"rese" => reserved(to, book_lookup::lookup(case.before, last)),
        b"unch" => reserved(to, book_lookup::lookup_in(case.before, last)),
        b"find" => show::bytes(
            to,
            book_lookup::two_books::find(case.first, case.before, last),
        ),
        b"run " => runs::run(to, case),
        b"list" => runs::listing(to, last),
        b"last" => runs::last(to, last),
        _ => show::word(to, "unknown"),
    }
}
