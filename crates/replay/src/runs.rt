// What is asked of whole scripts: a run, within a limit and rooms, and the listing.
use crate::line::Case;
use crate::show;
use entry::Entry;
use reading::Ending;
use std::io;

// What lent memory holds before a run, to see that no more is written than is told.
const BYTE: u8 = 255;

const NUMBER: u32 = 4294967295;

// The numbers of an entry, a comma behind the last one.
fn entry(to: &impl Print, numbers: &[u32]) -> io::Result<()> {
    for n in numbers {
        print!(to; " {n}")?;
    }
    show::byte(to, b',')
}

// The numbers of the entries that are listed.
fn entries(to: &impl Print, numbers: &[u32], listed: usize) -> io::Result<()> {
    for numbers in numbers.chunks_exact(Entry::NUMBERS).take(listed) {
        entry(to, numbers)?;
    }
    Ok(())
}

// How a run ended: a stop with its place and the part of the script that it is about.
fn ending(to: &impl Print, e: Ending) -> io::Result<()> {
    match e {
        Ok(p) => {
            show::word(to, "end")?;
            show::place(to, p)
        }
        Err(f) => {
            show::labelled(to, "stop", f.error.number() as usize)?;
            show::place(to, f.place)?;
            show::part(to, f)
        }
    }
}

// Whether what was lent is as it was behind what is used of it.
fn is_kept<T: Copy + PartialEq>(lent: &[T], used: usize, blank: T) -> bool {
    lent.iter().skip(used).all(|x| *x == blank)
}

// The entries, the ending, the literal bytes, and whether all else that was lent is as it was.
fn within(
    to: &impl Print,
    case: &Case,
    literals: &mut [u8],
    numbers: &mut [u32],
) -> io::Result<()> {
    let ran = run::run(
        case.before,
        case.last,
        case.number(2),
        &mut *literals,
        &mut *numbers,
    );
    let numbers_used = ran.listed.saturating_mul(Entry::NUMBERS);
    entries(to, numbers, ran.listed)?;
    ending(to, ran.ending)?;
    show::word(to, "literals")?;
    show::bytes(to, literals.get(..ran.used).unwrap_or_default())?;
    show::word(to, "kept")?;
    show::truth(
        to,
        is_kept(literals, ran.used, BYTE) && is_kept(numbers, numbers_used, NUMBER),
    )
}

// A run of a script and its book in the rooms that the case gives.
pub(crate) fn run(to: &impl Print, case: &Case) -> io::Result<()> {
    let mut literals = [BYTE; 256];
    let mut numbers = [NUMBER; 500];
    let room = case.number(4).min(literals.len());
    let count = case.number(6).min(numbers.len());
    within(to, case, &mut literals[..room], &mut numbers[..count])
}

// A text with `|` for each line feed.
fn lines(to: &impl Print, text: &[u8]) -> io::Result<()> {
    show::byte(to, b' ')?;
    for b in text {
        show::byte(to, if *b == b'\n' { b'|' } else { *b })?;
    }
    Ok(())
}

// The listing of a script, in memory that is lent to it.
fn listed<'a>(script: &[u8], out: &'a mut [u8]) -> &'a [u8] {
    let n = listed::list(script, out);
    &out[..n]
}

// The listing of a script.
pub(crate) fn listing(to: &impl Print, script: &[u8]) -> io::Result<()> {
    let mut out = [0u8; 180000];
    lines(to, listed(script, &mut out))
}

// Its last line, and how many lines it has.
pub(crate) fn last(to: &impl Print, script: &[u8]) -> io::Result<()> {
    let mut out = [0u8; 180000];
    let text = listed(script, &mut out);
    let count = text.iter().filter(|b| **b == b'\n').count();
    show::labelled(to, "lines", count)?;
    let last = text.split_inclusive(|b| *b == b'\n').last();
    lines(to, last.unwrap_or_default())
}
