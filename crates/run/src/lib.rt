// The run over a script: document 01, "Run". It lists the tokens in their order, within a limit and what is lent.
#![tactic(auto)]

pub mod bytes;
mod layout;
mod tokens;

ghost use Rattle.std.specs.Prelude.{◌≡◌, Err};
ghost use Rattle.position.specs.Place.{start};
ghost use Rattle.fault.specs.Faults.{fault};
ghost use Rattle.entry.specs.Entries.{numbers_of};
ghost use Rattle.reading.specs.Reading.{nothing_more};
ghost use Rattle.run.specs.Run.{ran_of, called, run_call};

use crate::layout::Part;
use fault::Fault;
use lex_error::LexError;
use position::Position;
use reading::Ending;

// How a run ended, how many entries it listed, and how many literal bytes it used.
#[derive(Clone, Copy)]
pub struct Ran {
    pub ending: Ending,
    pub listed: usize,
    pub used: usize,
}

// What is refused at the door is refused at START, and nothing is listed.
fn refused(error: LexError) -> Ran
    ensures { result ≡ ran_of (nothing_more (Err (fault error start))) }
{
    Ran {
        ending: Err(Fault::at(error, Position::START)),
        listed: 0,
        used: 0,
    }
}

// The run with its entries laid out in parts of one kind.
pub(crate) fn run_as<P: Part>(
    script: &[u8],
    book: &[u8],
    limit: usize,
    literals: &mut [u8],
    entries: &mut [P],
) -> Ran
    ensures { called result literals.new (P.numbers entries.new) ≡ run_call P.WIDTH P.laid script.now book.now limit literals.old (P.numbers entries.old) }
{
    match door::run::refuses(script, book) {
        Ok(()) => tokens::tokens(book, script, limit, literals, entries),
        Err(error) => refused(error),
    }
}

// The tokens of a script from START, under a book: each as five numbers, and the bytes of its literals. A limit of 0 is none.
// What a run that stops has listed stays; beyond it nothing is written.
pub fn run(
    script: &[u8],
    book: &[u8],
    limit: usize,
    literals: &mut [u8],
    entries: &mut [u32],
) -> Ran
    ensures { called result literals.new entries.new ≡ run_call 5 numbers_of script.now book.now limit literals.old entries.old }
{
    run_as(script, book, limit, literals, entries)
}
