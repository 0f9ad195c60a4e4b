// The run over a script with its entries as bytes: document 01, "entries cross there as little-endian bytes, four per number".
ghost use Rattle.std.specs.Prelude.{◌≡◌};
ghost use Rattle.run.specs.Run.{called, run_call};
ghost use Rattle.run.specs.Bytes.{entry_bytes};

use crate::Ran;

// The run, as its other form.
pub fn run(script: &[u8], book: &[u8], limit: usize, literals: &mut [u8], entries: &mut [u8]) -> Ran
    ensures { called result literals.new entries.new ≡ run_call 20 entry_bytes script.now book.now limit literals.old entries.old }
{
    crate::run_as(script, book, limit, literals, entries)
}
