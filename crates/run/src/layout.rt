// How an entry is laid out in the memory that is lent for it: as five numbers, or as bytes, four per number.
ghost use Rattle.std.specs.Prelude.{◌≡◌, ℕ, ◌+◌, ◌*◌, ◌<◌, ◌≤◌, List, length};
ghost use Rattle.std.proofs.Common.{rules, refl};
ghost use Rattle.std.proofs.lemmas.List.Edits.{sets};
ghost use Rattle.entry.specs.Entries.{numbers_of};
ghost use Rattle.entry.specs.declared.Entry.{Entry};
ghost use Rattle.run.specs.Bytes.{entry_bytes};
ghost use Rattle.run.specs.Widths.{five, twenty};

use entry::Entry;

// A part of the memory that is lent for entries: a number, or a byte. The laws hold of both, and the run is proved from them.
pub trait Part: Copy {
    // How many parts an entry takes.
    const WIDTH: usize;

    ghost WIDTH: { ℕ };

    // What some parts of the memory hold, as numbers.
    ghost numbers: { List Self → List ℕ };

    // What an entry's parts hold.
    ghost laid: { Entry → List ℕ };

    // Puts an entry in as the n-th.
    fn store(entries: &mut [Self], e: Entry, n: usize)
        requires { (e.at ≤ 4294967295) × (e.len ≤ 4294967295) × (WIDTH * n + WIDTH ≤ length entries.old) }
        ensures { numbers entries.new ≡ sets (numbers entries.old) (WIDTH * n) (laid e) };

    // An entry takes one part at least.
    ghost some: { 0 < WIDTH };

    // Each entry takes as many.
    ghost wide: { (e : Entry) → length (laid e) ≡ WIDTH };

    // Each part is one number.
    ghost each: { (parts : List Self) → length (numbers parts) ≡ length parts };
}

// The numbers of an entry.
fn row(e: Entry) -> [u32; Entry::NUMBERS]
    requires { (e.at ≤ 4294967295) × (e.len ≤ 4294967295) }
    ensures { result ≡ numbers_of e }
{
    let place = e.place;
    [
        u32::from(e.kind.number()),
        place.line_number() as u32,
        place.column_number() as u32,
        e.at as u32,
        e.len as u32,
    ]
}

impl Part for u32 {
    const WIDTH: usize = Entry::NUMBERS;

    ghost WIDTH = { 5 };

    ghost numbers = { λ parts. parts };

    ghost laid = { numbers_of };

    ghost some = { Prim.search rules };

    ghost wide = { five };

    ghost each = { λ parts. refl };

    fn store(entries: &mut [u32], e: Entry, n: usize) {
        let at = Entry::NUMBERS * n;
        entries[at..at + Entry::NUMBERS].copy_from_slice(&row(e));
    }
}

impl Part for u8 {
    const WIDTH: usize = Entry::BYTES;

    ghost WIDTH = { 20 };

    ghost numbers = { λ parts. parts };

    ghost laid = { entry_bytes };

    ghost some = { Prim.search rules };

    ghost wide = { twenty };

    ghost each = { λ parts. refl };

    fn store(entries: &mut [u8], e: Entry, n: usize) {
        let at = Entry::BYTES * n;
        let _ = numbers::write_row(&row(e).map(u64::from), 4, &mut entries[at..]);
    }
}
