// The door of a run: what it asks of its script and its book before it reads.
ghost use Rattle.std.specs.Prelude.{◌≡◌};
ghost use Rattle.door.specs.RunDoor.{refuses_of};

use lex_error::LexError;

// What is refused: 2 before 1 before 14.
pub fn refuses(script: &[u8], book: &[u8]) -> Result<(), LexError>
    ensures { result ≡ refuses_of script.now book.now }
{
    crate::text(script)?;
    book::check(book)
}
