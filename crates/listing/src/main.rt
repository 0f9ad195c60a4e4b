// Lists the tokens of the script on standard input, one on a line: document 01, "Listing program". A byte more than a script may
// have is read, to tell that it is too long. A script that could not be read whole is not listed.
#![tactic(auto)]

ghost use Rattle.std.specs.Prelude.{◌<◌, IfOk, length};
ghost use Rattle.std.specs.Io.KnownBytes.{Consumes, IsAtEnd};

use std::io;
use std::io::Read;

const UNREAD: &[u8] = b"listing: standard input could not be read\n";

const UNWRITTEN: &[u8] = b"listing: standard output could not be written\n";

// Reads until the room is full or the input ends: the script, or as much of it as fits. Where a read fails, that is the answer,
// whatever was read before it.
fn read_script<'a, R: Read>(input: &mut R, room: &'a mut [u8]) -> io::Result<&'a [u8]>
    ensures bytes { IfOk result (λ script. Consumes (R.remaining input.old) (R.remaining input.new) script.now) }
    ensures whole { IfOk result (λ script. length script.now < length room.old → IsAtEnd (R.remaining input.new)) }
{
    let mut n = 0;
    while n < room.len() {
        match input.read(&mut room[n..])? {
            0 => break,
            more => n += more,
        }
    }
    Ok(&room[..n])
}

// Where these words cannot be written either, nothing more is said.
fn complain(to: &impl Print, words: &[u8]) {
    let _ = to.write_all(words);
}

fn main(rt: HostRuntime) -> io::Result<()> {
    let err = rt.stderr();
    let mut input = [0u8; 32769];
    let mut out = [0u8; 180000];
    let script = read_script(&mut rt.stdin(), &mut input).inspect_err(|_| complain(&err, UNREAD))?;
    let len = listed::list(script, &mut out);
    rt.write_all(&out[..len])
        .inspect_err(|_| complain(&err, UNWRITTEN))
}
