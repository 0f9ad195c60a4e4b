// Runs cases and writes their answers. A case is a line of standard input, with its line feed (src/line.rt says how it is
// written, src/ask.rt what can be asked). The line is written with the answer behind it; a line that is empty or begins with
// `#` is written as it is. The file stdin has the cases, and the gate holds what is written to the file stdout, which says where
// each answer comes from.
#![tactic(auto)]

use line::{Case, Line};
use std::io;
use std::io::Read;

mod ask;
mod line;
mod runs;
mod show;

// Writes what stands behind a case.
fn finish(to: &impl Print, case: &Case) -> io::Result<()> {
    show::word(to, "=")?;
    let mut out = [0u8; 256];
    let room = ask::room(case).min(out.len());
    ask::answer(to, case, &mut out[..room])
}

// Writes the lines of the input, each case with its answer.
fn replay<R: Read + Drop>(to: &impl Print, input: R, texts: &mut [u8]) -> io::Result<()> {
    let mut line = Line::NEW;
    for b in input.bytes() {
        let b = b?;
        line.take(b, texts);
        if b == b'\n' {
            if let Some(case) = line.case(texts) {
                finish(to, &case)?;
            }
            line = Line::NEW;
        }
        show::byte(to, b)?;
    }
    Ok(())
}

// The cases stand on standard input, of which 65,536 bytes are read.
fn main(rt: HostRuntime) -> io::Result<()> {
    let mut texts = [0u8; 65600];
    replay(&rt, rt.stdin().take(65536), &mut texts)
}
