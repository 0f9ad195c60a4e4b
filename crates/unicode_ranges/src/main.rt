// Lists the code points up to U+10FFFF that are white, and those that are no scalar values, as ranges in the form of the
// property file. The gate holds what it writes to the file stdout; tools/compare-unicode holds that file to Unicode's.
#![tactic(auto)]

ghost use Rattle.std.specs.Prelude.{◌≤◌};

use std::io;

// The one behind the last code point.
const END: u32 = 0x110000;

// The first code point from `from` on that is wanted, or the end.
fn next<F: Fn(u32) -> bool>(from: u32, wanted: F) -> u32
    requires callable { F.IsAlwaysCallable wanted }
    requires within { from ≤ 0x110000 }
    ensures { (from ≤ result) × (result ≤ 0x110000) }
{
    let mut c = from;
    while c < END && !wanted(c) {
        c += 1;
    }
    c
}

// Writes each range of code points that have the property of this name.
fn list<F: Fn(u32) -> bool>(rt: &impl Print, name: &str, has: F) -> io::Result<()>
    requires { F.IsAlwaysCallable has }
{
    let mut first = next(0, &has);
    while first < END {
        let end = next(first + 1, |c| !has(c));
        println!(rt; "{first:04x}..{:04x} ; {name}", end - 1)?;
        first = next(end, &has);
    }
    Ok(())
}

fn main(rt: HostRuntime) -> io::Result<()> {
    list(&rt, "White_Space", white::is_white)?;
    list(&rt, "Surrogate", |c| !utf8::is_scalar(c))
}
