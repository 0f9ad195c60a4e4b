// White_Space, the property of Unicode.
#![tactic(auto)]

ghost use Rattle.std.specs.Prelude.{◌≡◌};
ghost use Rattle.white.specs.White.{is_white, white_in};

// The edition of Unicode by which a script is read: document 01's, the later of the two that document 02 has.
#[derive(Clone, Copy)]
pub enum Edition {
    Later,
}

// The single code points of the property file, and its ranges.
pub fn is_white(c: u32) -> bool
    ensures { result ≡ is_white c }
{
    match c {
        0x0020 | 0x0085 | 0x00A0 | 0x1680 | 0x2028 | 0x2029 | 0x202F | 0x205F | 0x3000 => true,
        0x0009..=0x000D => true,
        0x2000..=0x200A => true,
        _ => false,
    }
}

// Whether a character is white by an edition.
pub fn is_white_in(edition: Edition, c: u32) -> bool
    ensures { result ≡ white_in edition c }
{
    match edition {
        Edition::Later => is_white(c),
    }
}
