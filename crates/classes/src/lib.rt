// Classes of characters: the ASCII classes that the Rust asks for; and the characters that the rules of a script name.
#![tactic(auto)]

pub mod marks;

ghost use Rattle.std.specs.Prelude.{◌≡◌};
ghost use Rattle.classes.specs.Class.{is_numeric_digit, is_id_first_alphabetic, is_id_continue, hex_digit};

// The Rust's `is_numeric_digit`.
#[tactic(auto, unfolding(crate::specs::Class::is_numeric_digit))]
pub fn is_numeric_digit(c: u32) -> bool
    ensures { result ≡ is_numeric_digit c }
{
    matches!(c, 0x30..=0x39)
}

// The Rust's `is_id_first_alphabetic`: an ASCII letter.
#[tactic(auto, unfolding(crate::specs::Class::is_id_first_alphabetic))]
pub fn is_id_first_alphabetic(c: u32) -> bool
    ensures { result ≡ is_id_first_alphabetic c }
{
    matches!(c, 0x41..=0x5A) || matches!(c, 0x61..=0x7A)
}

// The Rust's `is_id_continue`: an ASCII letter, digit or underscore. Letters, which are most, are told first.
#[tactic(auto, unfolding(crate::specs::Class::is_id_continue))]
pub fn is_id_continue(c: u32) -> bool
    ensures { result ≡ is_id_continue c }
{
    if is_id_first_alphabetic(c) {
        return true;
    }
    is_numeric_digit(c) || c == marks::UNDERSCORE
}

// The Rust's `to_digit(16)`: the value of a hex digit.
#[tactic(auto, unfolding(crate::specs::Class::hex_digit, crate::specs::Class::digit_of))]
pub fn to_digit(c: u32) -> Option<u32>
    ensures { result ≡ hex_digit c }
{
    match c {
        0x30..=0x39 => Some(c - 0x30),
        0x41..=0x46 => Some(c - 0x37),
        0x61..=0x66 => Some(c - 0x57),
        _ => None,
    }
}
