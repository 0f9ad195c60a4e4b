// What is wrong with an input: the refusal, the place reported with it, and the part of the script that it is about.
#![tactic(auto)]

ghost use Rattle.std.specs.Prelude.{◌≡◌};
ghost use Rattle.fault.specs.Faults.{fault, fault_in};

use lex_error::LexError;
use position::Position;

// A part of the script: where it begins, and how many bytes it has.
#[derive(Clone, Copy)]
pub struct Part {
    pub at: usize,
    pub len: usize,
}

impl Part {
    // For a fault that is about no part of the script.
    pub const NONE: Self = Self { at: 0, len: 0 };
}

#[derive(Clone, Copy)]
pub struct Fault {
    pub error: LexError,
    pub place: Position,
    pub part: Part,
}

impl Fault {
    // A fault at a place, about no part of the script.
    pub fn at(error: LexError, place: Position) -> Fault
        ensures { result ≡ fault error place }
    {
        Fault {
            error,
            place,
            part: Part::NONE,
        }
    }

    // A fault at a place, about a part of the script.
    pub fn about(error: LexError, place: Position, part: Part) -> Fault
        ensures { result ≡ fault_in error place part }
    {
        Fault { error, place, part }
    }
}
