// An entry of what a run lists: a token's kind, its place, and where its bytes stand.
#![tactic(auto)]

pub mod kinds;

use crate::kinds::Kind;
use position::Position;

// A token's kind, its place, and where it stands and how long it is, in the script or, for a literal, in the packed literal bytes.
#[derive(Clone, Copy)]
pub struct Entry {
    pub kind: Kind,
    pub place: Position,
    pub at: usize,
    pub len: usize,
}

impl Entry {
    // How many numbers an entry is.
    pub const NUMBERS: usize = 5;

    // How many bytes they are where they cross as bytes, four to a number.
    pub const BYTES: usize = 20;
}
