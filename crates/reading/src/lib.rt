// What a run over a script runs within, and how it ends.
#![tactic(auto)]

use fault::Fault;
use position::Position;

// The limit on a literal's bytes, 0 for none; and how many literal bytes and how many entries there is room for.
#[derive(Clone, Copy)]
pub struct Bounds {
    pub limit: usize,
    pub literals: usize,
    pub entries: usize,
}

// The script's end and its place, or a stop that holds the fault and, inside it, its place.
pub type Ending = Result<Position, Fault>;
