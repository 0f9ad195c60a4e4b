// The C names of the places: what is asked of a place, of two, of token ends, and how a place is written, for comparison runs.
#![tactic(auto)]

mod displays;
mod positions;
