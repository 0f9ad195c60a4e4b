// What the compile tool asks, behind its C names: the run and the raw writer on byte slices.
#![tactic(auto)]

pub mod runs;
pub mod writer;
