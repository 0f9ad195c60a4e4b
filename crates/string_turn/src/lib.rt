// One turn of a string literal's scan.
#![tactic(auto)]

pub mod act;
mod kinds;
pub mod take;
