// What the Rust asks and answers of a place, with document 01's refusals.
#![tactic(auto, unfolding(crate::specs::Coordinates::new_of, crate::specs::Coordinates::numbered, crate::specs::Coordinates::line_option, crate::specs::Coordinates::position_option, crate::specs::Moves::moved, crate::specs::Moves::advance_of, crate::specs::Moves::rewind_of, crate::specs::Moves::new_line_of))]

pub mod coordinates;
pub mod moves;
pub mod sum;
