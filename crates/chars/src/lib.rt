// Going through the characters of a lent text: the cursor, and the driver of every scanner.
#![tactic(auto)]

pub mod cursor;
pub mod passing;
pub mod stretch;
