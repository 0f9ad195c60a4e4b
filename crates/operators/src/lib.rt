// Questions about a token: how strongly it binds, its operator-assignment, what it is.
#![tactic(auto)]

pub mod assignments;
pub mod kinds;
pub mod precedence;
