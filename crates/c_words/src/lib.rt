// The C names of what is asked of a word, of an operator and of an identifier, for comparison runs.
#![tactic(auto)]

mod identifiers;
mod operations;
mod words;
