// Words: the tokens as numbers; the list of keywords and symbols is `specs/Keywords.antt`.
#![tactic(auto)]

pub mod tokens;
pub mod word_table;
