// The C names of the literals and of the comments, for comparison runs: each scan on numbers and byte slices.
#![tactic(auto)]

mod comments;
mod literals;
mod raws;
mod strings;
