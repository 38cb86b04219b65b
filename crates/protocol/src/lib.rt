// The lines of a service as words and numbers.
#![tactic(auto)]

pub mod numbers;
pub mod words;
