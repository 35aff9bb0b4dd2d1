// Cuts a text at a byte, and reads words and numbers.
#![tactic(auto)]

pub mod cutting;
pub mod numbers;
pub mod words;
