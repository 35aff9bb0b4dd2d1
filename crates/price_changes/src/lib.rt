// The prices of one sheet struck from a history, and those of another entered.
#![tactic(auto)]

pub mod changing;
mod counting;
pub mod laws;
pub mod refusal;
mod steps;
