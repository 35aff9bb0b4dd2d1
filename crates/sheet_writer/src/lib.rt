// Writes a settlement sheet as text.
#![tactic(auto)]

mod entries;
pub mod laws;
mod lines;
mod page;
pub mod refusal;
pub mod writing;
