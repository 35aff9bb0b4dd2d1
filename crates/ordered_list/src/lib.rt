// A list in the order of its keys, over lent memory.
#![tactic(auto)]

pub mod entering;
pub mod entry;
pub mod list;
mod places;
pub mod ranked;
pub mod reading;
