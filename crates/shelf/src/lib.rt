// The shelf: a place for the sheet of each zone, day and settlement period of a month.
#![tactic(auto)]

pub mod laws;
mod limits;
pub mod packing;
pub mod places;
pub mod rows;
