// A settlement sheet as data: what one zone reports for one settlement period.
#![tactic(auto)]

pub mod entries;
pub mod lines;
pub mod lists;
pub mod place;
pub mod report;
