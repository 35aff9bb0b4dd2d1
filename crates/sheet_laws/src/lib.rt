// What holds of every text that is read as a sheet.
#![tactic(auto)]

pub mod laws;
