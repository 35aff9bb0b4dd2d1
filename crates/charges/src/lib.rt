// What the lines of a sheet are charged, and the administrator's accounts.
#![tactic(auto)]

pub mod accounts;
pub mod laws;
pub mod lines;
pub mod totals;
