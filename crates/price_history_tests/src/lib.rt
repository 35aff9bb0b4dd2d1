// A history of a single series, zone and slot, and tests of what is read from it.
#![tactic(auto)]

pub mod daily;
pub mod prices;
#[cfg(test)]
mod tests;
