// Histories of formed prices, and the mean of the latest ones, which stands in for a price that was not formed.
#![tactic(auto)]

pub mod empty;
pub mod history;
pub mod key;
pub mod laws;
pub mod mean;
pub mod rank;
pub mod series;
