// Volumes, prices, money and energy, each a type of its own, with their rounding and their sums.
#![tactic(auto)]

pub mod amount;
pub mod calendar;
pub mod costs;
pub mod energy;
pub mod kinds;
pub mod laws;
pub mod limits;
pub mod money;
pub mod price;
pub mod rounding;
pub mod statement;
pub mod sums;
pub mod volume;
