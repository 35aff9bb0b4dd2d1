// The prices of a settlement period, over any history of prices.
#![tactic(auto)]

mod case;
pub mod change;
pub mod changes;
pub mod changing;
pub mod entries;
pub mod keys;
mod kind;
pub mod laws;
pub mod marginal;
pub mod means;
pub mod period;
pub mod prices;
mod quarter;
