// What the offers of a sheet come to: volumes, the state of the zone, the prices that form.
#![tactic(auto)]

pub mod forming;
pub mod laws;
mod selection;
pub mod span;
pub mod states;
pub mod volumes;
