// The register of units: which party each unit belongs to.
#![tactic(auto)]

mod entry_refusal;
mod limits;
pub mod number;
mod number_order;
pub mod party;
pub mod refusal;
pub mod register;
pub mod registering;
mod unit;
