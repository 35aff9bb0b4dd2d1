// Histories of prices that can be changed: a table with a place for each key, and a list in the order of keys.
#![tactic(auto)]

pub mod keeping;
mod key_order;
pub mod laws;
pub mod list;
pub mod list_keeping;
pub mod list_prices;
mod list_refusal;
pub mod means;
pub mod refusal;
pub mod table;
pub mod table_keeping;
pub mod table_memory;
pub mod table_prices;
