// Reads a settlement sheet from its text.
#![tactic(auto)]

mod cursor;
mod draft;
mod entry;
mod entry_lines;
pub mod faults;
mod fields;
mod lines;
mod raised;
mod reader;
pub mod reading;
pub mod report;
mod values;
