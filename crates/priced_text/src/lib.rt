// A sheet's text priced, as text.
#![tactic(auto)]

pub mod laws;
pub mod lines;
pub mod page;
pub mod pricing_text;
pub mod refusal;
pub mod refusal_line;
