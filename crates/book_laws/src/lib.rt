// What holds of the calls that change a book.
#![tactic(auto)]

pub mod laws;
