// The book of a month, and the calls that change it.
#![tactic(auto)]

pub mod book;
pub mod closing;
pub mod enrolling;
pub mod filing;
pub mod opening;
pub mod past;
mod places;
pub mod putting;
mod raised;
pub mod refusal;
mod registered;
mod spot;
pub mod stated;
pub mod writing;
