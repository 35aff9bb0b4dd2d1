// Text that is being written, in memory of a fixed size.
#![tactic(auto)]

pub mod buffer;
pub mod numbers;
pub mod writing;
