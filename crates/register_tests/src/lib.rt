// Tests of the register of units.
#![tactic(auto)]

#[cfg(test)]
mod tests;
