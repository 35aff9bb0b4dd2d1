// Tests of states, prices and the text of priced periods.
#![tactic(auto)]

#[cfg(test)]
mod kept;
#[cfg(test)]
mod tests;
