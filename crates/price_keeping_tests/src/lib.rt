// Tests of histories that are kept.
#![tactic(auto)]

#[cfg(test)]
mod tests;
