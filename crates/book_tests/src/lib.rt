// Tests of the book's calls.
#![tactic(auto)]

#[cfg(test)]
mod tests;
