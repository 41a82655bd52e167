//! The tests of rows that outlive a run.
#![tactic(auto)]

#[cfg(test)]
mod tests;
