//! The tests of the top calls of `nrm` and `nrm_why`, of what all top calls have in common, and of findings.
#![tactic(auto)]

#[cfg(test)]
mod cli;
#[cfg(test)]
mod common;
#[cfg(test)]
mod findings;
#[cfg(test)]
mod why;
