//! Hindsight: past requests, their tallies, and what choices of them could have earned. There are definitions here and
//! laws over them, and no code: a law is a clause of a function that does nothing.
#![tactic(auto)]

mod laws;

pub use laws::{selections_are_bounded, tallies_suffice};
