//! The tests of sessions, of streams and their replies, and of the texts of legs, certificates and plans, worked by hand.
#![tactic(auto)]

#[cfg(test)]
mod report;
#[cfg(test)]
mod session;
