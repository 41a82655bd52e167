//! The tests of network files, of streams and their lines, and of what is made of a number.
#![tactic(auto)]

#[cfg(test)]
mod made;
#[cfg(test)]
mod network;
#[cfg(test)]
mod stream;
