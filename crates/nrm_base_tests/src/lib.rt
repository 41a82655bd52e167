//! The tests of the outside, and of numbers, fractions and texts.
#![tactic(auto)]

#[cfg(test)]
mod edge;
#[cfg(test)]
mod fraction;
#[cfg(test)]
mod line;
#[cfg(test)]
mod number;
#[cfg(test)]
mod text;
