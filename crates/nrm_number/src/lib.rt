//! Whole numbers: their greatest common divisor, which is computed, and the definitions and lemmas that the crates
//! above share: the least common multiple, lowest terms, sums, and equations in a ring.
#![tactic(auto)]

mod euclid;

pub use euclid::{gcd, short_gcd};
