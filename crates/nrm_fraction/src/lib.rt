//! Exact fractions in lowest terms, lists of them, their order and their least common denominators: the definitions and
//! lemmas that the crates above share, and the code that brings fractions over one denominator.
#![tactic(auto)]

mod fault;
mod fraction;
mod over;

pub use fault::RowFault;
pub use fraction::Fraction;
pub use over::over_common;

/// What the numbers of a row and of a certificate, and their denominators, stay below in size.
pub const SIZE_LIMIT: u64 = 1 << 48;
