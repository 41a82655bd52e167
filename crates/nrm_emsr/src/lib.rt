//! EMSR-b protection levels (chapter 2 of Talluri and van Ryzin) on the empirical demand: how many seats of a leg are
//! protected for its higher buckets.
#![tactic(auto)]

mod basis;
mod compared;
mod laws;
mod levels;
mod nest;
mod ranked;
mod sums;

pub use basis::{Basis, basis_of};
pub use laws::enough_is_least;
pub use levels::protections;
pub use sums::Mean;
