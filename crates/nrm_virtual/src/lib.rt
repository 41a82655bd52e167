//! Displacement-adjusted virtual nesting (chapter 3 of Talluri and van Ryzin): on each of its legs a product's fare,
//! less the bid prices of its other legs, falls into one of the leg's buckets.
#![tactic(auto)]

mod fares;
mod table;

pub use fares::{adjusted, bucket};
pub use table::BucketTable;
