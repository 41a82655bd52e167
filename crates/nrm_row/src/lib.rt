//! Rows of exact fractions: whole numbers over one denominator, all below 2^48 in size. A row is brought to lowest terms
//! if a number could reach that.
//!
//! In the order in which a tableau calls them:
//!
//! - `Row::of` makes a row of the few entries that aren't 0
//! - `width`, `is_negative`, `is_positive` and `is_nought` ask it; `less_ratio` compares two rows for leaving
//! - `unit` divides the pivot row by its entry: a `Unit`, whose `entries` are listed
//! - `combine` takes a multiple of the unit row away; `never_large` stands for a row that is left as it is
//! - `Unit::into_row` makes the unit row a row again
//! - `part` takes some columns, and `den` and `num` tell the least common denominator and the numbers over it
//!
//! The test `is_combined_with_a_unit_row` goes this way.
#![tactic(auto)]

mod crossed;
mod in_place;
mod limits;
mod lowest;
mod numbers;
mod ratios;
mod row;

pub use limits::MOST_COLUMNS;
pub use nrm_fraction::RowFault;
pub use row::{Row, Unit};
