//! The limits of thresholds of least cost.
use nrm_model::{MOST_PRODUCTS, MOST_THRESHOLDS, MOST_TOTAL_DEMAND};

/// Groups that the fares of a leg are cut into: one more than a leg may have thresholds.
pub const MOST_GROUPS: u8 = MOST_THRESHOLDS as u8 + 1;

/// The weight of a fare: the demand of all products of a network in all histories.
pub const MOST_WEIGHT: u32 = MOST_TOTAL_DEMAND * MOST_PRODUCTS as u32;
