//! The limits of the programs that are solved, of each the greatest that is allowed. They are those of a network, which
//! this crate doesn't know: `nrm_dlp` proves that the programs of every network are within them.

/// Caps: one for each leg.
pub const MOST_CAPS: usize = 64;

/// Bounds: one for each product.
pub const MOST_BOUNDS: usize = 256;

/// A cap and a bound: 999 seats in each of 32 histories.
pub const MOST_SEATS_IN_ALL: u32 = 31_968;

/// A fare, in whole currency units.
pub const MOST_FARE: u32 = 99_999_999;

/// Legs of a product.
pub const MOST_LEGS_OF_A_PRODUCT: usize = 4;
