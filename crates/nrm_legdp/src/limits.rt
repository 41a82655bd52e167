//! The limit of the dynamic program of a leg.

/// Classes of a leg: with 32 histories each, their values stay below 2^87.
pub const MOST_CLASSES: u8 = 10;
