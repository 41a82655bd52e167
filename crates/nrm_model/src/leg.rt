//! Flight legs.
ghost use Rattle.std.specs.Prelude.{◌≡◌};

use nrm_text::Name;
use std::marker::Model;

/// The thresholds of a leg, in whole currency units, the highest first: they cut its fares into buckets.
/// Contracts see a list.
#[derive(Drop)]
pub struct Thresholds {
    fares: Vec<u32>,
}

impl Model for Thresholds {
    ghost use Rattle.std.specs.Prelude.{ℕ, List};

    ghost Value = { List ℕ };

    ghost view = { λ t. t.fares.items };
}

impl Thresholds {
    /// The thresholds in this list.
    pub fn new(fares: Vec<u32>) -> Thresholds
        ensures { result ≡ fares.items }
    {
        Thresholds { fares }
    }

    /// The thresholds, the highest first.
    pub fn as_slice(&self) -> &[u32]
        ensures { result.now ≡ self.now }
    {
        self.fares.as_slice()
    }
}

/// A flight leg.
#[derive(Drop)]
pub struct Leg {
    /// Its name.
    pub name: Name,
    /// Its physical seats: 0 to [`crate::MOST_SEATS`]. They are reported, and nothing else: no answer depends on them.
    pub seats: u16,
    /// Its authorised seats, those that may be sold: 0 to [`crate::MOST_SEATS`], below, at or above its physical seats.
    pub authorised: u16,
    /// The thresholds of the leg, at most [`crate::MOST_THRESHOLDS`].
    pub cuts: Thresholds,
}
