//! Seats left, leg by leg, in an array of fixed length: keeping them takes no memory.
ghost use Rattle.std.specs.Prelude.{◌≡◌, ◌<◌, ◌≤◌, ◌++◌, ◌∷◌, [], length};
ghost use Rattle.nrm_model.specs.declared.limits.TheConstants.{MOST_LEGS};

use nrm_model::MOST_LEGS;
use std::marker::Model;

/// The seats left on each leg of a network, in file order. Contracts see a list.
#[derive(Drop)]
pub struct SeatsLeft {
    seats: [u16; MOST_LEGS],
    legs: usize,
}

impl Model for SeatsLeft {
    ghost use Rattle.std.specs.Prelude.{ℕ, List, ◌≡◌, ◌≤◌, length, take};
    ghost use Rattle.nrm_model.specs.declared.limits.TheConstants.{MOST_LEGS};

    ghost Value = { List ℕ };

    ghost view = { λ left. take left.legs left.seats };

    ghost invariant = { λ left. (length left.seats ≡ MOST_LEGS) × (left.legs ≤ MOST_LEGS) };
}

impl SeatsLeft {
    /// No legs yet.
    pub fn new() -> SeatsLeft
        ensures { result ≡ [] }
    {
        SeatsLeft {
            seats: [0; MOST_LEGS],
            legs: 0,
        }
    }

    /// These seats.
    pub fn of(seats: &[u16]) -> SeatsLeft
        requires { length seats.now ≤ MOST_LEGS }
        ensures { result ≡ seats.now }
    {
        let mut kept = [0; MOST_LEGS];
        kept[..seats.len()].copy_from_slice(seats);
        SeatsLeft {
            seats: kept,
            legs: seats.len(),
        }
    }

    /// Appends the seats left on the next leg.
    pub fn push(&mut self, seats: u16)
        requires { length self.old < MOST_LEGS }
        ensures { self.new ≡ self.old ++ seats ∷ [] }
    {
        self.seats[self.legs] = seats;
        self.legs += 1;
    }

    /// The seats, leg by leg.
    pub fn as_slice(&self) -> &[u16]
        ensures { result.now ≡ self.now }
    {
        let legs = self.legs;
        &self.seats[..legs]
    }
}
