//! What is sold.
ghost use Rattle.std.specs.Prelude.{◌≡◌};

use nrm_text::Name;
use std::marker::Model;

/// The numbers of a product's legs, in its own order. Contracts see a list.
#[derive(Drop)]
pub struct LegNumbers {
    numbers: Vec<u8>,
}

impl Model for LegNumbers {
    ghost use Rattle.std.specs.Prelude.{ℕ, List};

    ghost Value = { List ℕ };

    ghost view = { λ l. l.numbers.items };
}

impl LegNumbers {
    /// The leg numbers in this list.
    pub fn new(numbers: Vec<u8>) -> LegNumbers
        ensures { result ≡ numbers.items }
    {
        LegNumbers { numbers }
    }

    /// The leg numbers, in the product's own order.
    pub fn as_slice(&self) -> &[u8]
        ensures { result.now ≡ self.now }
    {
        self.numbers.as_slice()
    }
}

/// What is sold.
#[derive(Drop)]
pub struct Product {
    /// Its name.
    pub name: Name,
    /// Its fare in whole currency units: 1 to [`crate::MOST_FARE`].
    pub fare: u32,
    /// What a cancellation gives back of the fare, as a percentage: 0 to [`crate::MOST_REFUND`].
    pub refund: u8,
    /// The legs that it takes a seat on: 1 to [`crate::MOST_LEGS_OF_A_PRODUCT`].
    pub legs: LegNumbers,
}
