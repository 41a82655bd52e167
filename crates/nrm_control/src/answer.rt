//! Answers to requests.

/// What a request gets.
#[derive(Clone, Copy, Debug, PartialEq, Eq)]
pub enum Answer {
    /// It is sold, under this number.
    Sold { number: u64 },
    /// This leg refuses, by its number: the first in the product's own order.
    Leg(u8),
    /// Its legs have the seats, but its fare is below the sum of their bid prices.
    Fare,
}
