//! Bookings.

/// A booking that was sold: its number (from 1 on), its product by number, and its party, the seats that it takes.
#[derive(Clone, Copy, Debug, PartialEq, Eq)]
pub struct Booking {
    pub number: u64,
    pub product: u16,
    pub party: u16,
}
