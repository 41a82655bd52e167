//! The book: the bookings that stand, and the seats that they take of a network's legs.
//!
//! A caller meets the calls of `Book` in this order, as in the tests `sells_by_hand`, `cancels_by_hand` and
//! `counts_the_products_by_hand`:
//! - `new`, an empty book of a network, the only call that takes memory;
//! - `left`, the seats left on a leg, and `next`, the number that the next booking gets;
//! - `add`, a `Booking` more, and `remove`, one less;
//! - `find`, a booking by its number, and `bookings`, an iterator over all of them;
//! - `sold`, the seats sold of a product, and `on_leg`, those of each product of a leg; `revenue`, what they are worth.
#![tactic(auto)]

mod book;
mod booking;
mod on_leg;
mod seats;
mod slot;
mod standing;

pub use book::Book;
pub use booking::Booking;
pub use on_leg::SoldOnLeg;
pub use standing::Bookings;
