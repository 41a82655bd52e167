//! The book: a plain list of bookings by rising number, with the authorised seats, the fares and the leg lists of its
//! network, and beside it counters that are always what the list sums to: the seats sold and the revenue. Its room is
//! reserved when it is made, for twice as many bookings as there are authorised seats in all (a live booking holds one or
//! more): no later call takes memory. A cancellation leaves its place empty, and moves no other booking.
ghost use Rattle.std.specs.Prelude.{◌≡◌, ◌+◌, ◌*◌, ◌<◌, ◌≤◌, [], All, IfNone, IfOk, IfSome, length, map, sum};
ghost use Rattle.std.specs.Prelude.{slice_get, slice_index, unwrap_or};
ghost use Rattle.std.specs.Int.{IsInRange};
ghost use Rattle.nrm_model.specs.Inventory.{inventory_of, legs_of, authorised_of};
ghost use Rattle.nrm_model.specs.declared.limits.TheConstants.{BOOKING_LIMIT, MOST_LEGS, MOST_PARTY};
ghost use Rattle.nrm_book.specs.Bookings.{booking_numbered, left_on, revenue_of, sold_of, sold_on, sold_on_each, without};

use crate::Booking;
use crate::on_leg::SoldOnLeg;
use crate::seats::SeatsSold;
use crate::standing::{Bookings, Standing};
use nrm_model::Network;
use std::alloc::{AllocError, Global};
use std::marker::Model;

/// The bookings that stand on a network.
#[derive(Drop)]
pub struct Book {
    authorised: Vec<u16>,
    fares: Vec<u32>,
    legs: Vec<Vec<u8>>,
    bookings: Standing,
    sold: SeatsSold,
    revenue: u64,
}

impl Model for Book {
    ghost use Rattle.std.specs.Prelude.{map};
    ghost use Rattle.nrm_book.specs.Book.{BookValue};
    ghost use Rattle.nrm_book.specs.Stored.{IsStored};

    ghost Value = { BookValue };

    ghost view = { λ b. record {
      inventory = record { authorised = b.authorised.items; fares = b.fares.items; legs = map (λ v. v.items) b.legs.items };
      bookings = b.bookings.items;
      next = b.bookings.next;
    } };

    ghost invariant = { λ b. IsStored
        (record {
          inventory = record { authorised = b.authorised.items; fares = b.fares.items; legs = map (λ v. v.items) b.legs.items };
          bookings = b.bookings.items;
          next = b.bookings.next;
        }) b.bookings b.sold b.revenue };
}

impl Book {
    ghost use Rattle.nrm_book.specs.Book.{IsBook, IsLoadable, with_booking, with_loaded};

    /// An empty book of a network, with the next number 1 and room for twice as many bookings as there are authorised seats
    /// in all.
    ///
    /// # Errors
    /// Memory runs out.
    pub fn new(alloc: Global, net: &Network) -> Result<Book, AllocError>
        ensures empty { IfOk result (λ book. book ≡ record { inventory = inventory_of net.now; bookings = []; next = 1 }) }
        ensures sound { IfOk result IsBook }
    {
        let authorised = net.authorised_of_legs(alloc)?;
        let fares = net.fares_of_products(alloc)?;
        let legs = net.legs_of_products(alloc)?;
        let sold = SeatsSold::new(alloc, net)?;
        let bookings = Standing::with_room(alloc, seats_in_all(&authorised))?;
        Ok(Book {
            authorised,
            fares,
            legs,
            bookings,
            sold,
            revenue: 0,
        })
    }

    /// The seats left on a leg: with those sold they make up its authorised seats.
    pub fn left(&self, leg: u8) -> u16
        requires { leg < length self.now.inventory.authorised }
        ensures left { result ≡ left_on self.now.inventory self.now.bookings leg }
        ensures sold { sold_on self.now.inventory self.now.bookings leg + result ≡ authorised_of self.now.inventory leg }
    {
        self.authorised[leg as usize] - self.sold.on(leg)
    }

    /// The seats sold of a product, on each of its legs.
    pub fn sold(&self, product: u16) -> u16
        requires { product < length self.now.inventory.legs }
        ensures { result ≡ sold_of self.now.bookings product }
    {
        self.sold.of(product)
    }

    /// The products that use a leg, in the order of the network, each with the seats sold of it on its legs. It lends what is
    /// counted, and takes no memory.
    pub fn on_leg(&self, leg: u8) -> SoldOnLeg<'_>
        requires { leg < length self.now.inventory.authorised }
        ensures { result ≡ sold_on_each self.now.inventory self.now.bookings leg }
    {
        SoldOnLeg::new(&self.legs, self.sold.by_product(), leg)
    }

    /// The bookings that stand, by rising number.
    pub fn bookings(&self) -> Bookings<'_>
        ensures bookings { result ≡ self.now.bookings }
        ensures sound { IsBook self.now }
    {
        self.bookings.iter()
    }

    /// The booking with a number. `None` exactly where it isn't live.
    pub fn find(&self, number: u64) -> Option<Booking>
        ensures { result ≡ booking_numbered self.now.bookings number }
    {
        self.bookings.find(number)
    }

    /// What the bookings are worth: party times fare, in whole currency units.
    pub fn revenue(&self) -> u64
        ensures { result ≡ revenue_of self.now.inventory self.now.bookings }
    {
        self.revenue
    }

    /// The number of the next booking. Numbers begin at 1 and are never used again.
    pub fn next(&self) -> u64
        ensures next { result ≡ self.now.next }
        ensures sound { IsBook self.now }
    {
        self.bookings.next()
    }

    /// Books a party, and gives its number. It takes no memory; at most once in as many calls as there are authorised seats
    /// in all does it move the bookings that stand, to the front of their room: no more than one move a call, on average.
    pub fn add(&mut self, product: u16, party: u16) -> u64
        requires product { product < length self.old.inventory.legs }
        requires party { IsInRange 1 MOST_PARTY party }
        requires seats { All (λ leg. party ≤ left_on self.old.inventory self.old.bookings leg) (legs_of self.old.inventory product) }
        requires next { self.old.next < BOOKING_LIMIT }
        ensures number { result ≡ self.old.next }
        ensures added { self.new ≡ with_booking self.old product party }
        ensures sound { IsBook self.new }
    {
        let number = self.next();
        self.load(Booking {
            number,
            product,
            party,
        });
        number
    }

    /// Books a booking that was kept elsewhere, under its own number; the next number is then the one above it. It takes no memory,
    /// and moves bookings as `add` does.
    pub fn load(&mut self, booking: Booking)
        requires { IsLoadable self.old booking }
        ensures loaded { self.new ≡ with_loaded self.old booking }
        ensures sound { IsBook self.new }
    {
        self.bookings.push(booking);
        self.sold.sell(
            legs_of(&self.legs, booking.product),
            booking.product,
            booking.party,
        );
        self.revenue += worth(&self.fares, &booking);
    }

    /// Takes a booking out of the book; the others and the next number stay. `None` exactly where it isn't live, and
    /// then nothing changes. No other booking is moved.
    pub fn remove(&mut self, number: u64) -> Option<Booking>
        ensures booking { result ≡ booking_numbered self.old.bookings number }
        ensures removed { self.new ≡ record self.old { bookings = without self.old.bookings number } }
        ensures within { IfSome result (λ booking. booking.product < length self.old.inventory.legs) }
        ensures dead { IfNone result (self.new ≡ self.old) }
        ensures sound { IsBook self.new }
    {
        let booking = self.bookings.remove(number)?;
        self.sold.give_back(
            legs_of(&self.legs, booking.product),
            booking.product,
            booking.party,
        );
        self.revenue -= worth(&self.fares, &booking);
        Some(booking)
    }
}

// The legs of a product.
fn legs_of(legs: &[Vec<u8>], product: u16) -> &[u8]
    requires { product < length legs.now }
    ensures { result.now ≡ unwrap_or (slice_get (map (λ v. v.items) legs.now) product) [] }
{
    &legs[product as usize]
}

// What a booking is worth.
fn worth(fares: &[u32], booking: &Booking) -> u64
    requires { booking.now.product < length fares.now }
    ensures { result ≡ booking.now.party * slice_index fares.now booking.now.product }
{
    u64::from(booking.party) * u64::from(fares[booking.product as usize])
}

// The authorised seats of all legs together.
fn seats_in_all(seats: &[u16]) -> usize
    requires { length seats.now ≤ MOST_LEGS }
    ensures { result ≡ sum seats.now }
{
    seats.iter().map(|seats| usize::from(*seats)).sum()
}
