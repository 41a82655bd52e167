//! The bookings that stand, in a row of slots that is reserved when it is made, by rising number. One that is cancelled leaves
//! its slot empty, and no other moves. Where the row has come to its end, the slots that are taken move to its front: it has
//! twice the slots that were asked for, so that this comes at most once in as many bookings, as long as no more stand.
ghost use Rattle.std.specs.Prelude.{ℕ, ◌≡◌, ◌+◌, ◌*◌, ◌<◌, ◌≤◌, ◌==◌, ◌++◌, ◌∷◌, [], IfNone, IfOk, MatchOption, filter, length, position, slice_set};
ghost use Rattle.std.specs.Prelude.{slice_index_or, vec_capacity};
ghost use Rattle.nrm_model.specs.declared.limits.TheConstants.{BOOKING_LIMIT};
ghost use Rattle.nrm_book.specs.Bookings.{booking_numbered, without};
ghost use Rattle.nrm_book.specs.Standing.{IsRow, SlotsRise, emptied, is_taken, standing};
ghost use Rattle.nrm_book.specs.declared.slot.Slot.{Slot as SlotValue};

use crate::Booking;
use crate::slot::Slot;
use std::alloc::{AllocError, Global};
use std::marker::Model;

/// The bookings that stand, in order, and the least number of the next one.
#[derive(Drop)]
pub(crate) struct Standing {
    slots: Vec<Slot>,
    next: u64,
}

impl Model for Standing {
    ghost use Rattle.std.specs.Prelude.{vec_capacity};
    ghost use Rattle.nrm_book.specs.Standing.{IsRow, StandingValue, standing};

    ghost Value = { StandingValue };

    ghost view = { λ s. record { items = standing s.slots.items; next = s.next; room = vec_capacity s.slots } };

    ghost invariant = { λ s. IsRow s.slots.items s.next };
}

impl Standing {
    /// None stand, with room for twice as many as are asked for, and the next number 1.
    ///
    /// # Errors
    /// Memory runs out.
    pub(crate) fn with_room(alloc: Global, room: usize) -> Result<Standing, AllocError>
        requires { room ≤ 63936 }
        ensures items { IfOk result (λ standing. standing.items ≡ []) }
        ensures next { IfOk result (λ standing. standing.next ≡ 1) }
        ensures room { IfOk result (λ standing. standing.room ≡ 2 * room) }
    {
        let slots = Vec::with_capacity(alloc, 2 * room)?;
        Ok(Standing { slots, next: 1 })
    }

    /// The bookings in order.
    pub(crate) fn iter(&self) -> Bookings<'_>
        ensures { result ≡ self.now.items }
    {
        Bookings { slots: &self.slots }
    }

    /// The least number of the next booking.
    pub(crate) fn next(&self) -> u64
        ensures { result ≡ self.now.next }
    {
        self.next
    }

    /// The booking with a number. `None` exactly where it doesn't stand.
    pub(crate) fn find(&self, number: u64) -> Option<Booking>
        ensures { result ≡ booking_numbered self.now.items number }
    {
        let place = place_of(&self.slots, number)?;
        self.slots[place].booking()
    }

    /// One booking more, behind the others. It takes no memory; where the row is at its end, those that stand move first.
    pub(crate) fn push(&mut self, booking: Booking)
        requires room { length self.old.items < self.old.room }
        requires number { self.old.next ≤ booking.number }
        requires low { booking.number < BOOKING_LIMIT }
        ensures items { self.new.items ≡ self.old.items ++ booking ∷ [] }
        ensures next { self.new.next ≡ booking.number + 1 }
        ensures room { self.new.room ≡ self.old.room }
    {
        make_room(&mut self.slots);
        self.slots.push_reserved(Slot::of(booking));
        self.next = booking.number + 1;
    }

    /// Takes out the booking with a number. The others stay where they are. `None` exactly where it doesn't stand.
    pub(crate) fn remove(&mut self, number: u64) -> Option<Booking>
        ensures booking { result ≡ booking_numbered self.old.items number }
        ensures items { self.new.items ≡ without self.old.items number }
        ensures dead { IfNone result (self.new ≡ self.old) }
        ensures next { self.new.next ≡ self.old.next }
        ensures room { self.new.room ≡ self.old.room }
    {
        let place = place_of(&self.slots, number)?;
        let booking = self.slots[place].booking()?;
        empty_slot(&mut self.slots, place);
        Some(booking)
    }
}

/// The bookings of a book that stand, by rising number. Contracts see the list of those to come.
#[derive(Drop)]
pub struct Bookings<'a> {
    slots: &'a [Slot],
}

impl<'a> Model for Bookings<'a> {
    ghost use Rattle.std.specs.Prelude.{List};
    ghost use Rattle.nrm_book.specs.declared.booking.Booking.{Booking as Own};
    ghost use Rattle.nrm_book.specs.Standing.{standing};

    ghost Value = { List Own };

    ghost view = { λ b. standing b.slots.now };
}

impl<'a> Iterator for Bookings<'a> {
    ghost use Rattle.std.specs.Iterator.{YieldsFirst, item_count};

    type Item = Booking;

    ghost next_gives = { YieldsFirst (λ bookings. bookings) };

    ghost remaining = { item_count (λ bookings. bookings) };

    fn next(&mut self) -> Option<Booking> {
        let (booking, behind) = first_standing(self.slots)?;
        self.slots = behind;
        Some(booking)
    }
}

// The first booking that stands in a row, and the row behind it.
fn first_standing(slots: &[Slot]) -> Option<(Booking, &[Slot])>
    ensures { MatchOption result (standing slots.now ≡ []) (λ p. standing slots.now ≡ p.0 ∷ standing p.1.now) }
{
    for (place, slot) in slots.iter().enumerate() {
        if let Some(booking) = slot.booking() {
            return Some((booking, &slots[place + 1..]));
        }
    }
    None
}

// The place of a number in a row, found by halves: the numbers rise.
fn place_of(slots: &[Slot], number: u64) -> Option<usize>
    requires { SlotsRise slots.now }
    ensures { result ≡ position (λ slot. slot.number == number) slots.now }
{
    slots.binary_search_by_key(&number, |slot| slot.number).ok()
}

// Cancels the booking at a place.
fn empty_slot(slots: &mut Vec<Slot>, place: usize)
    requires { place < length slots.old.items }
    ensures slot { (slot : SlotValue) → slot ≡ slice_index_or slots.old.items place slot
        → slots.new.items ≡ slice_set slots.old.items place (emptied slot) }
    ensures room { vec_capacity slots.new ≡ vec_capacity slots.old }
{
    let slot = &mut slots[place];
    slot.sale = None;
}

// Sees that there is a slot more in the room: where there is none, those that are taken move to the front.
fn make_room(slots: &mut Vec<Slot>)
    requires { length (standing slots.old.items) < vec_capacity slots.old }
    ensures stand { standing slots.new.items ≡ standing slots.old.items }
    ensures row { (next : ℕ) → IsRow slots.old.items next → IsRow slots.new.items next }
    ensures space { length slots.new.items < vec_capacity slots.new }
    ensures room { vec_capacity slots.new ≡ vec_capacity slots.old }
{
    if slots.len() < slots.capacity() {
        return;
    }
    pack(slots);
}

// Moves the slots that are taken to the front.
fn pack(slots: &mut Vec<Slot>)
    ensures items { slots.new.items ≡ filter is_taken slots.old.items }
    ensures room { vec_capacity slots.new ≡ vec_capacity slots.old }
{
    slots.retain(|slot| slot.sale.is_some());
}
