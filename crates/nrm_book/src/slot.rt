//! Slots of a row of bookings: a number, and what stands under it. A slot keeps its number when its booking is cancelled,
//! so that the numbers of a row rise without a gap to search around.
ghost use Rattle.std.specs.Prelude.{◌≡◌, Some};
ghost use Rattle.nrm_book.specs.Standing.{standing_in};

use crate::Booking;

/// What was sold under a number: a party of a product.
#[derive(Clone, Copy)]
pub(crate) struct Sale {
    product: u16,
    party: u16,
}

/// A number, and what was sold under it. `None` where the booking was cancelled.
#[derive(Clone, Copy)]
pub(crate) struct Slot {
    pub(crate) number: u64,
    pub(crate) sale: Option<Sale>,
}

// A slot takes no more room than a booking.
const _: () = prove!(size_of::<Slot>() == 16);

impl Slot {
    /// The slot of a booking that stands.
    pub(crate) fn of(booking: Booking) -> Slot
        ensures number { result.number ≡ booking.number }
        ensures stands { standing_in result ≡ Some booking }
    {
        Slot {
            number: booking.number,
            sale: Some(Sale {
                product: booking.product,
                party: booking.party,
            }),
        }
    }

    /// The booking that stands here. `None` where it was cancelled.
    pub(crate) fn booking(&self) -> Option<Booking>
        ensures { result ≡ standing_in self.now }
    {
        match self.sale {
            Some(sale) => Some(Booking {
                number: self.number,
                product: sale.product,
                party: sale.party,
            }),
            None => None,
        }
    }
}
