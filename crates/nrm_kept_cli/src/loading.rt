//! Loads kept rows into a controller.
ghost use Rattle.std.specs.Prelude.{◌≡◌, ◌<◌, ◌≤◌, All, nat_le, length, OnOk, IfErr, IfSome, Ok, Err};
ghost use Rattle.std.specs.List.{list_all};
ghost use Rattle.nrm_model.specs.Inventory.{inventory_of};
ghost use Rattle.nrm_book.specs.Bookings.{left_on};
ghost use Rattle.nrm_book.specs.Book.{IsLoadable};
ghost use Rattle.nrm_control.specs.Standing.{IsControl, Represents, book_of};
ghost use Rattle.nrm_session.specs.declared.serving.TheConstants.{LATEST_START};
ghost use Rattle.nrm_kept_cli.specs.Inner.Parts.{loaded_in};
ghost use Rattle.nrm_kept_cli.specs.Rows.{booking_of, load_behind, loaded_state, row_fits};

use nrm_book::Booking;
use nrm_control::Controller;
use nrm_keeper::KeptRow;
use nrm_model::MOST_PARTY;
use nrm_session::LATEST_START;

/// The greatest number of a row that loads: a session behind it may begin.
pub const LAST_KEPT: u64 = LATEST_START - 1;

// Whether each of these legs has so many seats left.
fn have_seats(controller: &Controller, legs: &[u8], party: u16) -> bool
    requires { All (λ leg. leg < length controller.now.net.legs) legs.now }
    ensures { result ≡ list_all (λ leg. nat_le party (left_on (inventory_of controller.now.net) controller.now.bookings leg)) legs.now }
{
    let book = controller.book();
    for leg in legs {
        if book.left(*leg) < party {
            return false;
        }
    }
    true
}

// Whether a row for a product loads into a controller.
fn row_fits(controller: &Controller, row: &KeptRow, product: u16) -> bool
    requires { product < length controller.now.net.products }
    ensures { result ≡ row_fits controller.now.net (loaded_in controller.now) row.now product }
{
    let in_range = controller.book().next() <= row.number && row.number <= LAST_KEPT;
    let fits = in_range && 1 <= row.party && row.party <= MOST_PARTY;
    let legs = controller.network().product_at(product).legs.as_slice();
    fits && have_seats(controller, legs, row.party)
}

// The booking that a row gives, if it loads.
fn booking_of(controller: &Controller, row: &KeptRow) -> Option<Booking>
    ensures booking { result ≡ booking_of controller.now.net (loaded_in controller.now) row.now }
    ensures loadable { IfSome result (IsLoadable (book_of controller.now)) }
    ensures low { IfSome result (λ booking. booking.number ≤ LAST_KEPT) }
{
    let product = controller.network().find_product(&row.product)?;
    if !row_fits(controller, row, product) {
        return None;
    }
    Some(Booking {
        number: row.number,
        product,
        party: row.party,
    })
}

/// Loads rows, one behind another.
///
/// # Errors
/// The number of the first row that doesn't load.
pub(crate) fn load_rows(controller: &mut Controller, rows: &[KeptRow]) -> Result<(), u64>
    requires { Represents controller.old (loaded_state controller.old.plan (loaded_in controller.old)) }
    ensures loaded { OnOk result (load_behind controller.old.net (loaded_in controller.old) rows.now ≡ Ok (loaded_in controller.new)) }
    ensures refused { IfErr result (λ number. load_behind controller.old.net (loaded_in controller.old) rows.now ≡ Err number) }
    ensures network { controller.new.net ≡ controller.old.net }
    ensures plan { controller.new.plan ≡ controller.old.plan }
    ensures represents { Represents controller.new (loaded_state controller.new.plan (loaded_in controller.new)) }
    ensures sound { IsControl controller.new }
    ensures low { controller.old.next ≤ LATEST_START → controller.new.next ≤ LATEST_START }
{
    controller.limits_hold();
    for row in rows {
        let Some(booking) = booking_of(controller, row) else {
            return Err(row.number);
        };
        controller.load(booking);
    }
    Ok(())
}
