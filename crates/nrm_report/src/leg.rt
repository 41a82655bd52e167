//! The leg text: a line for the leg, and one for each product on it with a seat sold.
ghost use Rattle.std.specs.Prelude.{◌≡◌, ◌<◌, ◌∷◌, [], codes, decimal, flat_map, length, OnErr, OnOk};
ghost use Rattle.std.specs.Io.KnownBytes.{Appends};
ghost use Rattle.nrm_edge.specs.Causes.{HasCause};
ghost use Rattle.nrm_edge.specs.Pieces.{AppendsFront};
ghost use Rattle.nrm_text.specs.Words.{text_line};
ghost use Rattle.nrm_model.specs.Inventory.{inventory_of, products_on};
ghost use Rattle.nrm_report.specs.Texts.{leg_line, leg_text, on_line, sold_line};

use crate::line::{ROOM, names_on_leg};
use nrm_book::Book;
use nrm_edge::{Failed, Sink, put_all};
use nrm_model::Network;
use nrm_text::{Name, Text};

// The line of a leg, from its numbers.
fn line_of_leg(name: &Name, seats: u16, authorised: u16, sold: u16, left: u16) -> Text<ROOM>
    ensures { result
        ≡ text_line (codes "leg" ∷ name.now ∷ codes "seats" ∷ decimal seats ∷ codes "authorised" ∷ decimal authorised
        ∷ codes "sold" ∷ decimal sold ∷ codes "left" ∷ decimal left ∷ []) }
{
    let mut line = Text::of_bytes(b"leg ");
    line.push_name(name);
    line.push_count(b"seats", u64::from(seats));
    line.push_count(b"authorised", u64::from(authorised));
    line.push_count(b"sold", u64::from(sold));
    line.push_count(b"left", u64::from(left));
    line.push_bytes(b"\n");
    line
}

// The line of a product on a leg, with the seats that it has sold.
fn line_of_product(leg: &Name, product: &Name, sold: u16) -> Text<ROOM>
    ensures { result ≡ text_line (codes "on" ∷ leg.now ∷ product.now ∷ decimal sold ∷ []) }
{
    let mut line = names_on_leg(b"on", leg, product);
    line.push_spaced(u64::from(sold));
    line.push_bytes(b"\n");
    line
}

// Puts the line of a product on a leg, where it has sold a seat.
fn put_product<K: Sink>(
    net: &Network,
    leg: u8,
    product: u16,
    sold: u16,
    sink: &mut K,
) -> Result<(), Failed>
    requires leg { leg < length net.now.legs }
    requires product { product < length net.now.products }
    ensures whole { OnOk result (Appends (K.held sink.old) (K.held sink.new) (sold_line net.now leg product sold)) }
    ensures cut { OnErr result (AppendsFront (K.held sink.old) (K.held sink.new) (sold_line net.now leg product sold)) }
    ensures cause { HasCause (K.faults sink.old) (K.faults sink.new) result }
{
    if sold == 0 {
        return Ok(());
    }
    let line = line_of_product(&net.leg_at(leg).name, &net.product_at(product).name, sold);
    put_all(sink, line.bytes())
}

// The line of the leg.
fn line_for_leg(net: &Network, book: &Book, leg: u8) -> Text<ROOM>
    requires book { book.now.inventory ≡ inventory_of net.now }
    requires leg { leg < length net.now.legs }
    ensures { result ≡ leg_line net.now book.now.bookings leg }
{
    let its = net.leg_at(leg);
    let left = book.left(leg);
    line_of_leg(
        &its.name,
        its.seats,
        its.authorised,
        its.authorised - left,
        left,
    )
}

// Puts the lines of the products on the leg, in file order.
fn put_products<K: Sink>(net: &Network, book: &Book, leg: u8, sink: &mut K) -> Result<(), Failed>
    requires book { book.now.inventory ≡ inventory_of net.now }
    requires leg { leg < length net.now.legs }
    ensures whole { OnOk result (Appends (K.held sink.old) (K.held sink.new)
        (flat_map (on_line net.now book.now.bookings leg) (products_on (inventory_of net.now) leg))) }
    ensures cut { OnErr result (AppendsFront (K.held sink.old) (K.held sink.new)
        (flat_map (on_line net.now book.now.bookings leg) (products_on (inventory_of net.now) leg))) }
    ensures cause { HasCause (K.faults sink.old) (K.faults sink.new) result }
{
    for product in net.products_on(leg) {
        put_product(net, leg, *product, book.sold(*product), sink)?;
    }
    Ok(())
}

/// Puts how a leg stands: `leg NAME seats s authorised u sold a left b`, then `on LEG PRODUCT a` for each product on it, in file
/// order, with a seat sold.
///
/// # Errors
/// A put failed; a front of the text went out.
pub fn leg_text<K: Sink>(net: &Network, book: &Book, leg: u8, sink: &mut K) -> Result<(), Failed>
    requires book { book.now.inventory ≡ inventory_of net.now }
    requires leg { leg < length net.now.legs }
    ensures whole { OnOk result (Appends (K.held sink.old) (K.held sink.new) (leg_text net.now book.now.bookings leg)) }
    ensures cut { OnErr result (AppendsFront (K.held sink.old) (K.held sink.new) (leg_text net.now book.now.bookings leg)) }
    ensures cause { HasCause (K.faults sink.old) (K.faults sink.new) result }
{
    put_all(sink, line_for_leg(net, book, leg).bytes())?;
    put_products(net, book, leg, sink)
}
