//! What a line is accounted for by, kind by kind.
ghost use Rattle.std.specs.Prelude.{◌≡◌, ◌<◌, ◌++◌, length, IfOk, OnOk};
ghost use Rattle.nrm_model.specs.Inventory.{inventory_of};
ghost use Rattle.nrm_account.specs.Texts.{asked_line, cancellation_text, left_line, left_text, reasons};

use crate::line::{ROOM, asked, back, booking, left};
use crate::request::push_request;
use crate::text::push_line;
use nrm_book::{Book, Booking};
use nrm_control::Controller;
use nrm_model::Network;
use nrm_stream::Command;
use nrm_text::Text;
use std::alloc::{AllocError, Global};

// Appends the account of a cancellation.
fn push_cancellation(text: &mut Vec<u8>, net: &Network, live: &Booking) -> Result<(), AllocError>
    requires { live.now.product < length net.now.products }
    ensures { OnOk result (text.new.items ≡ text.old.items ++ cancellation_text net.now live.now) }
{
    let its = net.product_at(live.product);
    let worth = u64::from(live.party) * u64::from(its.fare);
    let refund = worth * u64::from(its.refund) / 100;
    push_line(
        text,
        &booking(live.number, &its.name, live.party, its.fare, its.refund),
    )?;
    push_line(text, &back(refund, worth - refund))
}

// The line of the seats left on a leg.
fn left_line_of(net: &Network, book: &Book, leg: u8) -> Text<ROOM>
    requires book { book.now.inventory ≡ inventory_of net.now }
    requires leg { leg < length net.now.legs }
    ensures { result ≡ left_line net.now book.now.bookings leg }
{
    left(&net.leg_at(leg).name, book.left(leg))
}

// Appends the seats left on each leg.
fn push_left(text: &mut Vec<u8>, net: &Network, book: &Book) -> Result<(), AllocError>
    requires { book.now.inventory ≡ inventory_of net.now }
    ensures { OnOk result (text.new.items ≡ text.old.items ++ left_text net.now book.now.bookings) }
{
    for leg in 0..net.leg_count() as u8 {
        push_line(text, &left_line_of(net, book, leg))?;
    }
    Ok(())
}

// Appends what a line is accounted for by, where `planned` is the number of the line that made the plan in force, or 0.
fn push_reasons(
    alloc: Global,
    text: &mut Vec<u8>,
    controller: &Controller,
    planned: u64,
    command: &Command,
) -> Result<(), AllocError>
    ensures { OnOk result (text.new.items ≡ text.old.items ++ reasons controller.now.net planned controller.now.plan
        controller.now.bookings controller.now.next command.now) }
{
    let net = controller.network();
    match command {
        Command::Book { product, party } => match net.find_product(product) {
            Some(product) => push_request(alloc, text, controller, planned, product, *party),
            None => Ok(()),
        },
        Command::Cancel { number } => match controller.book().find(*number) {
            Some(live) => push_cancellation(text, net, &live),
            None => Ok(()),
        },
        Command::Reoptimise { period } => {
            if 1 <= *period && *period <= net.t() {
                return push_left(text, net, controller.book());
            }
            Ok(())
        }
        Command::Leg { .. } | Command::Hindsight | Command::Plan | Command::Bad => Ok(()),
    }
}

/// The account of a line up to its reply: the line that was asked, and its reasons in the state before it.
///
/// # Errors
/// Memory runs out.
pub(crate) fn reasons_of(
    alloc: Global,
    controller: &Controller,
    line: u64,
    planned: u64,
    command: &Command,
) -> Result<Vec<u8>, AllocError>
    ensures { IfOk result (λ text. text.items ≡ asked_line line command.now ++ reasons controller.now.net planned controller.now.plan
        controller.now.bookings controller.now.next command.now) }
{
    let mut text = Vec::new(alloc);
    push_line(&mut text, &asked(line, command))?;
    push_reasons(alloc, &mut text, controller, planned, command)?;
    Ok(text)
}
