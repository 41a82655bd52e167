//! Rows of the journal as they are written, and the lines that only the hub writes.
ghost use Rattle.std.specs.Prelude.{◌≡◌, ◌≤◌, ◌<◌, ◌+◌, ◌++◌, length, pos, true};
ghost use Rattle.nrm_model.specs.Network.{product_named};
ghost use Rattle.nrm_control.specs.Standing.{ControlValue};
ghost use Rattle.nrm_stream.specs.Commands.{IsCommand};
ghost use Rattle.nrm_session.specs.Answering.{IsTellable, reply_in};
ghost use Rattle.nrm_fraction.specs.Fraction.{◌over◌};
ghost use Rattle.nrm_control.specs.Standing.{IsOnNetwork};
ghost use Rattle.nrm_session.specs.Replies.{cancelled, no_leg, optimised, reply_to, sold, text_of};
ghost use Rattle.nrm_hub.specs.Inner.Told.{available_text, bound_text};
ghost use Rattle.nrm_hub.specs.Lines.{at_line, available_line};
ghost use Rattle.nrm_hub.specs.Register.{is_of_row};
ghost use Rattle.nrm_hub.specs.Rows.{row_text};

use nrm_account::largest_party;
use nrm_control::{Answer, Controller};
use nrm_model::{MOST_PARTY, Network};
use nrm_session::Reply;
use nrm_stream::Command;
use nrm_text::{Name, Text};

/// The most bytes of a row, and of a line of the hub.
pub(crate) const ROW_ROOM: usize = 192;

/// A text of at most so many bytes.
pub(crate) type RowText = Text<ROW_ROOM>;

// Appends a word and two numbers.
#[tactic(auto, using(nrm_text::proofs::Decimals::short_decimal))]
fn push_cancelled(line: &mut RowText, number: u64, refund: u64)
    requires { length line.old ≤ 100 }
    ensures { line.new ≡ line.old ++ text_of (cancelled number refund) }
{
    line.push_bytes(b"cancelled");
    line.push_spaced(number);
    line.push_spaced(refund);
    line.push_bytes(b"\n");
}

// Appends the value of a new plan.
#[tactic(auto, using(nrm_text::proofs::Fractions::short_fraction))]
fn push_optimised(line: &mut RowText, num: u64, den: u64)
    requires room { length line.old ≤ 100 }
    requires some { 1 ≤ den }
    ensures { line.new ≡ line.old ++ text_of (optimised (pos num over den)) }
{
    line.push_bytes(b"optimised ");
    line.push_fraction(i128::from(num), u128::from(den));
    line.push_bytes(b"\n");
}

// Appends the line of a request that was sold.
#[tactic(auto, using(nrm_text::proofs::Decimals::short_decimal))]
fn push_sold(line: &mut RowText, number: u64)
    requires { length line.old ≤ 100 }
    ensures { line.new ≡ line.old ++ text_of (sold number) }
{
    line.push_bytes(b"ok");
    line.push_spaced(number);
    line.push_bytes(b"\n");
}

// Appends the line of a request that a leg refused.
fn push_refused(line: &mut RowText, leg: &Name)
    requires { length line.old ≤ 100 }
    ensures { line.new ≡ line.old ++ text_of (no_leg leg.now) }
{
    line.push_bytes(b"no ");
    line.push_name(leg);
    line.push_bytes(b"\n");
}

/// Appends the line of a reply that a row may have.
pub(crate) fn push_reply(line: &mut RowText, net: &Network, reply: Reply)
    requires room { length line.old ≤ 100 }
    requires tellable { IsTellable net.now reply }
    requires of_row { is_of_row reply ≡ true }
    ensures { (control : ControlValue) → control.net ≡ net.now → line.new ≡ line.old ++ text_of (reply_in control reply) }
{
    match reply {
        Reply::Sold { number } => push_sold(line, number),
        Reply::NoLeg(leg) => push_refused(line, &net.leg_at(leg).name),
        Reply::NoFare => line.push_bytes(b"no fare\n"),
        Reply::Cancelled { number, refund } => push_cancelled(line, number, refund),
        Reply::Optimised { num, den } => push_optimised(line, num, den),
        Reply::OptimisedNone => line.push_bytes(b"optimised none\n"),
        Reply::Overflow => line.push_bytes(b"overflow\n"),
        _ => line.push_bytes(b"unknown\n"),
    }
}

/// The line of a reply that a row may have.
pub(crate) fn reply_line(net: &Network, reply: Reply) -> RowText
    requires tellable { IsTellable net.now reply }
    requires of_row { is_of_row reply ≡ true }
    ensures { (control : ControlValue) → control.net ≡ net.now → result ≡ text_of (reply_in control reply) }
{
    let mut line = RowText::new();
    push_reply(&mut line, net, reply);
    line
}

/// A row of the journal.
#[tactic(auto, using(nrm_text::proofs::Decimals::short_decimal))]
pub(crate) fn row_line(
    number: u64,
    desk: &Name,
    sequence: u64,
    command: &Command,
    net: &Network,
    reply: Reply,
) -> RowText
    requires command { IsCommand command.now }
    requires tellable { IsTellable net.now reply }
    requires of_row { is_of_row reply ≡ true }
    ensures { (control : ControlValue) → control.net ≡ net.now
        → result ≡ row_text number desk.now sequence command.now (reply_in control reply) }
{
    let mut line = RowText::new();
    line.push_u64(number);
    line.push_bytes(b"\t");
    line.push_name(desk);
    line.push_bytes(b"\t");
    line.push_u64(sequence);
    line.push_bytes(b"\t");
    command.push_to(&mut line);
    line.push_bytes(b"\t");
    push_reply(&mut line, net, reply);
    line
}

/// The line that greets a desk: the number of its next line.
#[tactic(auto, using(nrm_text::proofs::Decimals::short_decimal))]
pub(crate) fn line_of_greeting(number: u64) -> RowText
    ensures { result ≡ at_line number }
{
    let mut line = RowText::of_bytes(b"at");
    line.push_spaced(number);
    line.push_bytes(b"\n");
    line
}

// Appends what bounds a party, by the answer to a seat more.
fn push_bound(line: &mut RowText, net: &Network, answer: Answer)
    requires on { IsOnNetwork net.now answer }
    requires room { length line.old ≤ 60 }
    ensures { line.new ≡ line.old ++ bound_text (reply_to net.now answer) }
{
    match answer {
        Answer::Sold { .. } => {}
        Answer::Leg(leg) => {
            line.push_bytes(b" leg ");
            line.push_name(&net.leg_at(leg).name);
        }
        Answer::Fare => line.push_bytes(b" fare"),
    }
    line.push_bytes(b"\n");
}

// Appends how many seats of a product could be had, and what bounds them.
fn push_available(line: &mut RowText, controller: &Controller, product: u16)
    requires product { product < length controller.now.net.products }
    requires room { length line.old ≤ 30 }
    ensures { line.new ≡ line.old ++ available_text controller.now product }
{
    let party = largest_party(controller, product);
    line.push_spaced(u64::from(party));
    if party < MOST_PARTY {
        push_bound(
            line,
            controller.network(),
            controller.verdict(product, party + 1),
        );
    } else {
        line.push_bytes(b" most\n");
    }
}

/// The line that says how many seats of a product could be had.
pub(crate) fn line_of_available(controller: &Controller, product: &Name) -> RowText
    ensures { result ≡ available_line controller.now product.now (product_named controller.now.net product.now) }
{
    let mut line = RowText::of_bytes(b"ask ");
    line.push_name(product);
    match controller.network().find_product(product) {
        Some(product) => push_available(&mut line, controller, product),
        None => line.push_bytes(b" unknown\n"),
    }
    line
}
