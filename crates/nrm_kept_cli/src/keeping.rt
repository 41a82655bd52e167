//! Keeps first what a line changes of the book, and only then carries the line out.
ghost use Rattle.std.specs.Prelude.{◌≡◌, ◌<◌, ◌≤◌, OnErr, OnOk};
ghost use Rattle.std.specs.Int.{IsInRange};
ghost use Rattle.nrm_edge.specs.Causes.{counted};
ghost use Rattle.nrm_model.specs.declared.limits.TheConstants.{BOOKING_LIMIT, LAST_BOOKING, MOST_PARTY};
ghost use Rattle.nrm_control.specs.Standing.{Represents};
ghost use Rattle.nrm_control.specs.State.{SeatState};
ghost use Rattle.nrm_stream.specs.Commands.{IsCommand};
ghost use Rattle.nrm_stream.specs.declared.command.Command.TheVariants as command;
ghost use Rattle.nrm_keeper.specs.File.{Same};
ghost use Rattle.nrm_keeper.specs.Rows.{has_failed};
ghost use Rattle.nrm_kept_cli.specs.Inner.Keeping.{KeepsAhead};
ghost use Rattle.nrm_kept_cli.specs.Inner.Reading.{HoweverRead};
ghost use Rattle.nrm_kept_cli.specs.Step.{ChangesBook};

use nrm_control::{Answer, Controller};
use nrm_edge::{Failed, Sink, put_all};
use nrm_keeper::{KeepFault, Keeper, KeptRow};
use nrm_session::{Clerk, answer_line};
use nrm_stream::Command;
use nrm_text::Name;
use std::alloc::Global;

// Keeps what a request will sell.
fn keep_sale<P: Keeper>(
    alloc: Global,
    controller: &Controller,
    keeper: &mut P,
    product: &Name,
    party: u16,
) -> Result<(), KeepFault>
    requires party { IsInRange 1 MOST_PARTY party }
    requires next { controller.now.next < BOOKING_LIMIT }
    ensures kept { OnOk result
        (HoweverRead P.Keeper (KeepsAhead controller.now (command.Book product.now party)) keeper.old keeper.new) }
    ensures same { OnErr result (HoweverRead P.Keeper Same keeper.old keeper.new) }
    ensures changes { OnErr result ((s : SeatState) → Represents controller.now s
        → ChangesBook controller.now.net s (command.Book product.now party)) }
    ensures counts { P.faults keeper.new ≡ counted (has_failed result) (P.faults keeper.old) }
{
    let Some(found) = controller.network().find_product(product) else {
        return Ok(());
    };
    match controller.verdict(found, party) {
        Answer::Sold { number } => {
            let row = KeptRow {
                number,
                product: *product,
                party,
            };
            keeper.add(alloc, row)
        }
        Answer::Leg(_) => Ok(()),
        Answer::Fare => Ok(()),
    }
}

// Drops what a cancellation will remove.
fn keep_cancellation<P: Keeper>(
    alloc: Global,
    controller: &Controller,
    keeper: &mut P,
    number: u64,
) -> Result<(), KeepFault>
    requires number { number ≤ LAST_BOOKING }
    ensures kept { OnOk result (HoweverRead P.Keeper (KeepsAhead controller.now (command.Cancel number)) keeper.old keeper.new) }
    ensures same { OnErr result (HoweverRead P.Keeper Same keeper.old keeper.new) }
    ensures changes { OnErr result ((s : SeatState) → Represents controller.now s
        → ChangesBook controller.now.net s (command.Cancel number)) }
    ensures counts { P.faults keeper.new ≡ counted (has_failed result) (P.faults keeper.old) }
{
    match controller.book().find(number) {
        Some(_) => keeper.drop_row(alloc, number),
        None => Ok(()),
    }
}

// Keeps what a line will change of the book, if it will.
fn keep<P: Keeper>(
    alloc: Global,
    controller: &Controller,
    keeper: &mut P,
    command: &Command,
) -> Result<(), KeepFault>
    requires command { IsCommand command.now }
    requires next { controller.now.next < BOOKING_LIMIT }
    ensures kept { OnOk result (HoweverRead P.Keeper (KeepsAhead controller.now command.now) keeper.old keeper.new) }
    ensures same { OnErr result (HoweverRead P.Keeper Same keeper.old keeper.new) }
    ensures changes { OnErr result ((s : SeatState) → Represents controller.now s → ChangesBook controller.now.net s command.now) }
    ensures counts { P.faults keeper.new ≡ counted (has_failed result) (P.faults keeper.old) }
{
    match command {
        Command::Book { product, party } => keep_sale(alloc, controller, keeper, product, *party),
        Command::Cancel { number } => keep_cancellation(alloc, controller, keeper, *number),
        _ => Ok(()),
    }
}

/// A controller with a keeper beside it: what a line changes of the book is kept first. If the store fails or memory runs out there, the
/// reply says so, and nothing changes.
pub(crate) struct Keeping;

impl<P: Keeper> Clerk<P> for Keeping {
    ghost use Rattle.nrm_session.specs.Clerks.{is_control};
    ghost use Rattle.nrm_kept_cli.specs.Inner.Keeping.{KeptRefines, KeptRefinesCut};

    ghost ready = { is_control };

    ghost whole = { KeptRefines P.Keeper };

    ghost cut = { KeptRefinesCut P.Keeper };

    fn answer<K: Sink>(
        alloc: Global,
        controller: &mut Controller,
        beside: &mut P,
        command: &Command,
        sink: &mut K,
    ) -> Result<(), Failed> {
        match keep(alloc, controller, beside, command) {
            Ok(()) => answer_line(alloc, controller, command, sink),
            Err(KeepFault::Failed) => put_all(sink, b"store\n"),
            Err(KeepFault::NoMemory) => put_all(sink, b"memory\n"),
        }
    }
}
