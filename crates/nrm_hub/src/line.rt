//! One line of a client that is a desk: it is carried out, or looked up, or refused, and its reply joins what waits to be told.
ghost use Rattle.std.specs.Prelude.{ℕ, List, ◌≡◌, ◌≢◌, ◌<◌, ◌≤◌, length, true};
ghost use Rattle.nrm_stream.specs.Commands.{IsCommand};
ghost use Rattle.nrm_stream.specs.declared.command.Command.TheVariants as command;
ghost use Rattle.nrm_session.specs.Answering.{IsTellable, reply_in};
ghost use Rattle.nrm_session.specs.Replies.{text_of};
ghost use Rattle.nrm_session.specs.declared.reply.Reply.TheVariants as answered;
ghost use Rattle.nrm_hub.specs.Asked.{allows, asked_in, is_change};
ghost use Rattle.nrm_hub.specs.Inner.Answered.{Hears, IsAnswered};
ghost use Rattle.nrm_hub.specs.Inner.Asking.{IsAsked};
ghost use Rattle.nrm_hub.specs.Lines.{is_same, told_text};
ghost use Rattle.nrm_hub.specs.Register.{desk_at, is_of_row};
ghost use Rattle.nrm_hub.specs.declared.limits.TheConstants.{LAST_SEQUENCE};
ghost use Rattle.nrm_hub.specs.declared.asked.Asked.TheVariants as asked;

use crate::asked::{Asked, is_change};
use crate::limits::{LAST_SEQUENCE, MOST_ROWS};
use crate::outbox::Outbox;
use crate::register::Register;
use crate::text::{line_of_available, reply_line};
use nrm_edge::put_all;
use nrm_frames::{Rights, Why};
use nrm_session::{Reply, put_reply};
use nrm_stream::Command;
use nrm_text::Name;
use std::alloc::Global;

/// What became of a line.
#[derive(Clone, Copy, Debug, PartialEq, Eq)]
pub(crate) enum Taken {
    /// It was answered, and the whole reply waits to be told.
    Told,
    /// It was answered, but memory ran out for its reply, of which a front waits.
    Cut,
    /// It is not answered: the client is to be closed.
    Refused(Why),
}

/// Who asks: a client with these rights that is this desk, by the desk's number, and its number of the line.
#[derive(Clone, Copy)]
pub(crate) struct Asker {
    pub(crate) rights: Rights,
    pub(crate) desk: u32,
    pub(crate) sequence: u64,
}

// Has a text join what waits.
pub(crate) fn tell(told: &mut Outbox, text: &[u8]) -> Taken
    ensures { Hears told.old.waiting told.new.waiting text.now result }
{
    match put_all(told, text) {
        Ok(()) => Taken::Told,
        Err(_) => Taken::Cut,
    }
}

// Whether a command asks for this booking.
fn books(given: &Command, wanted: &Name, seats: u16) -> bool
    ensures { result ≡ is_same (command.Book wanted.now seats) given.now }
{
    match given {
        Command::Book { product, party } => wanted == product && seats == *party,
        _ => false,
    }
}

// Whether two commands that may change something are the same.
fn is_same(one: &Command, other: &Command) -> bool
    ensures { result ≡ is_same one.now other.now }
{
    match one {
        Command::Book { product, party } => books(other, product, *party),
        Command::Cancel { number } => {
            matches!(other, Command::Cancel { number: wanted } if number == wanted)
        }
        Command::Reoptimise { period } => {
            matches!(other, Command::Reoptimise { period: wanted } if period == wanted)
        }
        _ => false,
    }
}

// Has the reply to a command that changes nothing join what waits; behind one of several lines stands an empty line.
fn tell_look(register: &Register, reply: Reply, told: &mut Outbox) -> Taken
    requires { IsTellable register.now.control.net reply }
    ensures { Hears told.old.waiting told.new.waiting (told_text (reply_in register.now.control reply)) result }
{
    if put_reply(register.controller(), reply, told).is_err() {
        return Taken::Cut;
    }
    match reply {
        Reply::Leg(_) | Reply::Plan => tell(told, b"\n"),
        _ => Taken::Told,
    }
}

// Answers a line under a number that was used.
fn repeat(register: &Register, asker: Asker, command: &Command, told: &mut Outbox) -> Taken
    requires desk { asker.desk < length register.now.desks }
    requires changes { is_change command.now ≡ true }
    requires allowed { allows asker.rights register.now.owners asker.desk command.now ≡ true }
    requires used { asker.sequence < (desk_at register.now asker.desk).next }
    ensures { (line : List ℕ) → asked_in line ≡ asked.Says command.now
        → IsAnswered register.now register.now asker.rights asker.desk asker.sequence line told.old.waiting told.new.waiting result }
{
    match register.row_under(asker.desk, asker.sequence) {
        Some(row) if is_same(&row.command, command) => {
            let net = register.controller().network();
            tell(told, reply_line(net, row.reply).bytes())
        }
        Some(_) => Taken::Refused(Why::Sequence),
        None => Taken::Refused(register.reason_used(asker.desk, asker.sequence)),
    }
}

// Has the reply to a line that was carried out join what waits.
fn tell_carried(register: &Register, reply: Reply, told: &mut Outbox) -> Taken
    requires tellable { IsTellable register.now.control.net reply }
    requires of_row { reply ≢ answered.Memory → is_of_row reply ≡ true }
    ensures { Hears told.old.waiting told.new.waiting (text_of (reply_in register.now.control reply)) result }
{
    match reply {
        Reply::Memory => tell(told, b"memory\n"),
        _ => {
            let net = register.controller().network();
            tell(told, reply_line(net, reply).bytes())
        }
    }
}

// Answers a line that may change something, under a number that wasn't used.
fn carry(
    alloc: Global,
    register: &mut Register,
    asker: Asker,
    command: &Command,
    told: &mut Outbox,
) -> Taken
    requires desk { asker.desk < length register.old.desks }
    requires command { IsCommand command.now }
    requires changes { is_change command.now ≡ true }
    requires allowed { allows asker.rights register.old.owners asker.desk command.now ≡ true }
    requires sequence { asker.sequence ≤ LAST_SEQUENCE }
    requires new { (desk_at register.old asker.desk).next ≤ asker.sequence }
    ensures { (line : List ℕ) → asked_in line ≡ asked.Says command.now
        → IsAnswered register.old register.new asker.rights asker.desk asker.sequence line told.old.waiting told.new.waiting result }
{
    if register.rows() >= MOST_ROWS {
        return Taken::Refused(Why::Rows);
    }
    match register.carry(alloc, asker.desk, asker.sequence, command) {
        Err(_) => tell(told, b"memory\n"),
        Ok(reply) => tell_carried(register, reply, told),
    }
}

// Answers a command.
fn answer_command(
    alloc: Global,
    register: &mut Register,
    asker: Asker,
    command: &Command,
    told: &mut Outbox,
) -> Taken
    requires desk { asker.desk < length register.old.desks }
    requires command { IsCommand command.now }
    requires sequence { asker.sequence ≤ LAST_SEQUENCE }
    ensures { (line : List ℕ) → asked_in line ≡ asked.Says command.now
        → IsAnswered register.old register.new asker.rights asker.desk asker.sequence line told.old.waiting told.new.waiting result }
{
    if !register.allows(asker.rights, asker.desk, command) {
        return tell(told, b"denied\n");
    }
    if !is_change(command) {
        let reply = register.pass(alloc, command);
        return tell_look(register, reply, told);
    }
    if asker.sequence < register.next_of(asker.desk) {
        return repeat(register, asker, command, told);
    }
    carry(alloc, register, asker, command, told)
}

// Answers how many seats of a product could be had.
fn answer_ask(register: &Register, asker: Asker, product: &Name, told: &mut Outbox) -> Taken
    ensures { (line : List ℕ) → asked_in line ≡ asked.Ask product.now
        → IsAnswered register.now register.now asker.rights asker.desk asker.sequence line told.old.waiting told.new.waiting result }
{
    if !asker.rights.look {
        return tell(told, b"denied\n");
    }
    tell(
        told,
        line_of_available(register.controller(), product).bytes(),
    )
}

/// Answers a line of a client that is a desk, by what it asks for.
pub(crate) fn answer_line(
    alloc: Global,
    register: &mut Register,
    asker: Asker,
    asked: &Asked,
    told: &mut Outbox,
) -> Taken
    requires desk { asker.desk < length register.old.desks }
    requires limits { IsAsked asked.now }
    ensures { (line : List ℕ) → asked_in line ≡ asked.now
        → IsAnswered register.old register.new asker.rights asker.desk asker.sequence line told.old.waiting told.new.waiting result }
{
    if asker.sequence > LAST_SEQUENCE {
        return Taken::Refused(Why::Sequence);
    }
    match asked {
        Asked::Greeting { .. } => tell(told, b"bad\n"),
        Asked::Ask { product } => answer_ask(register, asker, product, told),
        Asked::Says { command } => answer_command(alloc, register, asker, command, told),
    }
}
