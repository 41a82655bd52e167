//! Replies: a command is carried out, and its reply put, one line in one piece.
ghost use Rattle.std.specs.Prelude.{◌≡◌, ◌<◌, ◌≤◌, OnErr, OnOk, pos};
ghost use Rattle.std.specs.Int.{IsInRange};
ghost use Rattle.std.specs.Io.KnownBytes.{Appends};
ghost use Rattle.nrm_edge.specs.Causes.{HasCause};
ghost use Rattle.nrm_edge.specs.Pieces.{AppendsFront};
ghost use Rattle.nrm_fraction.specs.Fraction.{◌over◌};
ghost use Rattle.nrm_model.specs.declared.limits.TheConstants.{BOOKING_LIMIT, MOST_PARTY};
ghost use Rattle.nrm_control.specs.Standing.{IsControl};
ghost use Rattle.nrm_stream.specs.Commands.{IsCommand};
ghost use Rattle.nrm_stream.specs.declared.command.Command.TheVariants as command;
ghost use Rattle.nrm_session.specs.Answering.{AnswersLine, CutsLine, IsTellable, reply_in, Steps};
ghost use Rattle.nrm_session.specs.Replies.{cancelled, hindsight_told, no_leg, optimised, sold, text_of};
ghost use Rattle.nrm_session.specs.Inner.Solved.{reply_looking_back, reply_planned, reply_unsolved};

use nrm_control::{Answer, Controller};
use nrm_edge::{Failed, Sink, put_all};
use nrm_report::{leg_text, plan_text};
use nrm_simplex::SolveFault;
use nrm_stream::Command;
use nrm_text::{Name, Text};
use std::alloc::Global;

// The most bytes of a reply with a fraction, and of one of hindsight. A call clears its room before it begins, so each kind of line
// has a call of its own.
const ROOM: usize = 128;

const HINDSIGHT_ROOM: usize = 176;

/// The reply to a line. Legs are named by their numbers in the network.
#[derive(Clone, Copy, Debug, PartialEq, Eq)]
pub enum Reply {
    /// No command.
    Bad,
    /// No product, booking or leg of this name or number, or a period beyond the last.
    Unknown,
    /// The request is sold, under this number.
    Sold {
        number: u64,
    },
    /// This leg refuses the request.
    NoLeg(u8),
    /// The legs have the seats, but the fare is below the sum of their bid prices.
    NoFare,
    /// The booking is cancelled, and this much is given back.
    Cancelled {
        number: u64,
        refund: u64,
    },
    /// A new plan is in force, of this mean value of a history, in whole currency units, in lowest terms.
    Optimised {
        num: u64,
        den: u64,
    },
    /// A new plan is in force, for which no linear program was solved.
    OptimisedNone,
    /// The linear program is too large, and nothing changes.
    Overflow,
    /// Memory ran out, and nothing changes.
    Memory,
    /// No selection of the past requests that fits the authorised seats earns more than this value, in whole currency units, in
    /// lowest terms; the bookings that stand earn this revenue, and this much was withheld from cancelled ones.
    Hindsight {
        num: u64,
        den: u64,
        revenue: u64,
        withheld: u128,
    },
    /// How this leg stands.
    Leg(u8),
    /// The plan in force.
    Plan,
}

// Carries out a `book` line.
fn book(controller: &mut Controller, product: &Name, party: u16) -> Reply
    requires party { IsInRange 1 MOST_PARTY party }
    requires next { controller.old.next < BOOKING_LIMIT }
    ensures step { Steps controller.old controller.new (command.Book product.now party) (reply_in controller.new result) }
    ensures tellable { IsTellable controller.new.net result }
    ensures sound { IsControl controller.new }
{
    match controller.network().find_product(product) {
        None => Reply::Unknown,
        Some(product) => match controller.request(product, party) {
            Answer::Sold { number } => Reply::Sold { number },
            Answer::Leg(leg) => Reply::NoLeg(leg),
            Answer::Fare => Reply::NoFare,
        },
    }
}

// Carries out a `cancel` line.
fn cancel(controller: &mut Controller, number: u64) -> Reply
    ensures step { Steps controller.old controller.new (command.Cancel number) (reply_in controller.new result) }
    ensures tellable { IsTellable controller.new.net result }
    ensures sound { IsControl controller.new }
{
    match controller.cancel(number) {
        None => Reply::Unknown,
        Some(refund) => Reply::Cancelled { number, refund },
    }
}

// The reply to a line whose linear program was not solved.
fn reply_unsolved(why: SolveFault) -> Reply
    ensures { result ≡ reply_unsolved why }
{
    match why {
        SolveFault::Overflow { .. } => Reply::Overflow,
        SolveFault::NoMemory => Reply::Memory,
    }
}

// The reply to a `reoptimise` line, by what the controller answered.
fn reply_planned(answer: Result<Option<(u64, u64)>, SolveFault>) -> Reply
    ensures { result ≡ reply_planned answer }
{
    match answer {
        Ok(Some((num, den))) => Reply::Optimised { num, den },
        Ok(None) => Reply::OptimisedNone,
        Err(why) => reply_unsolved(why),
    }
}

// The reply to a `hindsight` line, by what the controller answered, the revenue and the sum withheld.
fn reply_looking_back(answer: Result<(u64, u64), SolveFault>, revenue: u64, withheld: u128) -> Reply
    ensures { result ≡ reply_looking_back answer revenue withheld }
{
    match answer {
        Ok((num, den)) => Reply::Hindsight {
            num,
            den,
            revenue,
            withheld,
        },
        Err(why) => reply_unsolved(why),
    }
}

// Carries out a `reoptimise` line, which is rare and long.
#[inline(never)]
fn reoptimise(alloc: Global, controller: &mut Controller, period: u8) -> Reply
    requires { 1 ≤ period }
    ensures step { Steps controller.old controller.new (command.Reoptimise period) (reply_in controller.new result) }
    ensures tellable { IsTellable controller.new.net result }
    ensures sound { IsControl controller.new }
{
    if period > controller.network().t() {
        return Reply::Unknown;
    }
    reply_planned(controller.reoptimise(alloc, period))
}

// Carries out a `hindsight` line, which is rare and long.
#[inline(never)]
fn look_back(alloc: Global, controller: &Controller) -> Reply
    ensures step { Steps controller.now controller.now command.Hindsight (reply_in controller.now result) }
    ensures tellable { IsTellable controller.now.net result }
{
    let revenue = controller.book().revenue();
    let withheld = controller.withheld();
    reply_looking_back(controller.hindsight(alloc), revenue, withheld)
}

// Finds the leg of a `leg` line.
fn tell_leg(controller: &Controller, name: &Name) -> Reply
    ensures step { Steps controller.now controller.now (command.Leg name.now) (reply_in controller.now result) }
    ensures tellable { IsTellable controller.now.net result }
{
    match controller.network().find_leg(name) {
        None => Reply::Unknown,
        Some(leg) => Reply::Leg(leg),
    }
}

/// Carries out a command, and gives its reply. It takes memory for `hindsight`, and for `reoptimise` where the mode solves
/// linear programs, and for no other.
#[inline(always)]
pub fn carry_out(alloc: Global, controller: &mut Controller, command: &Command) -> Reply
    requires command { IsCommand command.now }
    requires next { controller.old.next < BOOKING_LIMIT }
    ensures step { Steps controller.old controller.new command.now (reply_in controller.new result) }
    ensures tellable { IsTellable controller.new.net result }
    ensures sound { IsControl controller.new }
{
    controller.limits_hold();
    match command {
        Command::Book { product, party } => book(controller, product, *party),
        Command::Cancel { number } => cancel(controller, *number),
        Command::Reoptimise { period } => reoptimise(alloc, controller, *period),
        Command::Leg { name } => tell_leg(controller, name),
        Command::Plan => Reply::Plan,
        Command::Hindsight => look_back(alloc, controller),
        Command::Bad => Reply::Bad,
    }
}

// Puts the line of a request that was sold.
#[tactic(auto, using(nrm_text::proofs::Decimals::short_decimal))]
fn put_sold<K: Sink>(number: u64, sink: &mut K) -> Result<(), Failed>
    ensures whole { OnOk result (Appends (K.held sink.old) (K.held sink.new) (text_of (sold number))) }
    ensures cut { OnErr result (AppendsFront (K.held sink.old) (K.held sink.new) (text_of (sold number))) }
    ensures cause { HasCause (K.faults sink.old) (K.faults sink.new) result }
{
    let mut line = Text::<24>::new();
    line.push_bytes(b"ok ");
    line.push_u64(number);
    line.push_bytes(b"\n");
    put_all(sink, line.bytes())
}

// Puts the line of a request that a leg refused.
fn put_refused<K: Sink>(leg: &Name, sink: &mut K) -> Result<(), Failed>
    ensures whole { OnOk result (Appends (K.held sink.old) (K.held sink.new) (text_of (no_leg leg.now))) }
    ensures cut { OnErr result (AppendsFront (K.held sink.old) (K.held sink.new) (text_of (no_leg leg.now))) }
    ensures cause { HasCause (K.faults sink.old) (K.faults sink.new) result }
{
    let mut line = Text::<16>::new();
    line.push_bytes(b"no ");
    line.push_name(leg);
    line.push_bytes(b"\n");
    put_all(sink, line.bytes())
}

// Puts the line of a cancellation.
#[tactic(auto, using(nrm_text::proofs::Decimals::short_decimal))]
fn put_cancelled<K: Sink>(number: u64, refund: u64, sink: &mut K) -> Result<(), Failed>
    ensures whole { OnOk result (Appends (K.held sink.old) (K.held sink.new) (text_of (cancelled number refund))) }
    ensures cut { OnErr result (AppendsFront (K.held sink.old) (K.held sink.new) (text_of (cancelled number refund))) }
    ensures cause { HasCause (K.faults sink.old) (K.faults sink.new) result }
{
    let mut line = Text::<52>::new();
    line.push_bytes(b"cancelled ");
    line.push_u64(number);
    line.push_bytes(b" ");
    line.push_u64(refund);
    line.push_bytes(b"\n");
    put_all(sink, line.bytes())
}

// Puts the line of a new plan with its mean value.
#[tactic(auto, using(nrm_text::proofs::Fractions::short_fraction))]
#[inline(never)]
fn put_optimised<K: Sink>(num: u64, den: u64, sink: &mut K) -> Result<(), Failed>
    requires { 1 ≤ den }
    ensures whole { OnOk result (Appends (K.held sink.old) (K.held sink.new) (text_of (optimised (pos num over den)))) }
    ensures cut { OnErr result (AppendsFront (K.held sink.old) (K.held sink.new) (text_of (optimised (pos num over den)))) }
    ensures cause { HasCause (K.faults sink.old) (K.faults sink.new) result }
{
    let mut line = Text::<ROOM>::new();
    line.push_bytes(b"optimised ");
    line.push_fraction(i128::from(num), u128::from(den));
    line.push_bytes(b"\n");
    put_all(sink, line.bytes())
}

// Puts the line of hindsight, with the revenue of the bookings that stand and the sum withheld.
#[tactic(auto, using(nrm_text::proofs::Fractions::short_fraction, nrm_text::proofs::Decimals::short_decimal, crate::proofs::Wholes::short_whole))]
#[inline(never)]
fn put_hindsight<K: Sink>(
    num: u64,
    den: u64,
    revenue: u64,
    withheld: u128,
    sink: &mut K,
) -> Result<(), Failed>
    requires { 1 ≤ den }
    ensures whole { OnOk result (Appends (K.held sink.old) (K.held sink.new) (text_of (hindsight_told (pos num over den) revenue withheld))) }
    ensures cut { OnErr result (AppendsFront (K.held sink.old) (K.held sink.new) (text_of (hindsight_told (pos num over den) revenue withheld))) }
    ensures cause { HasCause (K.faults sink.old) (K.faults sink.new) result }
{
    let mut line = Text::<HINDSIGHT_ROOM>::new();
    line.push_bytes(b"hindsight ");
    line.push_fraction(i128::from(num), u128::from(den));
    line.push_bytes(b" revenue ");
    line.push_u64(revenue);
    line.push_bytes(b" withheld ");
    line.push_whole(withheld);
    line.push_bytes(b"\n");
    put_all(sink, line.bytes())
}

/// Puts the text of a reply: a line in one piece, and of a leg and of a plan as many lines as there are.
///
/// # Errors
/// A put failed; a front of the text went out.
pub fn put_reply<K: Sink>(controller: &Controller, reply: Reply, sink: &mut K) -> Result<(), Failed>
    requires { IsTellable controller.now.net reply }
    ensures whole { OnOk result (Appends (K.held sink.old) (K.held sink.new) (text_of (reply_in controller.now reply))) }
    ensures cut { OnErr result (AppendsFront (K.held sink.old) (K.held sink.new) (text_of (reply_in controller.now reply))) }
    ensures cause { HasCause (K.faults sink.old) (K.faults sink.new) result }
{
    let net = controller.network();
    match reply {
        Reply::Bad => put_all(sink, b"bad\n"),
        Reply::Unknown => put_all(sink, b"unknown\n"),
        Reply::Sold { number } => put_sold(number, sink),
        Reply::NoLeg(leg) => put_refused(&net.leg_at(leg).name, sink),
        Reply::NoFare => put_all(sink, b"no fare\n"),
        Reply::Cancelled { number, refund } => put_cancelled(number, refund, sink),
        Reply::Optimised { num, den } => put_optimised(num, den, sink),
        Reply::OptimisedNone => put_all(sink, b"optimised none\n"),
        Reply::Overflow => put_all(sink, b"overflow\n"),
        Reply::Memory => put_all(sink, b"memory\n"),
        Reply::Hindsight {
            num,
            den,
            revenue,
            withheld,
        } => put_hindsight(num, den, revenue, withheld, sink),
        Reply::Leg(leg) => leg_text(net, controller.book(), leg, sink),
        Reply::Plan => plan_text(net, controller.plan(), sink),
    }
}

/// Carries a command out, and puts its reply.
///
/// # Errors
/// A put failed; a front of the reply went out, and the state is the one after the line.
pub fn answer_line<K: Sink>(
    alloc: Global,
    controller: &mut Controller,
    command: &Command,
    sink: &mut K,
) -> Result<(), Failed>
    requires command { IsCommand command.now }
    requires next { controller.old.next < BOOKING_LIMIT }
    ensures whole { OnOk result (AnswersLine controller.old controller.new command.now (K.held sink.old) (K.held sink.new)) }
    ensures cut { OnErr result (CutsLine controller.old controller.new command.now (K.held sink.old) (K.held sink.new)) }
    ensures cause { HasCause (K.faults sink.old) (K.faults sink.new) result }
    ensures sound { IsControl controller.new }
{
    let reply = carry_out(alloc, controller, command);
    put_reply(controller, reply, sink)
}
