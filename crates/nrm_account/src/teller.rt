//! Who reads a session for the account of one of its lines: each line is carried out as ever, and nothing is written but that account.
ghost use Rattle.std.specs.Prelude.{◌≡◌, ◌<◌, ◌++◌, OnErr, OnOk};
ghost use Rattle.std.specs.Io.KnownBytes.{Appends};
ghost use Rattle.nrm_edge.specs.Causes.{HasCause};
ghost use Rattle.nrm_edge.specs.Pieces.{AppendsFront};
ghost use Rattle.nrm_model.specs.declared.limits.TheConstants.{BOOKING_LIMIT};
ghost use Rattle.nrm_control.specs.Standing.{ControlValue};
ghost use Rattle.nrm_stream.specs.Commands.{IsCommand};
ghost use Rattle.nrm_session.specs.Answering.{IsTellable, reply_in};
ghost use Rattle.nrm_account.specs.Tellers.{Passes, can_tell, passed};
ghost use Rattle.nrm_account.specs.Readings.{planned_by};
ghost use Rattle.nrm_account.specs.Texts.{answer_text, is_accounted};

use crate::reasons::reasons_of;
use nrm_control::Controller;
use nrm_edge::{Failed, Sink, put_all};
use nrm_session::{Clerk, Reply, carry_out, put_reply};
use nrm_stream::Command;
use std::alloc::Global;

/// The line that is asked for, how many lines are left up to and with it, by which line the plan in force was made (0 for the
/// opening), and whether memory ran out as the account was made.
#[derive(Clone, Copy, Debug, PartialEq, Eq)]
pub struct Teller {
    pub asked: u64,
    pub left: u64,
    pub planned: u64,
    pub ran_out: bool,
}

impl Teller {
    ghost use Rattle.std.specs.Prelude.{◌<◌, ◌≤◌, ◌^◌, false};

    /// Before the first line of a session, of which a line is asked for.
    pub fn new(asked: u64) -> Teller
        ensures { result ≡ record { asked = asked; left = asked; planned = 0; ran_out = false } }
    {
        Teller {
            asked,
            left: asked,
            planned: 0,
            ran_out: false,
        }
    }

    // A line was answered.
    fn pass(&mut self, reply: Reply, ran_out: bool)
        requires left { self.old.left ≤ self.old.asked }
        requires asked { self.old.asked < 2 ^ 63 }
        ensures { (control : ControlValue) → self.new ≡ passed self.old (reply_in control reply) ran_out }
    {
        self.planned = planned_by(reply, self.asked - self.left + 1, self.planned);
        self.left = self.left.saturating_sub(1);
        self.ran_out = ran_out;
    }
}

// The line that made the plan in force, after the reply to a line.
fn planned_by(reply: Reply, line: u64, planned: u64) -> u64
    ensures { (control : ControlValue) → result ≡ planned_by (reply_in control reply) line planned }
{
    match reply {
        Reply::Optimised { .. } | Reply::OptimisedNone => line,
        _ => planned,
    }
}

// Whether a reply is told in an account: how a leg stands and what a plan is are texts of their own.
fn is_accounted(reply: Reply) -> bool
    ensures { (control : ControlValue) → result ≡ is_accounted (reply_in control reply) }
{
    !matches!(reply, Reply::Leg(_) | Reply::Plan)
}

// Puts an account: what was made of it before the reply, and then the reply.
fn put_account<K: Sink>(
    controller: &Controller,
    front: &[u8],
    reply: Reply,
    sink: &mut K,
) -> Result<(), Failed>
    requires { IsTellable controller.now.net reply }
    ensures whole { OnOk result (Appends (K.held sink.old) (K.held sink.new)
        (front.now ++ answer_text (reply_in controller.now reply))) }
    ensures cut { OnErr result (AppendsFront (K.held sink.old) (K.held sink.new)
        (front.now ++ answer_text (reply_in controller.now reply))) }
    ensures cause { HasCause (K.faults sink.old) (K.faults sink.new) result }
{
    put_all(sink, front)?;
    if !is_accounted(reply) {
        return Ok(());
    }
    put_all(sink, b"answer ")?;
    put_reply(controller, reply, sink)
}

// Carries a line out, and passes it.
fn pass_line(
    alloc: Global,
    controller: &mut Controller,
    teller: &mut Teller,
    command: &Command,
    ran_out: bool,
) -> Reply
    requires command { IsCommand command.now }
    requires next { controller.old.next < BOOKING_LIMIT }
    requires ready { can_tell (controller.old, teller.old) }
    ensures passes { Passes (controller.old, teller.old) (controller.new, teller.new) command.now (reply_in controller.new result) ran_out }
    ensures tellable { IsTellable controller.new.net result }
{
    let reply = carry_out(alloc, controller, command);
    teller.pass(reply, ran_out);
    reply
}

/// A controller that is read for the account of a line.
pub struct Telling;

impl Clerk<Teller> for Telling {
    ghost use Rattle.nrm_account.specs.Tellers.{Tells, TellsCut, can_tell};

    ghost ready = { can_tell };

    ghost whole = { Tells };

    ghost cut = { TellsCut };

    fn answer<K: Sink>(
        alloc: Global,
        controller: &mut Controller,
        beside: &mut Teller,
        command: &Command,
        sink: &mut K,
    ) -> Result<(), Failed> {
        if beside.left != 1 {
            pass_line(alloc, controller, beside, command, beside.ran_out);
            return Ok(());
        }
        match reasons_of(alloc, controller, beside.asked, beside.planned, command) {
            Ok(front) => {
                let reply = pass_line(alloc, controller, beside, command, beside.ran_out);
                put_account(controller, &front, reply, sink)
            }
            Err(_) => {
                pass_line(alloc, controller, beside, command, true);
                Ok(())
            }
        }
    }
}
