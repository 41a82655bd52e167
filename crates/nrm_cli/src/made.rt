//! A made run: the controller of the network that is made of a number answers the commands that are made of it, and one line
//! sums its replies up.
ghost use Rattle.std.specs.Prelude.{ℕ, Option, IfSome, MatchOption, ◌≡◌, ◌≢◌, ◌<◌, ◌≤◌, ◌+◌, ◌-◌, ◌^◌};
ghost use Rattle.nrm_edge.specs.Fetch.{Folder};
ghost use Rattle.nrm_model.specs.Network.{NetworkValue};
ghost use Rattle.nrm_control.specs.Standing.{ControlValue, IsControl};
ghost use Rattle.nrm_session.specs.Answering.{IsTellable, reply_in};
ghost use Rattle.nrm_session.specs.declared.reply.Reply.TheVariants as answered;
ghost use Rattle.nrm_findings.specs.Summary.{fraction_of};
ghost use Rattle.nrm_gen.specs.MadeCommands.{command_count, made_commands};
ghost use Rattle.nrm_common_cli.specs.Outside.{SentOn};
ghost use Rattle.nrm_cli.specs.Jobs.{run_made as made_job};
ghost use Rattle.nrm_cli.specs.Made.{counted, hindsight_in};
ghost use Rattle.nrm_cli.specs.Inner.Does.{DoesBeside, sink_beside};
ghost use Rattle.nrm_cli.specs.Inner.Parts.{AnswersMade, HasBegun, PutsMade, PutsSummary, rest_of, total_of};

use crate::Status;
use crate::status::STATUSES;
use nrm_control::Controller;
use nrm_edge::Sink;
use nrm_findings::{Counts, line_of_summary};
use nrm_gen::{Maker, made};
use nrm_model::{Mode, Network};
use nrm_session::{Reply, carry_out};
use std::alloc::Global;

// A reply. `None` exactly if memory runs out.
fn with_memory(reply: Reply) -> Option<Reply>
    ensures { MatchOption result (reply ≡ answered.Memory) (λ told. (told ≡ reply) × (reply ≢ answered.Memory)) }
{
    match reply {
        Reply::Memory => None,
        reply => Some(reply),
    }
}

// Counts one reply more. A plan for which nothing was solved counts among those that were optimised.
fn count(counts: &mut Counts, reply: Reply)
    requires { total_of counts.old < 2 ^ 32 - 1 }
    ensures counted { (control : ControlValue) → counts.new ≡ counted counts.old (reply_in control reply) }
    ensures total { total_of counts.new ≤ total_of counts.old + 1 }
{
    match reply {
        Reply::Sold { .. } => counts.sold += 1,
        Reply::NoLeg(_) => counts.no_leg += 1,
        Reply::NoFare => counts.no_fare += 1,
        Reply::Cancelled { .. } => counts.cancelled += 1,
        Reply::Unknown => counts.unknown += 1,
        Reply::Leg(_) => counts.legs += 1,
        Reply::Optimised { .. } | Reply::OptimisedNone => counts.optimised += 1,
        Reply::Overflow => counts.overflow += 1,
        Reply::Bad | Reply::Memory | Reply::Hindsight { .. } | Reply::Plan => {}
    }
}

// The replies to all commands that are left but the last one, counted, and that to the last. `None` where a line runs out of memory.
fn answer_all(
    alloc: Global,
    controller: &mut Controller,
    maker: &mut Maker,
) -> Option<(Counts, Reply)>
    requires next { controller.old.next ≡ 1 }
    requires sound { IsControl controller.old }
    requires within { maker.old.given ≤ command_count }
    ensures { IfSome result (λ made. AnswersMade controller.old controller.new (rest_of maker.old) made.0 made.1) }
{
    let mut counts = Counts::new();
    let mut last = Reply::Bad;
    while let Some(command) = maker.next() {
        count(&mut counts, last);
        last = with_memory(carry_out(alloc, controller, &command))?;
    }
    Some((counts, last))
}

// The value of hindsight that a reply tells, if it does.
fn hindsight_of(reply: Reply) -> Option<(u64, u64)>
    requires { (net : NetworkValue) × IsTellable net reply }
    ensures some { IfSome result (λ value. 0 < value.1) }
    ensures value { (control : ControlValue) → fraction_of result ≡ hindsight_in (reply_in control reply) }
{
    match reply {
        Reply::Hindsight { num, den, .. } => Some((num, den)),
        _ => None,
    }
}

// Answers the commands of a maker and puts the summary, or runs out of memory.
fn put_summary<K: Sink>(
    alloc: Global,
    controller: &mut Controller,
    maker: &mut Maker,
    sink: &mut K,
) -> Status
    requires next { controller.old.next ≡ 1 }
    requires sound { IsControl controller.old }
    requires within { maker.old.given ≤ command_count }
    ensures puts { (net : NetworkValue) (number : ℕ) → HasBegun net controller.old → rest_of maker.old ≡ made_commands number
        → PutsSummary net controller.old.plan number (K.held sink.old) (K.held sink.new) (K.faults sink.old) (K.faults sink.new) result }
    ensures later { K.faults sink.old ≤ K.faults sink.new }
    ensures sent { SentOn Status.WriteFault result (K.unsent sink.old) (K.unsent sink.new) }
{
    match answer_all(alloc, controller, maker) {
        Some((counts, last)) => {
            let revenue = controller.book().revenue();
            STATUSES.put_line(
                sink,
                line_of_summary(&counts, revenue, hindsight_of(last)).bytes(),
                Status::Done,
            )
        }
        None => Status::NoMemory,
    }
}

// Answers the commands of a maker from the opening of a network and puts the summary, or why there is no opening plan.
fn put_run<K: Sink>(
    alloc: Global,
    net: Network,
    mode: Mode,
    maker: &mut Maker,
    sink: &mut K,
) -> Status
    requires { maker.old.given ≤ command_count }
    ensures puts { (number : ℕ) → rest_of maker.old ≡ made_commands number
        → PutsMade net mode number (K.held sink.old) (K.held sink.new) (K.faults sink.old) (K.faults sink.new) result }
    ensures later { K.faults sink.old ≤ K.faults sink.new }
    ensures sent { SentOn Status.WriteFault result (K.unsent sink.old) (K.unsent sink.new) }
{
    match STATUSES.planned_or_told(Controller::start(alloc, net, mode), sink) {
        Ok(mut controller) => put_summary(alloc, &mut controller, maker, sink),
        Err(told) => told,
    }
}

/// Makes the network and the commands of a number, has the controller of this mode answer them, and writes one line that sums the
/// replies up. Where a line runs out of memory nothing is written.
pub(crate) fn run_made<K: Sink>(alloc: Global, mode: Mode, number: u32, sink: &mut K) -> Status
    ensures does { (files : Option Folder) (faults : ℕ) → let at = sink_beside K.held K.faults files faults in
        DoesBeside (made_job mode number) (at sink.old) (at sink.new) result }
    ensures sent { SentOn Status.WriteFault result (K.unsent sink.old) (K.unsent sink.new) }
{
    match made(alloc, number) {
        Ok((net, mut maker)) => put_run(alloc, net, mode, &mut maker, sink),
        Err(_) => Status::NoMemory,
    }
}
