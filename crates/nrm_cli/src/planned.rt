//! Puts the opening plan of a network.
ghost use Rattle.std.specs.Prelude.{◌≡◌, ◌≤◌, [], OnErr, OnOk};
ghost use Rattle.std.specs.Io.KnownBytes.{Appends};
ghost use Rattle.nrm_edge.specs.Causes.{HasCause};
ghost use Rattle.nrm_edge.specs.Pieces.{AppendsCut};
ghost use Rattle.nrm_plan.specs.Plans.{IsPlanOf};
ghost use Rattle.nrm_report.specs.Texts.{plan_text};
ghost use Rattle.nrm_common_cli.specs.Outside.{SentOn};
ghost use Rattle.nrm_cli.specs.Inner.Parts.{PutsPlan};

use crate::Status;
use crate::status::STATUSES;
use nrm_edge::{Failed, Sink};
use nrm_model::{Mode, Network};
use nrm_plan::Plan;
use nrm_report::plan_text;
use std::alloc::Global;

// Puts the text of a plan, and sends it on.
fn send_plan<K: Sink>(net: &Network, plan: &Plan, sink: &mut K) -> Result<(), Failed>
    requires { IsPlanOf net.now plan.now }
    ensures whole { OnOk result (Appends (K.held sink.old) (K.held sink.new) (plan_text net.now plan.now)) }
    ensures cut { OnErr result (AppendsCut (K.held sink.old) (K.held sink.new) (plan_text net.now plan.now)) }
    ensures sent { OnOk result (K.unsent sink.new ≡ []) }
    ensures cause { HasCause (K.faults sink.old) (K.faults sink.new) result }
{
    plan_text(net, plan, sink)?;
    sink.flush()
}

/// Makes the opening plan of a network and puts its text.
pub(crate) fn put_plan<K: Sink>(alloc: Global, net: &Network, mode: Mode, sink: &mut K) -> Status
    ensures puts { PutsPlan net.now mode (K.held sink.old) (K.held sink.new) (K.faults sink.old) (K.faults sink.new) result }
    ensures later { K.faults sink.old ≤ K.faults sink.new }
    ensures sent { SentOn Status.WriteFault result (K.unsent sink.old) (K.unsent sink.new) }
{
    let plan = match STATUSES.planned_or_told(Plan::opening(alloc, net, mode), sink) {
        Ok(plan) => plan,
        Err(told) => return told,
    };
    match send_plan(net, &plan, sink) {
        Ok(()) => Status::Done,
        Err(_) => Status::WriteFault,
    }
}
