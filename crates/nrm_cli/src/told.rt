//! What is told of the network of a file and nothing else: its canonical file, what there is of a leg, its opening plan, and the verdict on
//! a certificate.
ghost use Rattle.std.specs.Prelude.{ℕ, List, Ok, ◌≡◌, ◌≤◌};
ghost use Rattle.std.specs.Int.{IsInRange};
ghost use Rattle.nrm_cluster.specs.declared.limits.TheConstants.{MOST_GROUPS};
ghost use Rattle.nrm_findings.specs.LegValues.{HasClasses};
ghost use Rattle.nrm_common_cli.specs.Outside.{OnFile, SentOn};
ghost use Rattle.nrm_common_cli.specs.Refusals.{network_under};
ghost use Rattle.nrm_cli.specs.Inner.Does.{DoesBeside, files_and_sink};
ghost use Rattle.nrm_cli.specs.Inner.Parts.{PutsTold};
ghost use Rattle.nrm_cli.specs.Jobs.{IsWithin, telling_of};
ghost use Rattle.nrm_cli.specs.LegTexts.{CutsTold, ValuesTold};
ghost use Rattle.nrm_cli.specs.Tells.{TellsFile};
ghost use Rattle.nrm_cli.specs.declared.status.Status.TheVariants as status;

use crate::Status;
use crate::checked::check_certificate;
use crate::planned::put_plan;
use crate::status::STATUSES;
use nrm_common_cli::open_network;
use nrm_edge::{Files, Sink};
use nrm_findings::{cuts_of, line_of_no_classes, values_on};
use nrm_legdp::ClassFault;
use nrm_model::{Mode, Network};
use nrm_network::print;
use nrm_text::Name;
use std::alloc::Global;

/// What can be told of the network of a file.
#[derive(Clone, Copy)]
pub(crate) enum Telling<'a> {
    /// Its opening plan in a mode: that of period 1 with every authorised seat left.
    Plan(Mode),
    /// The verdict on the certificate of a second file, at period 1 with every authorised seat left.
    Check(&'a str),
    /// Its canonical file.
    Print,
    /// The thresholds that cut the fares on a leg into at most so many groups.
    Cuts(Name, u8),
    /// The classes of a leg, the value of its authorised seats and its protections.
    Values(Name),
}

// Puts the canonical file.
fn put_printed<K: Sink>(alloc: Global, net: &Network, sink: &mut K) -> Status
    ensures puts { PutsTold (TellsFile net.now) (K.held sink.old) (K.held sink.new) (K.faults sink.old) (K.faults sink.new) result }
    ensures later { K.faults sink.old ≤ K.faults sink.new }
    ensures sent { SentOn Status.WriteFault result (K.unsent sink.old) (K.unsent sink.new) }
{
    match print(alloc, net) {
        Ok(file) => STATUSES.put_line(sink, &file, Status::Done),
        Err(_) => Status::NoMemory,
    }
}

// Puts the thresholds of a leg, or that no product uses a leg of this name.
fn put_cuts<K: Sink>(alloc: Global, net: &Network, name: &Name, groups: u8, sink: &mut K) -> Status
    requires { IsInRange 1 MOST_GROUPS groups }
    ensures puts { PutsTold (CutsTold net.now name.now groups)
        (K.held sink.old) (K.held sink.new) (K.faults sink.old) (K.faults sink.new) result }
    ensures later { K.faults sink.old ≤ K.faults sink.new }
    ensures sent { SentOn Status.WriteFault result (K.unsent sink.old) (K.unsent sink.new) }
{
    match cuts_of(alloc, net, name, groups) {
        Ok(Some(text)) => STATUSES.put_line(sink, text.bytes(), Status::Done),
        Ok(None) => STATUSES.put_line(sink, b"no leg\n", Status::NoLeg),
        Err(_) => Status::NoMemory,
    }
}

// Puts the values of a leg, or how many products would be classes, where there are none or too many.
fn put_values<K: Sink>(alloc: Global, net: &Network, name: &Name, sink: &mut K) -> Status
    ensures puts { PutsTold (ValuesTold net.now name.now)
        (K.held sink.old) (K.held sink.new) (K.faults sink.old) (K.faults sink.new) result }
    ensures memory { result ≡ status.NoMemory → HasClasses net.now name.now }
    ensures later { K.faults sink.old ≤ K.faults sink.new }
    ensures sent { SentOn Status.WriteFault result (K.unsent sink.old) (K.unsent sink.new) }
{
    match values_on(alloc, net, name) {
        Ok(text) => STATUSES.put_line(sink, text.bytes(), Status::Done),
        Err(ClassFault::Count(count)) => {
            STATUSES.put_line(sink, line_of_no_classes(count).bytes(), Status::NoClass)
        }
        Err(ClassFault::NoMemory) => Status::NoMemory,
    }
}

// Tells it of the network that a file gave.
fn tell<F: Files, K: Sink>(
    alloc: Global,
    telling: &Telling<'_>,
    net: &Network,
    files: &mut F,
    sink: &mut K,
) -> Status
    requires { IsWithin telling.now }
    ensures does { (file : List ℕ) → OnFile (F.contents files.old) file (λ contents. network_under contents ≡ Ok net.now)
        → let at = files_and_sink F.contents F.faults K.held K.faults in
        DoesBeside (telling_of file telling.now) (at files.old sink.old) (at files.new sink.new) result }
    ensures sent { SentOn Status.WriteFault result (K.unsent sink.old) (K.unsent sink.new) }
{
    match telling {
        Telling::Plan(mode) => put_plan(alloc, net, *mode, sink),
        Telling::Check(certificate) => check_certificate(alloc, net, certificate, files, sink),
        Telling::Print => put_printed(alloc, net, sink),
        Telling::Cuts(leg, groups) => put_cuts(alloc, net, leg, *groups, sink),
        Telling::Values(leg) => put_values(alloc, net, leg, sink),
    }
}

/// Tells it of the network of the file of this name, or why there is none.
pub(crate) fn tell_file<F: Files, K: Sink>(
    alloc: Global,
    name: &str,
    telling: &Telling<'_>,
    files: &mut F,
    sink: &mut K,
) -> Status
    requires { IsWithin telling.now }
    ensures does { let at = files_and_sink F.contents F.faults K.held K.faults in
        DoesBeside (telling_of name.now telling.now) (at files.old sink.old) (at files.new sink.new) result }
    ensures sent { SentOn Status.WriteFault result (K.unsent sink.old) (K.unsent sink.new) }
{
    match STATUSES.network_or_told(open_network(alloc, files, name), sink) {
        Ok(net) => tell(alloc, telling, &net, files, sink),
        Err(told) => told,
    }
}
