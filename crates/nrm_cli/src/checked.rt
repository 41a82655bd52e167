//! Checks the certificate of a file against a network.
ghost use Rattle.std.specs.Prelude.{◌≡◌, ◌≤◌, IfOk, length};
ghost use Rattle.nrm_fraction.specs.Large.{size_limit};
ghost use Rattle.nrm_lp.specs.Shape.{HasShape};
ghost use Rattle.nrm_dlp.specs.Programs.{opening_program};
ghost use Rattle.nrm_common_cli.specs.Outside.{SentOn};
ghost use Rattle.nrm_cli.specs.Ends.{status_of};
ghost use Rattle.nrm_cli.specs.Inner.Parts.{ChecksFile, PutsCompared, PutsVerdict};

use crate::Status;
use crate::certificate::open_certificate;
use crate::status::STATUSES;
use nrm_dlp::opening_program;
use nrm_dual::{Verdict, check};
use nrm_edge::{Files, Sink};
use nrm_findings::line_of_verdict;
use nrm_lp::{Certificate, Program};
use nrm_model::Network;
use std::alloc::{AllocError, Global};

// The status that goes with a verdict.
fn status_with(verdict: Verdict) -> Status
    ensures { result ≡ status_of verdict }
{
    match verdict {
        Verdict::Optimal => Status::Done,
        Verdict::WrongShape
        | Verdict::WrongProduct(_)
        | Verdict::WrongLeg(_)
        | Verdict::WrongValue => Status::Wrong,
    }
}

// Puts the verdict on a certificate, by the linear program that was to be had for it; if memory ran out on that there is none.
fn put_compared<K: Sink>(
    net: &Network,
    program: Result<Program, AllocError>,
    certificate: &Certificate,
    sink: &mut K,
) -> Status
    requires shape { HasShape size_limit (length net.now.products) (length net.now.legs) certificate.now }
    requires program { IfOk program (λ program. program ≡ opening_program net.now) }
    ensures puts { PutsCompared net.now certificate.now program
        (K.held sink.old) (K.held sink.new) (K.faults sink.old) (K.faults sink.new) result }
    ensures later { K.faults sink.old ≤ K.faults sink.new }
    ensures sent { SentOn Status.WriteFault result (K.unsent sink.old) (K.unsent sink.new) }
{
    match program {
        Ok(program) => {
            let verdict = check(&program, certificate);
            let line = line_of_verdict(net, verdict);
            STATUSES.put_line(sink, line.bytes(), status_with(verdict))
        }
        Err(_) => Status::NoMemory,
    }
}

// Checks a certificate and puts the verdict.
fn put_checked<K: Sink>(
    alloc: Global,
    net: &Network,
    certificate: &Certificate,
    sink: &mut K,
) -> Status
    requires { HasShape size_limit (length net.now.products) (length net.now.legs) certificate.now }
    ensures puts { PutsVerdict net.now certificate.now (K.held sink.old) (K.held sink.new) (K.faults sink.old) (K.faults sink.new) result }
    ensures later { K.faults sink.old ≤ K.faults sink.new }
    ensures sent { SentOn Status.WriteFault result (K.unsent sink.old) (K.unsent sink.new) }
{
    put_compared(net, opening_program(alloc, net), certificate, sink)
}

/// Opens the certificate for a network and checks it.
pub(crate) fn check_certificate<F: Files, K: Sink>(
    alloc: Global,
    net: &Network,
    name: &str,
    files: &mut F,
    sink: &mut K,
) -> Status
    ensures checks { ChecksFile net.now (F.contents files.old) name.now (K.held sink.old) (K.held sink.new)
        (F.faults files.old) (F.faults files.new) (K.faults sink.old) (K.faults sink.new) result }
    ensures files { F.contents files.new ≡ F.contents files.old }
    ensures later { K.faults sink.old ≤ K.faults sink.new }
    ensures sent { SentOn Status.WriteFault result (K.unsent sink.old) (K.unsent sink.new) }
{
    match open_certificate(alloc, files, name, net) {
        Ok(certificate) => put_checked(alloc, net, &certificate, sink),
        Err(reason) => match reason.line(net) {
            Some(line) => STATUSES.put_line(sink, line.bytes(), reason.status()),
            None => Status::NoMemory,
        },
    }
}
