//! Serves the stream: the controller of a network file answers each line.
ghost use Rattle.std.specs.Prelude.{◌≡◌, Some};
ghost use Rattle.nrm_model.specs.declared.limits.TheConstants.{MOST_STREAM_BYTES};
ghost use Rattle.nrm_session.specs.Serving.{CountsFaults, Serves, streams};
ghost use Rattle.nrm_common_cli.specs.Outside.{SentOn, outside};
ghost use Rattle.nrm_cli.specs.Inner.Does.{Does};
ghost use Rattle.nrm_cli.specs.Jobs.{run_file as run_job};
ghost use Rattle.nrm_cli.specs.Inner.Parts.{ServesNetwork, status_at};

use crate::Status;
use crate::status::STATUSES;
use nrm_common_cli::open_network;
use nrm_control::Controller;
use nrm_edge::{Files, Sink, Source};
use nrm_model::{MOST_STREAM_BYTES, Mode, Network};
use nrm_session::{End, serve};
use std::alloc::Global;

// The status that goes with the end of a session.
fn status_at(end: End) -> Status
    ensures { result ≡ status_at end }
{
    match end {
        End::Done => Status::Done,
        End::ReadFault => Status::ReadFault,
        End::WriteFault => Status::WriteFault,
        End::TooLong => Status::TooLong,
    }
}

// Answers the lines of a stream, up to the most bytes that it may have.
fn answer_stream<S: Source, K: Sink>(
    alloc: Global,
    controller: &mut Controller,
    source: &mut S,
    sink: &mut K,
) -> End
    requires { controller.old.next ≡ 1 }
    ensures serves { let at = streams S.coming S.faults K.held K.faults in
        Serves controller.old controller.new (at source.old sink.old) (at source.new sink.new) MOST_STREAM_BYTES result }
    ensures counts { let at = streams S.coming S.faults K.held K.faults in
        CountsFaults (at source.old sink.old) (at source.new sink.new) result }
    ensures sent { SentOn Status.WriteFault (status_at result) (K.unsent sink.old) (K.unsent sink.new) }
{
    serve(alloc, controller, source, sink, MOST_STREAM_BYTES)
}

// Answers the lines of the stream from the opening of a network, or puts why there is no opening plan.
fn serve_network<S: Source, K: Sink>(
    alloc: Global,
    net: Network,
    mode: Mode,
    source: &mut S,
    sink: &mut K,
) -> Status
    ensures serves { let at = streams S.coming S.faults K.held K.faults in
        ServesNetwork net mode (at source.old sink.old) (at source.new sink.new) result }
    ensures sent { SentOn Status.WriteFault result (K.unsent sink.old) (K.unsent sink.new) }
{
    match STATUSES.planned_or_told(Controller::start(alloc, net, mode), sink) {
        Ok(mut controller) => status_at(answer_stream(alloc, &mut controller, source, sink)),
        Err(told) => told,
    }
}

/// Opens a network, makes its opening plan, and answers the lines of the stream.
pub(crate) fn run_file<F: Files, S: Source, K: Sink>(
    alloc: Global,
    mode: Mode,
    name: &str,
    files: &mut F,
    source: &mut S,
    sink: &mut K,
) -> Status
    ensures does { let at = outside F.contents F.faults S.coming S.faults K.held K.faults in
        Does (Some (run_job mode name.now)) (at files.old source.old sink.old) (at files.new source.new sink.new) result }
    ensures sent { SentOn Status.WriteFault result (K.unsent sink.old) (K.unsent sink.new) }
{
    match STATUSES.network_or_told(open_network(alloc, files, name), sink) {
        Ok(net) => serve_network(alloc, net, mode, source, sink),
        Err(told) => told,
    }
}
