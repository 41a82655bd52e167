//! Frames over a stream: each whole frame of what came is carried out, and all that is due is sent on, before more is taken.
ghost use Rattle.std.specs.Prelude.{ℕ, ◌≡◌, ◌≢◌, [], None, Some, OnErr, OnOk};
ghost use Rattle.nrm_edge.specs.Causes.{HasCause};
ghost use Rattle.nrm_control.specs.Standing.{ControlValue};
ghost use Rattle.nrm_frames.specs.Cutting.{cut_of, part};
ghost use Rattle.nrm_hub.specs.Goes.{Puts};
ghost use Rattle.nrm_hub.specs.Hub.{new_hub};
ghost use Rattle.nrm_session.specs.Serving.{Streams, streams};
ghost use Rattle.nrm_desks_cli.specs.Inner.Serving.{EndsWith, GoesOnFirst, HandlesFirst, PutsOrCut, ServesTo, Stands, StandsOr};
ghost use Rattle.nrm_desks_cli.specs.Inner.Serving.{TakesOr, at_sink, end_of};
ghost use Rattle.nrm_desks_cli.specs.Served.{IsDone, IsOpen};
ghost use Rattle.nrm_desks_cli.specs.declared.serving.ServeEnd.TheVariants as end;

use crate::handling::{Handled, answer_round, handle};
use crate::incoming::Incoming;
use nrm_edge::{Failed, Sink, Source};
use nrm_frames::{Cut, cut_frame};
use nrm_hub::{AgainFault, Hub};
use std::alloc::Global;

// No more bytes than this are counted.
const MOST_BYTES: u64 = 4_611_686_018_427_387_904;

/// How the serving of frames ended.
#[derive(Clone, Copy, Debug, PartialEq, Eq)]
pub(crate) enum ServeEnd {
    /// The last frame came, or the input ended between two frames.
    Done,
    /// A take failed.
    ReadFault,
    /// A put failed, or sending on what was put.
    WriteFault,
    /// More bytes came than are counted.
    TooLong,
    /// What came is no frame, or no frame may come there.
    NoFrame,
    /// Rows that were given again are none, or not what the program answers; or memory ran out for them.
    NotAgain(AgainFault),
}

// What is done with the first frame that waits, if a whole one does, and how many bytes it has.
fn handle_first<K: Sink>(
    alloc: Global,
    hub: &mut Hub,
    waiting: &[u8],
    sink: &mut K,
) -> Option<(Handled, usize)>
    requires still { IsOpen hub.old }
    ensures first { HandlesFirst hub.old hub.new waiting.now (K.held sink.old) (K.held sink.new)
        (K.faults sink.old) (K.faults sink.new) result }
    ensures still { GoesOnFirst result → IsOpen hub.new }
{
    match cut_frame(waiting) {
        Cut::Part => None,
        Cut::NoFrame => Some((Handled::NoFrame, 0)),
        Cut::Whole {
            header,
            payload,
            rest,
        } => {
            let handled = handle(alloc, hub, header, payload, sink);
            Some((handled, waiting.len() - rest.len()))
        }
    }
}

// How the serving of frames ended, by what was done with a frame, if it ended.
fn end_of(handled: Handled) -> Option<ServeEnd>
    ensures { result ≡ end_of handled }
{
    match handled {
        Handled::GoesOn => None,
        Handled::Ended => Some(ServeEnd::Done),
        Handled::NoFrame => Some(ServeEnd::NoFrame),
        Handled::NotAgain(fault) => Some(ServeEnd::NotAgain(fault)),
        Handled::Cut => Some(ServeEnd::WriteFault),
    }
}

// Does what all whole frames say that wait. Gives why it stopped before the last one, if it did.
fn handle_all<K: Sink>(
    alloc: Global,
    hub: &mut Hub,
    incoming: &mut Incoming,
    sink: &mut K,
) -> Option<ServeEnd>
    requires still { IsOpen hub.old }
    ensures stands { (start : ControlValue) (before at : Streams) (taken : ℕ)
        → Stands start before (at_sink at (K.held sink.old) (K.faults sink.old)) hub.old incoming.old taken
        → StandsOr start before (at_sink at (K.held sink.new) (K.faults sink.new)) (K.faults sink.old) hub.new incoming.new taken result }
    ensures still { result ≡ None → IsOpen hub.new }
{
    while let Some((handled, used)) = handle_first(alloc, hub, incoming.waiting(), sink) {
        if let Some(end) = end_of(handled) {
            return Some(end);
        }
        incoming.used(used);
    }
    None
}

// Gives clients their turns, once clients may come, and sends on what is due.
fn send_due<K: Sink>(alloc: Global, hub: &mut Hub, sink: &mut K) -> Result<(), Failed>
    requires { IsOpen hub.old }
    ensures puts { OnOk result (Puts hub.old hub.new [] (K.held sink.old) (K.held sink.new)) }
    ensures cut { OnErr result (PutsOrCut hub.old hub.new (K.held sink.old) (K.held sink.new)) }
    ensures done { OnOk result (IsDone hub.new) }
    ensures sent { OnOk result (K.unsent sink.new ≡ []) }
    ensures cause { HasCause (K.faults sink.old) (K.faults sink.new) result }
{
    answer_round(alloc, hub, sink)?;
    sink.flush()
}

// Sends on what was put before an end.
fn end_with<K: Sink>(sink: &mut K, told: ServeEnd) -> ServeEnd
    ensures ends { EndsWith told (K.held sink.old) (K.held sink.new) (K.faults sink.old) (K.faults sink.new) result }
    ensures sent { result ≢ end.WriteFault → K.unsent sink.new ≡ [] }
{
    if let ServeEnd::WriteFault = told {
        return told;
    }
    match sink.flush() {
        Ok(()) => told,
        Err(_) => ServeEnd::WriteFault,
    }
}

// Does what all whole frames say that wait, and sends on what is due. Gives why it stopped before the last one, if it did.
fn serve_piece<K: Sink>(
    alloc: Global,
    hub: &mut Hub,
    incoming: &mut Incoming,
    sink: &mut K,
) -> Option<ServeEnd>
    requires still { IsOpen hub.old }
    ensures stands { (start : ControlValue) (before at : Streams) (taken : ℕ)
        → Stands start before (at_sink at (K.held sink.old) (K.faults sink.old)) hub.old incoming.old taken
        → StandsOr start before (at_sink at (K.held sink.new) (K.faults sink.new)) (K.faults sink.old) hub.new incoming.new taken result }
    ensures done { result ≡ None → IsDone hub.new }
    ensures sent { result ≢ Some end.WriteFault → K.unsent sink.new ≡ [] }
{
    if let Some(end) = handle_all(alloc, hub, incoming, sink) {
        return Some(end_with(sink, end));
    }
    match send_due(alloc, hub, sink) {
        Ok(()) => None,
        Err(_) => Some(ServeEnd::WriteFault),
    }
}

// Takes more bytes. Gives why none came, if it is so: the input has ended, between two frames or within one, or the source failed.
fn take_more<S: Source>(incoming: &mut Incoming, source: &mut S) -> Result<usize, ServeEnd>
    requires { cut_of incoming.old ≡ part }
    ensures { TakesOr incoming.old incoming.new (S.coming source.old) (S.coming source.new)
        (S.faults source.old) (S.faults source.new) result }
{
    match incoming.take(source) {
        Ok(0) if incoming.waiting().is_empty() => Err(ServeEnd::Done),
        Ok(0) => Err(ServeEnd::NoFrame),
        Ok(count) => Ok(count),
        Err(_) => Err(ServeEnd::ReadFault),
    }
}

/// Serves frames until the last one, or the end of the input.
pub(crate) fn serve<S: Source, K: Sink>(
    alloc: Global,
    hub: &mut Hub,
    incoming: &mut Incoming,
    source: &mut S,
    sink: &mut K,
) -> ServeEnd
    requires begins { hub.old ≡ new_hub hub.old.register.control }
    requires nothing { incoming.old ≡ [] }
    ensures serves { let at = streams S.coming S.faults K.held K.faults in
        ServesTo hub.old.register.control (at source.old sink.old) (at source.new sink.new) result }
    ensures source { result ≢ end.ReadFault → S.faults source.new ≡ S.faults source.old }
    ensures sink { result ≢ end.WriteFault → K.faults sink.new ≡ K.faults sink.old }
    ensures sent { result ≢ end.WriteFault → K.unsent sink.old ≡ [] → K.unsent sink.new ≡ [] }
{
    let mut taken = 0;
    while taken < MOST_BYTES {
        match take_more(incoming, source) {
            Ok(count) => taken += count as u64,
            Err(end) => return end,
        }
        if let Some(end) = serve_piece(alloc, hub, incoming, sink) {
            return end;
        }
    }
    ServeEnd::TooLong
}
