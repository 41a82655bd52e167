//! What is done with one frame, and what behind the last one that waits.
ghost use Rattle.std.specs.Prelude.{◌≡◌, [], length, true, OnErr, OnOk};
ghost use Rattle.nrm_edge.specs.Causes.{HasCause};
ghost use Rattle.nrm_frames.specs.Headers.{size_of};
ghost use Rattle.nrm_frames.specs.declared.header.Header.TheVariants as header;
ghost use Rattle.nrm_hub.specs.Hub.{takes_frames};
ghost use Rattle.nrm_hub.specs.declared.phase.Phase.TheVariants as phase;
ghost use Rattle.nrm_hub.specs.Goes.{Puts, PutsCut};
ghost use Rattle.nrm_desks_cli.specs.Inner.Handling.{Handles, outcome_of};
ghost use Rattle.nrm_desks_cli.specs.Served.{IsDone, IsOpen};
ghost use Rattle.nrm_desks_cli.specs.declared.handling.Handled.TheVariants as handled;

use nrm_edge::{Failed, Sink};
use nrm_frames::{Header, Rights, Why, put_close};
use nrm_hub::{AgainFault, Hub, Opened, Phase};
use nrm_text::Name;
use std::alloc::Global;

/// What was done with a frame.
#[derive(Clone, Copy, Debug, PartialEq, Eq)]
pub(crate) enum Handled {
    /// It was carried out.
    GoesOn,
    /// It was the last.
    Ended,
    /// It may not come there.
    NoFrame,
    /// Rows can't be given again.
    NotAgain(AgainFault),
    /// A put failed.
    Cut,
}

// What was done, where a put was its end.
fn outcome_of(put: Result<(), Failed>) -> Handled
    ensures { result ≡ outcome_of put }
{
    match put {
        Ok(()) => Handled::GoesOn,
        Err(_) => Handled::Cut,
    }
}

// Rows are given again; none say that these were all.
fn again<K: Sink>(alloc: Global, hub: &mut Hub, payload: &[u8], sink: &mut K) -> Handled
    requires { hub.old.phase ≡ phase.Replaying }
    ensures handles { Handles hub.old hub.new (header.Again (length payload.now)) payload.now
        (K.held sink.old) (K.held sink.new) (K.faults sink.old) (K.faults sink.new) result }
    ensures still { result ≡ handled.GoesOn → IsOpen hub.new }
{
    if payload.is_empty() {
        return outcome_of(hub.ready(sink));
    }
    match hub.again(alloc, payload) {
        Ok(()) => Handled::GoesOn,
        Err(fault) => Handled::NotAgain(fault),
    }
}

// A client is opened.
fn open<K: Sink>(
    alloc: Global,
    hub: &mut Hub,
    place: u16,
    name: Name,
    rights: Rights,
    sink: &mut K,
) -> Handled
    requires { takes_frames hub.old.phase ≡ true }
    ensures handles { Handles hub.old hub.new (header.Open place name rights) []
        (K.held sink.old) (K.held sink.new) (K.faults sink.old) (K.faults sink.new) result }
    ensures still { takes_frames hub.new.phase ≡ true }
{
    match hub.open(alloc, place, name, rights) {
        Opened::There => Handled::GoesOn,
        Opened::IsTaken => Handled::NoFrame,
        Opened::NoMemory => outcome_of(put_close(sink, place, Why::Memory)),
    }
}

/// Does what a frame says.
pub(crate) fn handle<K: Sink>(
    alloc: Global,
    hub: &mut Hub,
    header: Header,
    payload: &[u8],
    sink: &mut K,
) -> Handled
    requires payload { length payload.now ≡ size_of header }
    requires still { IsOpen hub.old }
    ensures handles { Handles hub.old hub.new header payload.now
        (K.held sink.old) (K.held sink.new) (K.faults sink.old) (K.faults sink.new) result }
    ensures still { result ≡ handled.GoesOn → IsOpen hub.new }
{
    match header {
        Header::End => {
            hub.ended();
            Handled::Ended
        }
        Header::Again { .. } if hub.phase() == Phase::Replaying => again(alloc, hub, payload, sink),
        Header::Open {
            place,
            name,
            rights,
        } if hub.takes_frames() => open(alloc, hub, place, name, rights, sink),
        Header::Came { place, .. } if hub.takes_frames() => {
            hub.came(place, payload);
            Handled::GoesOn
        }
        Header::Gone { place } if hub.takes_frames() => {
            hub.gone(place);
            Handled::GoesOn
        }
        Header::Kept if hub.phase() == Phase::Asked => outcome_of(hub.kept(alloc, sink)),
        _ => Handled::NoFrame,
    }
}

/// Takes a round of the clients' turns, once clients may come.
///
/// # Errors
/// A put failed.
pub(crate) fn answer_round<K: Sink>(
    alloc: Global,
    hub: &mut Hub,
    sink: &mut K,
) -> Result<(), Failed>
    requires { IsOpen hub.old }
    ensures puts { OnOk result (Puts hub.old hub.new [] (K.held sink.old) (K.held sink.new)) }
    ensures cut { OnErr result (PutsCut hub.old hub.new [] (K.held sink.old) (K.held sink.new)) }
    ensures done { OnOk result (IsDone hub.new) }
    ensures cause { HasCause (K.faults sink.old) (K.faults sink.new) result }
{
    if !hub.takes_frames() {
        return Ok(());
    }
    hub.take_round(alloc, sink)
}
