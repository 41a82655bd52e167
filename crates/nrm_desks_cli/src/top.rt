//! The top call of the program of many desks.
ghost use Rattle.std.specs.Prelude.{◌≡◌, Some, is_some, map, option_map, string_bytes};
ghost use Rattle.nrm_account.specs.Laws.{LargestPartiesAreSold};
ghost use Rattle.nrm_frames.specs.Frames.{FramesDontDependOnPieces};
ghost use Rattle.nrm_hub.specs.Desks.{DesksAreServed, RightsHold, RowsGiveTheState};
ghost use Rattle.nrm_common_cli.specs.Outside.{SentOn, outside};
ghost use Rattle.nrm_session.specs.Hindsight.{HindsightBounds};
ghost use Rattle.nrm_session.specs.Laws.{RunsOversellNoLeg};
ghost use Rattle.nrm_desks_cli.specs.Ends.{Ends};
ghost use Rattle.nrm_desks_cli.specs.Inner.Parts.{job_in};
ghost use Rattle.nrm_desks_cli.specs.Inner.Ending.{EndsServing, PutsFault};
ghost use Rattle.nrm_desks_cli.specs.Jobs.{desks_job_of};

use crate::DesksStatus;
use crate::incoming::Incoming;
use crate::serving::{ServeEnd, serve};
use crate::status::STATUSES;
use nrm_common_cli::{mode_in, open_network};
use nrm_control::Controller;
use nrm_edge::{Files, Sink, Source};
use nrm_frames::{put_differs, put_no_row};
use nrm_hub::{AgainFault, Hub};
use nrm_model::Mode;
use std::alloc::Global;

// What is written on a usage error.
const USAGE: &[u8] = b"usage: nrm_desks MODE FILE\n";

/// What the words ask for: a mode and a network file.
#[derive(Clone, Copy)]
pub(crate) struct Asked<'a> {
    mode: Mode,
    file: &'a str,
}

// The job that the words ask for, if they ask for one.
fn asked_in(words: &[String]) -> Option<Asked<'_>>
    ensures { option_map job_in result ≡ desks_job_of (map string_bytes words.now) }
{
    match words {
        [mode, file] => match mode_in(mode) {
            Some(mode) => Some(Asked {
                mode,
                file: file.as_str(),
            }),
            None => None,
        },
        _ => None,
    }
}

/// Whether the words (without the program's own name) ask for desks; all others get the usage line. It takes no memory.
pub fn asks_for_desks(words: &[String]) -> bool
    ensures { result ≡ is_some (desks_job_of (map string_bytes words.now)) }
{
    asked_in(words).is_some()
}

// Puts the frame that says at which row rows can't be given again; or memory ran out for them.
fn put_fault<K: Sink>(sink: &mut K, fault: AgainFault) -> DesksStatus
    ensures puts { PutsFault fault (K.held sink.old) (K.held sink.new) (K.faults sink.old) (K.faults sink.new) result }
    ensures sent { SentOn DesksStatus.WriteFault result (K.unsent sink.old) (K.unsent sink.new) }
{
    let (put, status) = match fault {
        AgainFault::NoRow(row) => (put_no_row(sink, row), DesksStatus::NoRow),
        AgainFault::Differs(row) => (put_differs(sink, row), DesksStatus::Differs),
        AgainFault::NoMemory => return DesksStatus::NoMemory,
    };
    if put.is_err() || sink.flush().is_err() {
        return DesksStatus::WriteFault;
    }
    status
}

// Says how the serving of frames ended.
fn end_serving<K: Sink>(sink: &mut K, end: ServeEnd) -> DesksStatus
    ensures ends { EndsServing end (K.held sink.old) (K.held sink.new) (K.faults sink.old) (K.faults sink.new) result }
    ensures sent { SentOn DesksStatus.WriteFault result (K.unsent sink.old) (K.unsent sink.new) }
{
    match end {
        ServeEnd::Done => DesksStatus::Done,
        ServeEnd::ReadFault => DesksStatus::ReadFault,
        ServeEnd::WriteFault => DesksStatus::WriteFault,
        ServeEnd::TooLong => DesksStatus::TooLong,
        ServeEnd::NoFrame => DesksStatus::NoFrame,
        ServeEnd::NotAgain(fault) => put_fault(sink, fault),
    }
}

// Opens the network, and serves frames.
fn run_job<F: Files, S: Source, K: Sink>(
    alloc: Global,
    job: Asked<'_>,
    files: &mut F,
    source: &mut S,
    sink: &mut K,
) -> DesksStatus
    ensures ends { let at = outside F.contents F.faults S.coming S.faults K.held K.faults in
        Ends (Some (job_in job.entry)) (at files.old source.old sink.old) (at files.new source.new sink.new) result }
    ensures sent { SentOn DesksStatus.WriteFault result (K.unsent sink.old) (K.unsent sink.new) }
{
    let net = match open_network(alloc, files, job.file) {
        Ok(net) => net,
        Err(reason) => return STATUSES.put_reason(sink, reason),
    };
    let controller = match Controller::start(alloc, net, job.mode) {
        Ok(controller) => controller,
        Err(why) => return STATUSES.put_unplanned(sink, why),
    };
    let Ok(mut incoming) = Incoming::new(alloc) else {
        return DesksStatus::NoMemory;
    };
    let mut hub = Hub::new(alloc, controller);
    let end = serve(alloc, &mut hub, &mut incoming, source, sink);
    end_serving(sink, end)
}

/// Answers the lines of many desks on the network of a file, in a mode, by frames that come on one stream and go out on another. The words
/// (without the program's own name) are MODE, which is `first`, `bid` or `davn`, and FILE.
///
/// What the call says of itself: `call` ties the words, the file, the frames and the written bytes to the status. However it ends, a world
/// was come to from the opening in steps that may happen (`Happens`), whose frames are those of the bytes that were taken, and whose frames
/// that go out are just what was written, or a front of it where the output failed; and where the input ends each whole frame was carried
/// out, and nobody waits for anything, or the word that all is kept is awaited. `served`: whatever happens in whatever order, all that was
/// carried out is one run of the session; the rows that were given out are just those of what was carried out, with their replies; each
/// client is sent the replies to its own lines, none before its row is kept, and all of them once these were told and until the next line is
/// answered or somebody is to be closed; of each desk each number is carried out at most once, and a line that comes again gets the reply
/// that it had. `rights`: a line beyond a client's rights changes nothing and is told so. `rows`: rows that are given again lead to the
/// state that they were given out in. `frames`: which frames a stream has doesn't depend on how it is cut. `asks`: a request for as large a party as
/// `ask` tells would be sold, and for no larger. `seats`: no leg has more seats sold than are authorised. `hindsight`: at each line of
/// hindsight no selection of the requests so far earns more.
/// `sent`: nothing is held back at the end.
pub fn run_desks<F: Files, S: Source, K: Sink>(
    alloc: Global,
    words: &[String],
    files: &mut F,
    source: &mut S,
    sink: &mut K,
) -> DesksStatus
    ensures call { let at = outside F.contents F.faults S.coming S.faults K.held K.faults in
        Ends (desks_job_of (map string_bytes words.now)) (at files.old source.old sink.old) (at files.new source.new sink.new) result }
    ensures sent { SentOn DesksStatus.WriteFault result (K.unsent sink.old) (K.unsent sink.new) }
    ensures served { DesksAreServed }
    ensures rights { RightsHold }
    ensures rows { RowsGiveTheState }
    ensures frames { FramesDontDependOnPieces }
    ensures asks { LargestPartiesAreSold }
    ensures seats { RunsOversellNoLeg }
    ensures hindsight { HindsightBounds }
{
    match asked_in(words) {
        Some(job) => run_job(alloc, job, files, source, sink),
        None => STATUSES.put_line(sink, USAGE, DesksStatus::Usage),
    }
}
