//! The top call of the program that keeps its bookings.
ghost use Rattle.std.specs.Prelude.{◌≡◌, ◌≤◌, Some, is_some, map, option_map, string_bytes};
ghost use Rattle.nrm_model.specs.declared.limits.TheConstants.{MOST_STREAM_BYTES};
ghost use Rattle.nrm_common_cli.specs.NetworkFile.{FilesGiveNetworks};
ghost use Rattle.nrm_common_cli.specs.Outside.{Goes, SentOn};
ghost use Rattle.nrm_session.specs.Clerks.{is_control};
ghost use Rattle.nrm_session.specs.Serving.{CountsFaults, ServesBy, streams};
ghost use Rattle.nrm_session.specs.declared.serving.TheConstants.{LATEST_START};
ghost use Rattle.nrm_kept_cli.specs.Ends.{Ends, Failures, KeptCall, kept_outside};
ghost use Rattle.nrm_kept_cli.specs.Inner.Keeping.{KeptRefines, KeptRefinesCut};
ghost use Rattle.nrm_kept_cli.specs.Inner.Parts.{job_in, status_at};
ghost use Rattle.nrm_kept_cli.specs.Jobs.{kept_job_of};
ghost use Rattle.nrm_kept_cli.specs.Laws.{FaultsLeaveNothing, KeptHindsightBounds, KeptMoneyAddsUp, KeptPlansAreOptimal, KeptRunsHaveFirstParts, KeptRunsOversellNoLeg};
ghost use Rattle.nrm_kept_cli.specs.Laws.{RowsLoadAgain};
ghost use Rattle.nrm_kept_cli.specs.Inner.Reading.{Reading, Trusts, rows_by};

use crate::KeptStatus;
use crate::keeping::Keeping;
use crate::loading::load_rows;
use crate::put::{put_refused, put_unlisted};
use crate::status::STATUSES;
use nrm_common_cli::{mode_in, open_network};
use nrm_control::Controller;
use nrm_edge::{Files, Sink, Source};
use nrm_keeper::Keeper;
use nrm_model::{MOST_STREAM_BYTES, Mode};
use nrm_session::{End, serve_by};
use std::alloc::Global;

// What is written on a usage error.
const USAGE: &[u8] = b"usage: nrm_kept MODE FILE STORE\n";

/// What the words ask for: a mode and a network file.
#[derive(Clone, Copy)]
pub(crate) struct Asked<'a> {
    mode: Mode,
    file: &'a str,
}

// The job that the words ask for, if they ask for one.
fn asked_in(words: &[String]) -> Option<Asked<'_>>
    ensures { option_map job_in result ≡ kept_job_of (map string_bytes words.now) }
{
    match words {
        [mode, file, _store] => match mode_in(mode) {
            Some(mode) => Some(Asked {
                mode,
                file: file.as_str(),
            }),
            None => None,
        },
        _ => None,
    }
}

/// Whether the words (without the program's own name) ask for a session; all others get the usage line. It takes no memory.
pub fn asks_for_a_session(words: &[String]) -> bool
    ensures { result ≡ is_some (kept_job_of (map string_bytes words.now)) }
{
    asked_in(words).is_some()
}

// The status that goes with the end of a session.
fn status_at(end: End) -> KeptStatus
    ensures { result ≡ status_at end }
{
    match end {
        End::Done => KeptStatus::Done,
        End::ReadFault => KeptStatus::ReadFault,
        End::WriteFault => KeptStatus::WriteFault,
        End::TooLong => KeptStatus::TooLong,
    }
}

// Answers the lines of a stream, and keeps what they change of the book.
fn answer_stream<S: Source, K: Sink, P: Keeper>(
    alloc: Global,
    controller: &mut Controller,
    source: &mut S,
    sink: &mut K,
    keeper: &mut P,
) -> End
    requires next { controller.old.next ≤ LATEST_START }
    requires ready { is_control (controller.old, keeper.old) }
    ensures serves { let at = streams S.coming S.faults K.held K.faults in
        ServesBy (KeptRefines P.Keeper (controller.old, keeper.old) (controller.new, keeper.new))
        (KeptRefinesCut P.Keeper (controller.old, keeper.old) (controller.new, keeper.new))
        (at source.old sink.old) (at source.new sink.new) MOST_STREAM_BYTES result }
    ensures counts { let at = streams S.coming S.faults K.held K.faults in
        CountsFaults (at source.old sink.old) (at source.new sink.new) result }
    ensures sent { SentOn KeptStatus.WriteFault (status_at result) (K.unsent sink.old) (K.unsent sink.new) }
    ensures ready { is_control (controller.new, keeper.new) }
{
    serve_by::<Keeping, P, S, K>(alloc, controller, keeper, source, sink, MOST_STREAM_BYTES)
}

// Opens the network, lists and loads the rows of the store, and answers the lines of the stream.
fn run_job<F: Files, S: Source, K: Sink, P: Keeper>(
    alloc: Global,
    job: Asked<'_>,
    files: &mut F,
    source: &mut S,
    sink: &mut K,
    keeper: &mut P,
) -> KeptStatus
    ensures ends { (how : Reading) → Trusts P.Keeper how keeper.new → Trusts P.Keeper how keeper.old
        × (let at = kept_outside F.contents F.faults S.coming S.faults K.held K.faults (rows_by P.Keeper how) P.faults in
        Ends (Some (job_in job.entry)) (at files.old source.old sink.old keeper.old) (at files.new source.new sink.new keeper.new) result) }
    ensures failures { let at = kept_outside F.contents F.faults S.coming S.faults K.held K.faults P.rows P.faults in
        Failures result (at files.old source.old sink.old keeper.old).at (at files.new source.new sink.new keeper.new).at }
    ensures goes { let at = kept_outside F.contents F.faults S.coming S.faults K.held K.faults P.rows P.faults in
        Goes (at files.old source.old sink.old keeper.old).at (at files.new source.new sink.new keeper.new).at }
    ensures sent { SentOn KeptStatus.WriteFault result (K.unsent sink.old) (K.unsent sink.new) }
{
    let net = match open_network(alloc, files, job.file) {
        Ok(net) => net,
        Err(reason) => return STATUSES.put_reason(sink, reason),
    };
    let mut controller = match Controller::start(alloc, net, job.mode) {
        Ok(controller) => controller,
        Err(why) => return STATUSES.put_unplanned(sink, why),
    };
    let rows = match keeper.all(alloc) {
        Ok(rows) => rows,
        Err(why) => return put_unlisted(sink, why),
    };
    match load_rows(&mut controller, &rows) {
        Ok(()) => status_at(answer_stream(alloc, &mut controller, source, sink, keeper)),
        Err(number) => put_refused(sink, number),
    }
}

/// Answers the lines of the stream on the network of a file, in a mode, and goes on with the bookings of a store. The words (without the
/// program's own name) are MODE, which is `first`, `bid` or `davn`, FILE and STORE; the keeper is that of the store. What a line changes
/// of the book is kept first: if the store fails or memory runs out there, the reply is `store` or `memory`, and nothing changes.
///
/// What the call says of itself: `call` ties the words, the file, the rows, the stream, the written bytes and the counts of faults to the
/// status (`KeptCall`). If the store tells its rows, they are the bookings that stand, at the end of each session however it ends, and so
/// behind each line, since every front of a stream is a stream; and a later run loads just these bookings from them. `on_trust`: all of
/// this holds of the rows that the store shows, if the store is trusted after the call, and it was trusted before. So a file that nobody
/// else wrote, that returned what was written and was never let go has just the rows of the bookings that stand, if it told rows at first.
/// `sent`: nothing is kept back at the end.
///
/// The other clauses are laws about every such session, whatever the faults of its store. Without the lines that were answered `store` or
/// `memory` it is a session without a store (`faults`), of which the laws of `nrm_cli::run` hold. No leg has more seats sold than are
/// authorised (`seats`). At each line of hindsight that tells a value, no selection of the loaded bookings and of the requests since
/// earns more (`hindsight`). What the loaded bookings are worth, and what was sold since, is the revenue of the bookings that stand, what was
/// given back since, and what is withheld (`money`). What a `plan` line prints are optimal bid prices (`printed`). A first part of such a
/// session is one, so each law holds in every state on the way (`parts`), and what a file gives is a network as the laws ask for
/// (`networks`). The bookings of a book load again from their rows, just as they stand (`again`).
pub fn run_kept<F: Files, S: Source, K: Sink, P: Keeper>(
    alloc: Global,
    words: &[String],
    files: &mut F,
    source: &mut S,
    sink: &mut K,
    keeper: &mut P,
) -> KeptStatus
    ensures call { let at = kept_outside F.contents F.faults S.coming S.faults K.held K.faults P.rows P.faults in
        KeptCall (kept_job_of (map string_bytes words.now)) (at files.old source.old sink.old keeper.old)
        (at files.new source.new sink.new keeper.new) result }
    ensures on_trust { P.trusted keeper.new → P.trusted keeper.old
        × (let at = kept_outside F.contents F.faults S.coming S.faults K.held K.faults P.shown P.faults in
        KeptCall (kept_job_of (map string_bytes words.now)) (at files.old source.old sink.old keeper.old)
        (at files.new source.new sink.new keeper.new) result) }
    ensures sent { SentOn KeptStatus.WriteFault result (K.unsent sink.old) (K.unsent sink.new) }
    ensures faults { FaultsLeaveNothing }
    ensures seats { KeptRunsOversellNoLeg }
    ensures hindsight { KeptHindsightBounds }
    ensures money { KeptMoneyAddsUp }
    ensures printed { KeptPlansAreOptimal }
    ensures parts { KeptRunsHaveFirstParts }
    ensures networks { FilesGiveNetworks }
    ensures again { RowsLoadAgain }
{
    match asked_in(words) {
        Some(job) => run_job(alloc, job, files, source, sink, keeper),
        None => STATUSES.put_line(sink, USAGE, KeptStatus::Usage),
    }
}
