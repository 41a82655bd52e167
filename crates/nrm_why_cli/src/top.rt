//! The top call of the program that accounts for an answer.
ghost use Rattle.std.specs.Prelude.{◌≡◌, ◌≤◌, ◌<◌, ◌^◌, is_some, map, option_map, string_bytes, IfSome, Some};
ghost use Rattle.nrm_common_cli.specs.Outside.{Goes, SentOn, outside};
ghost use Rattle.nrm_session.specs.Serving.{ServesBy, streams};
ghost use Rattle.nrm_session.specs.declared.serving.TheConstants.{LATEST_START};
ghost use Rattle.nrm_text.specs.Numbers.{whole_between};
ghost use Rattle.nrm_model.specs.declared.limits.TheConstants.{MOST_STREAM_BYTES};
ghost use Rattle.nrm_account.specs.Tellers.{Tells, TellsCut, can_tell};
ghost use Rattle.nrm_account.specs.Laws.{AccountsAreOfTheirLines, AccountsGiveReplies, LargestPartiesAreSold, OutOfMemoryWritesNothing};
ghost use Rattle.nrm_account.specs.PlannedBy.{PlannedByThatLine};
ghost use Rattle.nrm_session.specs.Serving.{CountsFaults, SentOn as SentAtEnd};
ghost use Rattle.nrm_why_cli.specs.Call.{Call, Failures};
ghost use Rattle.nrm_why_cli.specs.Ends.{Ends};
ghost use Rattle.nrm_why_cli.specs.Inner.Parts.{job_in};
ghost use Rattle.nrm_why_cli.specs.Jobs.{why_job_of};

use crate::WhyStatus;
use crate::put::end_session;
use crate::status::STATUSES;
use nrm_account::{Teller, Telling};
use nrm_common_cli::{mode_in, open_network};
use nrm_control::Controller;
use nrm_edge::{Files, Sink, Source};
use nrm_model::{MOST_STREAM_BYTES, Mode};
use nrm_session::{End, serve_by};
use nrm_text::read_whole;
use std::alloc::Global;

/// The last line that can be asked for: no stream has more lines than it may have bytes.
pub const LAST_LINE: u64 = 4_294_967_296;

// What is written on a usage error.
const USAGE: &[u8] = b"usage: nrm_why MODE FILE NUMBER\n";

/// What the words ask for: a mode, a network file, and the number of a line.
#[derive(Clone, Copy)]
pub(crate) struct Asked<'a> {
    mode: Mode,
    file: &'a str,
    number: u64,
}

// The number of a line.
fn number_in(word: &[u8]) -> Option<u64>
    ensures number { result ≡ whole_between 1 LAST_LINE word.now }
    ensures within { IfSome result (λ number. number < 2 ^ 63) }
{
    match read_whole(word, LAST_LINE) {
        Ok(number) if number >= 1 => Some(number),
        _ => None,
    }
}

// The job that the words ask for, if they ask for one.
fn asked_in(words: &[String]) -> Option<Asked<'_>>
    ensures job { option_map job_in result ≡ why_job_of (map string_bytes words.now) }
    ensures within { IfSome result (λ asked. asked.number < 2 ^ 63) }
{
    match words {
        [mode, file, number] => match (mode_in(mode), number_in(number.as_bytes())) {
            (Some(mode), Some(number)) => Some(Asked {
                mode,
                file: file.as_str(),
                number,
            }),
            (_, _) => None,
        },
        _ => None,
    }
}

/// Whether the words (without the program's own name) ask for an account; all others get the usage line. It takes no memory.
pub fn asks_for_an_account(words: &[String]) -> bool
    ensures { result ≡ is_some (why_job_of (map string_bytes words.now)) }
{
    asked_in(words).is_some()
}

// Reads the lines of a stream for the account of one of them.
fn read_stream<S: Source, K: Sink>(
    alloc: Global,
    controller: &mut Controller,
    teller: &mut Teller,
    source: &mut S,
    sink: &mut K,
) -> End
    requires next { controller.old.next ≤ LATEST_START }
    requires ready { can_tell (controller.old, teller.old) }
    ensures serves { let at = streams S.coming S.faults K.held K.faults in
        ServesBy (Tells (controller.old, teller.old) (controller.new, teller.new)) (TellsCut (controller.old, teller.old) (controller.new, teller.new))
        (at source.old sink.old) (at source.new sink.new) MOST_STREAM_BYTES result }
    ensures counts { let at = streams S.coming S.faults K.held K.faults in
        CountsFaults (at source.old sink.old) (at source.new sink.new) result }
    ensures sent { SentAtEnd (K.unsent sink.old) (K.unsent sink.new) result }
{
    serve_by::<Telling, Teller, S, K>(alloc, controller, teller, source, sink, MOST_STREAM_BYTES)
}

// Opens the network, and reads the lines of the stream for the account.
fn run_job<F: Files, S: Source, K: Sink>(
    alloc: Global,
    job: Asked<'_>,
    files: &mut F,
    source: &mut S,
    sink: &mut K,
) -> WhyStatus
    requires { job.number < 2 ^ 63 }
    ensures ends { let at = outside F.contents F.faults S.coming S.faults K.held K.faults in
        Ends (Some (job_in job.entry)) (at files.old source.old sink.old) (at files.new source.new sink.new) result }
    ensures failures { let at = outside F.contents F.faults S.coming S.faults K.held K.faults in
        Failures result (at files.old source.old sink.old) (at files.new source.new sink.new) }
    ensures goes { let at = outside F.contents F.faults S.coming S.faults K.held K.faults in
        Goes (at files.old source.old sink.old) (at files.new source.new sink.new) }
    ensures sent { SentOn WhyStatus.WriteFault result (K.unsent sink.old) (K.unsent sink.new) }
{
    let net = match open_network(alloc, files, job.file) {
        Ok(net) => net,
        Err(reason) => return STATUSES.put_reason(sink, reason),
    };
    let mut controller = match Controller::start(alloc, net, job.mode) {
        Ok(controller) => controller,
        Err(why) => return STATUSES.put_unplanned(sink, why),
    };
    let mut teller = Teller::new(job.number);
    let end = read_stream(alloc, &mut controller, &mut teller, source, sink);
    end_session(sink, end, &teller)
}

/// Writes the account of the answer to one line of a stream, in a mode on the network of a file: what was asked, what stood as it was asked,
/// and what follows from that. The words (without the program's own name) are MODE, which is `first`, `bid` or `davn`, FILE, and NUMBER, the
/// line's number, counted from 1. Each line of the stream is carried out, and no reply is written but that in the account.
///
/// What the call says of itself: `call` ties the words, the file, the stream and the written bytes to the status. If the words are good, the
/// file gives a network with an opening plan, the stream is told and isn't too long, and nothing failed, then the account comes, or the line
/// that says that there is no such line, or memory ran out and nothing was written; a count of faults rises only with the status of its
/// fault; no count falls (`Call`). `accounts`: what is written as the lines are read is the account of the line that was asked for, in the
/// state that a run of the session over the lines before it comes to. `planned`: the line that an account tells as the one that made the plan
/// in force is a reoptimisation that left this plan, and if it tells 0, the plan is the opening's. `replies`: the numbers of the account of a request give its reply by the rule alone: the first leg on which what is needed and what is
/// protected are more than what is left is named; else the fare is refused if it is below the sum of the bid prices; else the
/// request is sold. `largest`: a request is sold exactly if its party is no larger than the one that the account tells. `memory`: if memory
/// runs out for the account, nothing is written. `sent`: nothing is held back at the end.
pub fn run_why<F: Files, S: Source, K: Sink>(
    alloc: Global,
    words: &[String],
    files: &mut F,
    source: &mut S,
    sink: &mut K,
) -> WhyStatus
    ensures call { let at = outside F.contents F.faults S.coming S.faults K.held K.faults in
        Call (why_job_of (map string_bytes words.now)) (at files.old source.old sink.old) (at files.new source.new sink.new) result }
    ensures sent { SentOn WhyStatus.WriteFault result (K.unsent sink.old) (K.unsent sink.new) }
    ensures accounts { AccountsAreOfTheirLines }
    ensures planned { PlannedByThatLine }
    ensures replies { AccountsGiveReplies }
    ensures largest { LargestPartiesAreSold }
    ensures memory { OutOfMemoryWritesNothing }
{
    match asked_in(words) {
        Some(job) => run_job(alloc, job, files, source, sink),
        None => STATUSES.put_line(sink, USAGE, WhyStatus::Usage),
    }
}
