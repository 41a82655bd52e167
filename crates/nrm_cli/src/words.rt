//! The words of the command line, and what is done for each verb.
ghost use Rattle.std.specs.Prelude.{◌≡◌, [], ◌∷◌, IfSome, is_some, map, option_map, string_bytes};
ghost use Rattle.nrm_text.specs.Names.{name_in};
ghost use Rattle.nrm_text.specs.Numbers.{whole_between};
ghost use Rattle.nrm_cluster.specs.declared.limits.TheConstants.{MOST_GROUPS};
ghost use Rattle.nrm_cli.specs.Inner.Does.{Does};
ghost use Rattle.nrm_cli.specs.Jobs.{AsksWithin, cut_of, job_in, job_of, made_run_of, valuing_of};
ghost use Rattle.nrm_common_cli.specs.Outside.{SentOn, outside};
ghost use Rattle.nrm_common_cli.specs.Words.{mode_of};

use crate::Status;
use crate::made::run_made;
use crate::served::run_file;
use crate::status::STATUSES;
use crate::told::{Telling, tell_file};
use nrm_cluster::MOST_GROUPS;
use nrm_common_cli::mode_in;
use nrm_edge::{Files, Sink, Source};
use nrm_model::Mode;
use nrm_text::{Name, is_word, name_of, read_whole};
use std::alloc::Global;

// The last number that a network and its commands are made of.
const LAST_MADE: u32 = u32::MAX;

// What is written on a usage error.
const USAGE: &[u8] =
    b"usage: nrm run MODE FILE, plan MODE FILE, check FILE CERT, print FILE, gen MODE NUMBER, cuts FILE LEG GROUPS, dp FILE LEG\n";

/// What the words ask for.
#[derive(Clone, Copy)]
pub(crate) enum Asked<'a> {
    /// To answer the stream on the network of a file.
    Run(Mode, &'a str),
    /// To tell something of the network of a file.
    Tell(&'a str, Telling<'a>),
    /// To answer what is made of a number.
    Made(Mode, u32),
}

// The made run of a mode and a number.
fn made_run_in(mode: &String, number: &String) -> Option<Asked<'static>>
    ensures job { option_map job_in result
        ≡ made_run_of (mode_of (string_bytes mode.now)) (whole_between 0 LAST_MADE (string_bytes number.now)) }
    ensures within { IfSome result AsksWithin }
{
    let mode = mode_in(mode)?;
    match read_whole(number.as_bytes(), u64::from(LAST_MADE)) {
        Ok(number) => Some(Asked::Made(mode, number as u32)),
        Err(_) => None,
    }
}

// The thresholds of a leg of a file, in so many groups.
fn cuts_in<'a>(file: &'a String, leg: &String, groups: &String) -> Option<Asked<'a>>
    ensures job { option_map job_in result
        ≡ cut_of (string_bytes file.now) (name_in (string_bytes leg.now)) (whole_between 1 MOST_GROUPS (string_bytes groups.now)) }
    ensures within { IfSome result AsksWithin }
{
    let leg = name_of(leg.as_bytes())?;
    match read_whole(groups.as_bytes(), u64::from(MOST_GROUPS)) {
        Ok(0) | Err(_) => None,
        Ok(groups) => Some(Asked::Tell(file.as_str(), Telling::Cuts(leg, groups as u8))),
    }
}

// The values of a leg of a file.
fn values_in<'a>(file: &'a String, leg: &String) -> Option<Asked<'a>>
    ensures job { option_map job_in result ≡ valuing_of (string_bytes file.now) (name_in (string_bytes leg.now)) }
    ensures within { IfSome result AsksWithin }
{
    let leg = name_of(leg.as_bytes())?;
    Some(Asked::Tell(file.as_str(), Telling::Values(leg)))
}

/// Whether the words (without the program's own name) ask for a job; all others get the usage line. It takes no memory.
pub fn asks_for_a_job(words: &[String]) -> bool
    ensures { result ≡ is_some (job_of (map string_bytes words.now)) }
{
    asked_in(words).is_some()
}

// What a verb and one word ask for.
fn asked_by_two<'a>(verb: &String, file: &'a String) -> Option<Asked<'a>>
    ensures job { option_map job_in result ≡ job_of (string_bytes verb.now ∷ string_bytes file.now ∷ []) }
    ensures within { IfSome result AsksWithin }
{
    if is_word(verb.as_bytes(), b"print") {
        Some(Asked::Tell(file.as_str(), Telling::Print))
    } else {
        None
    }
}

// What a verb and two words ask for.
fn asked_by_three<'a>(verb: &String, second: &'a String, third: &'a String) -> Option<Asked<'a>>
    ensures job { option_map job_in result
        ≡ job_of (string_bytes verb.now ∷ string_bytes second.now ∷ string_bytes third.now ∷ []) }
    ensures within { IfSome result AsksWithin }
{
    if is_word(verb.as_bytes(), b"run") {
        match mode_in(second) {
            Some(mode) => Some(Asked::Run(mode, third.as_str())),
            None => None,
        }
    } else if is_word(verb.as_bytes(), b"plan") {
        match mode_in(second) {
            Some(mode) => Some(Asked::Tell(third.as_str(), Telling::Plan(mode))),
            None => None,
        }
    } else if is_word(verb.as_bytes(), b"check") {
        Some(Asked::Tell(second.as_str(), Telling::Check(third.as_str())))
    } else if is_word(verb.as_bytes(), b"gen") {
        made_run_in(second, third)
    } else if is_word(verb.as_bytes(), b"dp") {
        values_in(second, third)
    } else {
        None
    }
}

// What a verb and three words ask for.
fn asked_by_four<'a>(
    verb: &String,
    second: &'a String,
    third: &'a String,
    fourth: &String,
) -> Option<Asked<'a>>
    ensures job { option_map job_in result
        ≡ job_of (string_bytes verb.now ∷ string_bytes second.now ∷ string_bytes third.now ∷ string_bytes fourth.now ∷ []) }
    ensures within { IfSome result AsksWithin }
{
    if is_word(verb.as_bytes(), b"cuts") {
        cuts_in(second, third, fourth)
    } else {
        None
    }
}

/// The job that the words ask for, if they ask for one.
pub(crate) fn asked_in(words: &[String]) -> Option<Asked<'_>>
    ensures job { option_map job_in result ≡ job_of (map string_bytes words.now) }
    ensures within { IfSome result AsksWithin }
{
    match words {
        [verb, file] => asked_by_two(verb, file),
        [verb, second, third] => asked_by_three(verb, second, third),
        [verb, second, third, fourth] => asked_by_four(verb, second, third, fourth),
        _ => None,
    }
}

/// Does what the words ask for.
pub(crate) fn run_asked<F: Files, S: Source, K: Sink>(
    alloc: Global,
    asked: &Option<Asked<'_>>,
    files: &mut F,
    source: &mut S,
    sink: &mut K,
) -> Status
    requires { IfSome asked.now AsksWithin }
    ensures does { let at = outside F.contents F.faults S.coming S.faults K.held K.faults in
        Does (option_map job_in asked.now) (at files.old source.old sink.old) (at files.new source.new sink.new) result }
    ensures sent { SentOn Status.WriteFault result (K.unsent sink.old) (K.unsent sink.new) }
{
    match asked {
        Some(Asked::Run(mode, name)) => run_file(alloc, *mode, name, files, source, sink),
        Some(Asked::Tell(name, telling)) => tell_file(alloc, name, telling, files, sink),
        Some(Asked::Made(mode, number)) => run_made(alloc, *mode, *number, sink),
        None => STATUSES.put_line(sink, USAGE, Status::Usage),
    }
}
