//! `nrm_why`, the program: the real files, standard input and standard output around the top call.
#![tactic(auto)]

use nrm_common_cli::{answer_if_asked, words_given};
use nrm_edge::{DirFiles, GatheringSink, Sink, StdSink, StdSource};
use nrm_why_cli::{WhyStatus, asks_for_an_account, run_why};
use std::io;
use std::process::ExitCode;

// How many bytes of output are gathered before they are sent on.
const GATHERED: usize = 65_536;

// What it answers to `--help`.
const HELP: &[u8] = b"usage: nrm_why MODE FILE NUMBER\n\
    Answers the lines of standard input on the network of FILE, as `nrm run MODE FILE` does, and writes nothing but the account\n\
    of line NUMBER: what it asked for, what stood before it, why it was answered as it was, and the answer.\n\
    MODE is first, bid or davn; NUMBER is counted from 1.\n\
    The exit statuses are in docs/commands.md, the lines of an account in docs/auditor/why.md.\n";

// The top call over the real files and standard input.
fn answered<K: Sink>(rt: &HostRuntime, words: &[String], sink: &mut K) -> WhyStatus {
    let mut files = DirFiles::new(rt);
    let mut source = StdSource::new(rt.stdin());
    run_why(rt.alloc(), words, &mut files, &mut source, sink)
}

// The program, around its words. If they ask for its help or its version, that is all. Memory to gather the output is taken only for words
// that ask for an account.
fn status_of(rt: &HostRuntime) -> io::Result<WhyStatus> {
    let words = words_given(rt)?;
    let mut output = StdSink::new(io::writer(rt));
    match answer_if_asked(&words, b"nrm_why", HELP, &mut output) {
        Some(Ok(())) => return Ok(WhyStatus::Done),
        Some(Err(_)) => return Ok(WhyStatus::WriteFault),
        None => {}
    }
    if !asks_for_an_account(&words) {
        return Ok(answered(rt, &words, &mut output));
    }
    let mut sink = GatheringSink::new(rt.alloc(), output, GATHERED)?;
    Ok(answered(rt, &words, &mut sink))
}

fn main(rt: HostRuntime) -> ExitCode {
    let status = status_of(&rt).unwrap_or(WhyStatus::NoMemory);
    ExitCode::from(status.number())
}
