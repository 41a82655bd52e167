//! `nrm_desks`, the program: the real files, standard input and standard output around the top call.
#![tactic(auto)]

use nrm_common_cli::{answer_if_asked, words_given};
use nrm_desks_cli::{DesksStatus, asks_for_desks, run_desks};
use nrm_edge::{DirFiles, GatheringSink, Sink, StdSink, StdSource};
use std::io;
use std::process::ExitCode;

// How many bytes of output are gathered before they are sent on.
const GATHERED: usize = 65_536;

// What it answers to `--help`.
const HELP: &[u8] = b"usage: nrm_desks MODE FILE\n\
    Answers the lines of many desks on the network of FILE by one controller: frames come in on standard input and go out on\n\
    standard output.\n\
    MODE is first, bid or davn.\n\
    The exit statuses are in docs/commands.md, the frames in docs/desks.md.\n";

// The top call over the real files and standard input.
fn answered<K: Sink>(rt: &HostRuntime, words: &[String], sink: &mut K) -> DesksStatus {
    let mut files = DirFiles::new(rt);
    let mut source = StdSource::new(rt.stdin());
    run_desks(rt.alloc(), words, &mut files, &mut source, sink)
}

// The program, around its words. If they ask for its help or its version, that is all. Memory to gather the output is taken only for words
// that ask for desks.
fn status_of(rt: &HostRuntime) -> io::Result<DesksStatus> {
    let words = words_given(rt)?;
    let mut output = StdSink::new(io::writer(rt));
    match answer_if_asked(&words, b"nrm_desks", HELP, &mut output) {
        Some(Ok(())) => return Ok(DesksStatus::Done),
        Some(Err(_)) => return Ok(DesksStatus::WriteFault),
        None => {}
    }
    if !asks_for_desks(&words) {
        return Ok(answered(rt, &words, &mut output));
    }
    let mut sink = GatheringSink::new(rt.alloc(), output, GATHERED)?;
    Ok(answered(rt, &words, &mut sink))
}

fn main(rt: HostRuntime) -> ExitCode {
    let status = status_of(&rt).unwrap_or(DesksStatus::NoMemory);
    ExitCode::from(status.number())
}
