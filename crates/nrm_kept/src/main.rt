//! `nrm_kept`, the program: the real files, standard input, standard output and the store's file around the top call.
#![tactic(auto)]

use nrm_common_cli::words_given;
use nrm_edge::{DirFiles, GatheringSink, StdSink, StdSource};
use nrm_keeper::{Beginning, FileKeeper, Unknown};
use nrm_kept_cli::{KeptStatus, asks_for_a_session, run_kept};
use std::io;
use std::process::ExitCode;

// How many bytes of output are gathered before they are sent on.
const GATHERED: usize = 65_536;

// The store is the third word; without three words there is none, and nothing is opened.
fn store_in(words: &[String]) -> &str {
    match words {
        [_mode, _file, store] => store.as_str(),
        _ => "",
    }
}

// The program, around its words and the keeper of its store. Memory to gather the output is taken only for words that ask for a
// session.
fn answered<S: Beginning>(
    rt: &HostRuntime,
    words: &[String],
    keeper: &mut FileKeeper<'_, S>,
) -> io::Result<KeptStatus> {
    let alloc = rt.alloc();
    let mut files = DirFiles::new(rt);
    let mut source = StdSource::new(rt.stdin());
    let mut output = StdSink::new(io::writer(rt));
    if !asks_for_a_session(words) {
        return Ok(run_kept(alloc, words, &mut files, &mut source, &mut output, keeper));
    }
    let mut sink = GatheringSink::new(alloc, output, GATHERED)?;
    Ok(run_kept(alloc, words, &mut files, &mut source, &mut sink, keeper))
}

// The status of a run, for each `S` that the store's files may have held. The store is closed behind it, all replies being sent;
// if that fails the rows stand as they did, and so does the status.
fn status_of<S: Beginning>(rt: &HostRuntime) -> io::Result<KeptStatus> {
    let words = words_given(rt)?;
    let mut keeper = FileKeeper::<S>::new(rt, store_in(&words));
    let status = answered(rt, &words, &mut keeper);
    let _closed = keeper.close(rt.alloc());
    status
}

fn main(rt: HostRuntime) -> ExitCode {
    let status = status_of::<Unknown>(&rt).unwrap_or(KeptStatus::NoMemory);
    ExitCode::from(status.number())
}
