//! Desks over files and frames in memory, worked by hand.
use nrm_desks_cli::{DesksStatus, run_desks};
use nrm_edge::{MemFiles, MemSink, MemSource};
use std::alloc::{AllocError, Global};
use std::process::Abort;
use std::test::Fail;

// Legs AB with 3 seats and BC with 2, a through product for 500 and a local one for 200.
const NETWORK: &[u8] =
    b"periods,1,1\nleg,AB,3\nleg,BC,2\nproduct,THRU,500,AB,BC\nproduct,LOC,200,AB\n";

fn words(alloc: Global, list: &[&str]) -> Result<Vec<String>, AllocError> {
    let mut words = Vec::new(alloc);
    for word in list {
        words.push(String::from_str(alloc, word)?)?;
    }
    Ok(words)
}

// The files: the network under the name F.
fn files(alloc: Global) -> Result<MemFiles, AllocError> {
    let mut list = Vec::new(alloc);
    list.push((b"F".to_vec(alloc)?, NETWORK.to_vec(alloc)?))?;
    Ok(MemFiles::new(list, Vec::new(alloc)))
}

// How the program ends, which writes to the sink, where the frames come in two takes.
fn status_of(
    alloc: Global,
    given: &[&str],
    first: &[u8],
    second: &[u8],
    sink: &mut MemSink,
) -> Result<DesksStatus, AllocError> {
    let words = words(alloc, given)?;
    let mut files = files(alloc)?;
    let mut frames = first.to_vec(alloc)?;
    frames.extend_from_slice(second)?;
    let mut cuts = Vec::new(alloc);
    cuts.push(first.len())?;
    let mut source = MemSource::new(frames, cuts, Vec::new(alloc));
    Ok(run_desks(alloc, &words, &mut files, &mut source, sink))
}

// The program ends so, and has written this.
fn assert_outcome(
    rt: &(impl Abort + AllocGlobal),
    given: &[&str],
    first: &[u8],
    second: &[u8],
    wanted: (DesksStatus, &[u8]),
) -> Result<(), AllocError> {
    let alloc = rt.alloc();
    let mut sink = MemSink::new(alloc, 4096, Vec::new(alloc), Vec::new(alloc))?;
    let status = status_of(alloc, given, first, second, &mut sink);
    assert!(rt; status == Ok(wanted.0));
    assert_eq!(rt; sink.held(), wanted.1);
    Ok(())
}

// A row is given again, and the next line of the desk is the second row; it is sent once it is kept.
#[test]
fn desks_go_on_behind_their_rows(rt: HostRuntime) -> Result<(), Fail> {
    let rows =
        b"again 28\n1\tDESK-A\t1\tbook THRU 1\tok 1\nagain 0\nopen 0 DESK-A book\ncame 0 12\nbook THRU 2\n";
    let written = b"ready 1\nkeep 29\n2\tDESK-A\t2\tbook THRU 2\tno BC\nsend 0 12 6\nno BC\n";
    let wanted = (DesksStatus::Done, written.as_slice());
    assert_outcome(&rt, &["first", "F"], rows, b"kept\nend\n", wanted)?;
    Ok(())
}

#[test]
fn what_may_not_come_is_told(rt: HostRuntime) -> Result<(), Fail> {
    let told: [(&[u8], &[u8], DesksStatus, &[u8]); 7] = [
        (b"again 0\n", b"", DesksStatus::Done, b"ready 0\n"),
        (b"again 0\n", b"kept\n", DesksStatus::NoFrame, b"ready 0\n"),
        (
            b"again 0\n",
            b"came 0 5\nbook",
            DesksStatus::NoFrame,
            b"ready 0\n",
        ),
        (b"hello\n", b"end\n", DesksStatus::NoFrame, b""),
        (b"came 0 5\n", b"book\nend\n", DesksStatus::NoFrame, b""),
        (
            b"again 28\n1\tDESK-A\t1\tbook THRU 1\tok 2\n",
            b"again 0\n",
            DesksStatus::Differs,
            b"differs 1\n",
        ),
        (
            b"again 28\n2\tDESK-A\t1\tbook THRU 1\tok 1\n",
            b"again 0\n",
            DesksStatus::NoRow,
            b"no row 1\n",
        ),
    ];
    for (first, second, wanted, written) in told {
        assert_outcome(&rt, &["first", "F"], first, second, (wanted, written))?;
    }
    Ok(())
}

const USAGE: &[u8] = b"usage: nrm_desks MODE FILE\n";

#[test]
fn words_that_ask_for_no_desks_get_a_line(rt: HostRuntime) -> Result<(), Fail> {
    let told: [(&[&str], DesksStatus, &[u8]); 4] = [
        (&["first"], DesksStatus::Usage, USAGE),
        (&["fast", "F"], DesksStatus::Usage, USAGE),
        (&["first", "F", "1"], DesksStatus::Usage, USAGE),
        (&["bid", "G"], DesksStatus::Refused, b"refused no file\n"),
    ];
    for (given, wanted, line) in told {
        assert_outcome(&rt, given, b"again 0\n", b"end\n", (wanted, line))?;
    }
    Ok(())
}
