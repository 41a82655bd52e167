//! Whole calls over files, a stream and a sink in memory, worked by hand: legs AB with 3 seats and BC with 2.
use nrm_cli::Status::{
    Done, FileFault, NoClass, NoLeg, ReadFault, Refused, Usage, WriteFault, Wrong,
};
use nrm_cli::{Status, run};
use nrm_edge::{MemFiles, MemSink, MemSource};
use std::alloc::{AllocError, Global};
use std::process::Abort;
use std::test::Fail;

const NETWORK: &[u8] =
    b"periods,1,1\nleg,AB,3\nleg,BC,2\nproduct,THRU,500,AB,BC\nproduct,LOC,200,AB\n";

// The same network as it is printed.
const PRINTED: &[u8] =
    b"periods,1,1,2\nleg,AB,3,3\nleg,BC,2,2\nproduct,THRU,500,AB,BC\nproduct,LOC,200,AB\n";

// Four histories of one period.
const DEMANDED: &[u8] =
    b"periods,4,1\nleg,AB,10\nleg,BC,10\nproduct,ABH,400,AB\nproduct,ABL,150,AB\nproduct,ACH,500,AB,BC\n\
    product,BCL,80,BC\nproduct,ACL,229,AB,BC\ndemand,ABH,1,2\ndemand,ABH,2,4\ndemand,ABH,3,3\n\
    demand,ABH,4,3\ndemand,ABL,1,6\ndemand,ABL,2,8\ndemand,ABL,3,5\ndemand,ABL,4,9\ndemand,ACH,1,4\n\
    demand,ACH,2,2\ndemand,ACH,3,6\ndemand,ACH,4,4\ndemand,BCL,1,7\ndemand,BCL,2,9\ndemand,BCL,3,8\n\
    demand,BCL,4,8\n";

const OPTIMAL: &[u8] =
    b"value 4130/1\nproduct ABH 3/1\nproduct ABL 3/1\nproduct ACH 4/1\nproduct BCL 6/1\nproduct ACL 0/1\nleg AB 150/1\nleg BC 80/1\n";

// At these prices ABL is worth more than its leg, and not all its demand is met.
const CHEAP: &[u8] =
    b"value 4130/1\nproduct ABH 3/1\nproduct ABL 3/1\nproduct ACH 4/1\nproduct BCL 6/1\nproduct ACL 0/1\nleg AB 149/1\nleg BC 80/1\n";

const REPEATED: &[u8] = b"value 4130/1\nproduct ABH 3/1\nproduct ABH 3/1\n";

const STREAM: &[u8] = b"book THRU 2\nbook THRU 1\nbook LOC 1\nbook LOC 1\nbook X 1\n";

// A price so fine that its denominator is the limit.
const FINE: &[u8] =
    b"value 4130/1\nproduct ABH 3/1\nproduct ABL 3/1\nproduct ACH 4/1\nproduct BCL 6/1\nproduct ACL 0/1\n\
    leg AB 150/1\nleg BC 1/281474976710656\n";

// The files, of which the fetches with these numbers fail.
fn files(alloc: Global, failing: &[u64]) -> Result<MemFiles, AllocError> {
    let mut list = Vec::new(alloc);
    list.push((b"F".to_vec(alloc)?, NETWORK.to_vec(alloc)?))?;
    list.push((b"DEMANDED".to_vec(alloc)?, DEMANDED.to_vec(alloc)?))?;
    list.push((b"OPTIMAL".to_vec(alloc)?, OPTIMAL.to_vec(alloc)?))?;
    list.push((b"CHEAP".to_vec(alloc)?, CHEAP.to_vec(alloc)?))?;
    list.push((b"REPEATED".to_vec(alloc)?, REPEATED.to_vec(alloc)?))?;
    list.push((b"FINE".to_vec(alloc)?, FINE.to_vec(alloc)?))?;
    Ok(MemFiles::new(list, failing.to_vec(alloc)?))
}

// What fails outside: the fetches, the takes and the puts of these numbers; the most bytes of each put, and the room for all.
#[derive(Clone, Copy)]
struct Outside<'a> {
    fetches: &'a [u64],
    takes: &'a [u64],
    puts: &'a [u64],
    put_cuts: &'a [usize],
    room: usize,
}

// Nothing fails.
const SOUND: Outside<'static> = Outside {
    fetches: &[],
    takes: &[],
    puts: &[],
    put_cuts: &[],
    room: 256,
};

// The stream, a line for each take.
fn source(alloc: Global, failing: &[u64]) -> Result<MemSource, AllocError> {
    let bytes = STREAM.to_vec(alloc)?;
    let cuts = Vec::from_array(alloc, [12, 12, 11, 11, 9])?;
    Ok(MemSource::new(bytes, cuts, failing.to_vec(alloc)?))
}

// What is written, as far as the outside takes it.
fn sink(alloc: Global, outside: &Outside<'_>) -> Result<MemSink, AllocError> {
    let cuts = outside.put_cuts.to_vec(alloc)?;
    MemSink::new(alloc, outside.room, cuts, outside.puts.to_vec(alloc)?)
}

fn words_of(alloc: Global, text: &str) -> Result<Vec<String>, AllocError> {
    let mut words = Vec::new(alloc);
    for word in text.split(' ') {
        words.push(String::from_str(alloc, word)?)?;
    }
    Ok(words)
}

// The program, called with these words over an outside, must end so, and have written so much.
fn ends_over(
    rt: &(impl Abort + AllocGlobal),
    words: &str,
    outside: &Outside<'_>,
    status: Status,
    written: &[u8],
) -> Result<(), Fail> {
    let alloc = rt.alloc();
    let given = words_of(alloc, words)?;
    let mut files = files(alloc, outside.fetches)?;
    let mut source = source(alloc, outside.takes)?;
    let mut sink = sink(alloc, outside)?;
    let ended = run(alloc, &given, &mut files, &mut source, &mut sink);
    assert_eq!(rt; (ended, sink.held()), (status, written), "{words}");
    Ok(())
}

// The same where nothing fails outside.
fn ends(
    rt: &(impl Abort + AllocGlobal),
    words: &str,
    status: Status,
    written: &[u8],
) -> Result<(), Fail> {
    ends_over(rt, words, &SOUND, status, written)
}

// The replies to the stream, one after the other, and their lengths from none of them to all.
const REPLIES: &[u8] = b"ok 1\nno BC\nok 2\nno AB\nunknown\n";

const REPLIED: [usize; 6] = [0, 5, 11, 16, 22, 30];

// In each mode alike: nothing is to come, so no seat has a price; and no leg has a threshold, so nothing is protected.
#[test]
fn a_stream_is_answered(rt: HostRuntime) -> Result<(), Fail> {
    ends(&rt, "run first F", Done, REPLIES)?;
    ends(&rt, "run bid F", Done, REPLIES)?;
    ends(&rt, "run davn F", Done, REPLIES)
}

#[test]
fn a_plan_is_written(rt: HostRuntime) -> Result<(), Fail> {
    ends(&rt, "plan bid DEMANDED", Done, OPTIMAL)?;
    ends(&rt, "plan first DEMANDED", Done, b"first\n")
}

#[test]
fn a_network_is_printed(rt: HostRuntime) -> Result<(), Fail> {
    ends(&rt, "print F", Done, PRINTED)
}

#[test]
fn a_certificate_is_checked(rt: HostRuntime) -> Result<(), Fail> {
    ends(&rt, "check DEMANDED OPTIMAL", Done, b"optimal\n")?;
    let wrong = b"wrong product ABL\n";
    ends(&rt, "check DEMANDED CHEAP", Wrong, wrong)
}

#[test]
fn a_certificate_is_refused(rt: HostRuntime) -> Result<(), Fail> {
    let line = b"refused certificate line 3\n";
    ends(&rt, "check DEMANDED REPEATED", Refused, line)?;
    let line = b"refused certificate no file\n";
    ends(&rt, "check DEMANDED NONE", Refused, line)?;
    let line = b"refused certificate too fine\n";
    ends(&rt, "check DEMANDED FINE", Refused, line)?;
    let line = b"refused row 1 why 1 kind\n";
    ends(&rt, "check OPTIMAL OPTIMAL", Refused, line)
}

// The fetch of this number fails.
fn fetch_fails(number: &[u64]) -> Outside<'_> {
    Outside {
        fetches: number,
        ..SOUND
    }
}

// The second file is not looked for where the first is refused, so its fault tells nothing then.
#[test]
fn a_fault_of_the_files_is_told_where_it_comes(rt: HostRuntime) -> Result<(), Fail> {
    let second = fetch_fails(&[2]);
    let line = b"refused row 1 why 1 kind\n";
    ends_over(&rt, "check OPTIMAL OPTIMAL", &second, Refused, line)?;
    let line = b"file fault\n";
    ends_over(&rt, "check DEMANDED OPTIMAL", &second, FileFault, line)?;
    ends_over(&rt, "print F", &fetch_fails(&[1]), FileFault, line)
}

// What other words get.
const USAGE: &[u8] =
    b"usage: nrm run MODE FILE, plan MODE FILE, check FILE CERT, print FILE, gen MODE NUMBER, cuts FILE LEG GROUPS, dp FILE LEG\n";

#[test]
fn other_words_get_the_usage_line(rt: HostRuntime) -> Result<(), Fail> {
    ends(&rt, "run F", Usage, USAGE)?;
    ends(&rt, "cuts DEMANDED AB 11", Usage, USAGE)
}

// The sixth take is the one that would tell the end.
#[test]
fn each_take_fails_once(rt: HostRuntime) -> Result<(), Fail> {
    for (place, length) in REPLIED.iter().enumerate() {
        let outside = Outside {
            takes: &[place as u64 + 1],
            ..SOUND
        };
        let written = REPLIES.get(..*length).unwrap_or(b"");
        ends_over(&rt, "run first F", &outside, ReadFault, written)?;
    }
    Ok(())
}

// The puts of these numbers fail.
fn puts_fail(numbers: &[u64]) -> Outside<'_> {
    Outside {
        puts: numbers,
        ..SOUND
    }
}

#[test]
fn each_put_fails_once(rt: HostRuntime) -> Result<(), Fail> {
    for (place, length) in REPLIED.iter().take(5).enumerate() {
        let number = [place as u64 + 1];
        let written = REPLIES.get(..*length).unwrap_or(b"");
        ends_over(&rt, "run first F", &puts_fail(&number), WriteFault, written)?;
    }
    Ok(())
}

#[test]
fn puts_may_be_short(rt: HostRuntime) -> Result<(), Fail> {
    let outside = Outside {
        put_cuts: &[1; 40],
        ..SOUND
    };
    ends_over(&rt, "run first F", &outside, Done, REPLIES)?;
    let outside = Outside { room: 5, ..SOUND };
    ends_over(&rt, "run first F", &outside, WriteFault, b"ok 1\n")
}

// The line that would tell why is what can't be written.
#[test]
fn a_cut_line_tells_no_other_status(rt: HostRuntime) -> Result<(), Fail> {
    let outside = Outside {
        fetches: &[1],
        ..puts_fail(&[1])
    };
    ends_over(&rt, "print F", &outside, WriteFault, b"")?;
    let outside = puts_fail(&[1]);
    ends_over(&rt, "fly", &outside, WriteFault, b"")?;
    ends_over(&rt, "cuts F CD 1", &outside, WriteFault, b"")?;
    ends_over(&rt, "dp F AB", &outside, WriteFault, b"")
}

#[test]
fn a_made_run_is_summed_up(rt: HostRuntime) -> Result<(), Fail> {
    let line =
        b"made lines 10000 ok 791 no 6721 fare 0 cancelled 397 unknown 1575 legs 512 optimised 3 overflow 0 \
        revenue 193932 hindsight 299535/1\n";
    ends(&rt, "gen first 1", Done, line)
}

// ACL was never asked for, so its fare costs nothing wherever it is.
#[test]
fn the_fares_on_a_leg_are_cut(rt: HostRuntime) -> Result<(), Fail> {
    let lines = b"cuts AB 400\ncentres AB 500 150\ncost AB 1200\n";
    ends(&rt, "cuts DEMANDED AB 2", Done, lines)?;
    ends(&rt, "cuts DEMANDED CD 2", NoLeg, b"no leg\n")
}

// Of ABH 2, 4, 3 and 3 seats are asked for, and three of them are worth more than those of ABL.
#[test]
fn the_seats_of_a_leg_are_valued(rt: HostRuntime) -> Result<(), Fail> {
    let lines = b"class ABH 400\nclass ABL 150\nvalue AB 4175/2\nprotect AB 3\n";
    ends(&rt, "dp DEMANDED AB", Done, lines)?;
    ends(&rt, "dp F BC", NoClass, b"classes 0\n")?;
    ends(&rt, "dp F CD", NoClass, b"classes 0\n")
}

#[test]
fn each_status_has_its_number(rt: HostRuntime) {
    assert_eq!(rt; (NoLeg.number(), NoClass.number()), (10, 11));
}
