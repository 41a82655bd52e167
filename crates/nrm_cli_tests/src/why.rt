//! Accounts over files and streams in memory, worked by hand.
use nrm_edge::{MemFiles, MemSink, MemSource};
use nrm_why_cli::{WhyStatus, run_why};
use std::alloc::{AllocError, Global};
use std::process::Abort;
use std::test::Fail;

// Legs AB with 3 seats and BC with 2, a through product for 500 and a local one for 200.
const NETWORK: &[u8] =
    b"periods,1,1\nleg,AB,3\nleg,BC,2\nproduct,THRU,500,AB,BC\nproduct,LOC,200,AB\n";

fn words(alloc: Global, list: &[&str]) -> Result<Vec<String>, AllocError> {
    let mut words = Vec::new(alloc);
    for word in list {
        words.push(String::from_str(alloc, word)?)?;
    }
    Ok(words)
}

// The files: one network under the name F.
fn files(alloc: Global, network: &[u8]) -> Result<MemFiles, AllocError> {
    let mut list = Vec::new(alloc);
    list.push((b"F".to_vec(alloc)?, network.to_vec(alloc)?))?;
    Ok(MemFiles::new(list, Vec::new(alloc)))
}

// How the program ends, which writes to the sink.
fn status_of(
    alloc: Global,
    network: &[u8],
    given: &[&str],
    stream: &[u8],
    sink: &mut MemSink,
) -> Result<WhyStatus, AllocError> {
    let words = words(alloc, given)?;
    let stream = stream.to_vec(alloc)?;
    let mut files = files(alloc, network)?;
    let mut source = MemSource::new(stream, Vec::new(alloc), Vec::new(alloc));
    Ok(run_why(alloc, &words, &mut files, &mut source, sink))
}

// The program ends so, and has written this.
fn assert_outcome(
    rt: &(impl Abort + AllocGlobal),
    network: &[u8],
    given: &[&str],
    stream: &[u8],
    wanted: (WhyStatus, &[u8]),
) -> Result<(), AllocError> {
    let alloc = rt.alloc();
    let mut sink = MemSink::new(alloc, 4096, Vec::new(alloc), Vec::new(alloc))?;
    let status = status_of(alloc, network, given, stream, &mut sink);
    assert!(rt; status == Ok(wanted.0));
    assert_eq!(rt; sink.held(), wanted.1);
    Ok(())
}

// In this mode the lines of the stream have these accounts, each under its number.
fn assert_accounts(
    rt: &(impl Abort + AllocGlobal),
    network: &[u8],
    mode: &str,
    stream: &[u8],
    accounts: &[(&str, &[u8])],
) -> Result<(), AllocError> {
    for &(number, account) in accounts {
        let wanted = (WhyStatus::Done, account);
        assert_outcome(rt, network, &[mode, "F", number], stream, wanted)?;
    }
    Ok(())
}

// The second leg has one seat left of the two that are asked for; the third line is sold, and the fourth gives it back whole.
const STREAM: &[u8] =
    b"book THRU 1\nbook THRU 2\nbook LOC 1\ncancel 2\nbook X 1\nreoptimise 1\nplan\nnothing\nleg AB\nleg NONE\n";

#[test]
fn each_kind_of_line_is_accounted_for(rt: HostRuntime) -> Result<(), Fail> {
    let accounts: [(&str, &[u8]); 10] = [
        (
            "1",
            b"line 1 book THRU 1\nplan first opening period 1\nproduct THRU fare 500 refund 100\n\
            leg AB authorised 3 sold 0 left 3 protected 0 needs 1 covers\n\
            leg BC authorised 2 sold 0 left 2 protected 0 needs 1 covers\n\
            largest 2 then no BC\nanswer ok 1\n",
        ),
        (
            "2",
            b"line 2 book THRU 2\nplan first opening period 1\nproduct THRU fare 500 refund 100\n\
            leg AB authorised 3 sold 1 left 2 protected 0 needs 2 covers\n\
            leg BC authorised 2 sold 1 left 1 protected 0 needs 2 short 1\n\
            largest 1 then no BC\nanswer no BC\n",
        ),
        (
            "3",
            b"line 3 book LOC 1\nplan first opening period 1\nproduct LOC fare 200 refund 100\n\
            leg AB authorised 3 sold 1 left 2 protected 0 needs 1 covers\n\
            largest 2 then no AB\nanswer ok 2\n",
        ),
        (
            "4",
            b"line 4 cancel 2\nbooking 2 product LOC party 1 fare 200 worth 200 refund 100\n\
            back 200 withheld 0\nanswer cancelled 2 200\n",
        ),
        ("5", b"line 5 book X 1\nanswer unknown\n"),
        (
            "6",
            b"line 6 reoptimise 1\nleft AB 2\nleft BC 1\nanswer optimised none\n",
        ),
        ("7", b"line 7 plan\n"),
        ("8", b"line 8 bad\nanswer bad\n"),
        ("9", b"line 9 leg AB\n"),
        ("10", b"line 10 leg NONE\nanswer unknown\n"),
    ];
    assert_accounts(&rt, NETWORK, "first", STREAM, &accounts)?;
    Ok(())
}

const USAGE: &[u8] = b"usage: nrm_why MODE FILE NUMBER\n";

#[test]
fn what_is_not_there_is_told(rt: HostRuntime) -> Result<(), Fail> {
    let told: [(&[&str], WhyStatus, &[u8]); 5] = [
        (
            &["first", "F", "11"],
            WhyStatus::NoLine,
            b"absent line 11\n",
        ),
        (&["first", "F", "0"], WhyStatus::Usage, USAGE),
        (&["first", "F"], WhyStatus::Usage, USAGE),
        (&["fast", "F", "1"], WhyStatus::Usage, USAGE),
        (&["bid", "G", "1"], WhyStatus::Refused, b"refused no file\n"),
    ];
    for (given, wanted, line) in told {
        assert_outcome(&rt, NETWORK, given, STREAM, (wanted, line))?;
    }
    Ok(())
}

// Two histories of two periods, and a threshold on each leg, so that the three modes answer apart.
const DEMANDED: &[u8] =
    b"periods,2,2,2\nleg,AB,4,4,300\nleg,BC,3,2,400\nproduct,THRU,500,AB,BC\nproduct,LOC,200,AB\n\
    refund,LOC,25\ndemand,THRU,1,1,1\ndemand,THRU,2,2,0\ndemand,LOC,1,2,1\ndemand,LOC,2,1,1\n";

const DEMANDED_STREAM: &[u8] =
    b"book THRU 1\nbook LOC 1\nbook LOC 2\nbook LOC 1\ncancel 2\nreoptimise 2\nbook THRU 1\nbook LOC 1\nhindsight\n";

// The bid price of AB is the fare of LOC, and that of BC is 0: a fare that equals it is sold.
#[test]
fn bid_prices_are_accounted_for(rt: HostRuntime) -> Result<(), Fail> {
    let accounts: [(&str, &[u8]); 4] = [
        (
            "3",
            b"line 3 book LOC 2\nplan bid opening period 1\nproduct LOC fare 200 refund 25\n\
            leg AB authorised 4 sold 2 left 2 protected 0 needs 2 covers\n\
            price AB 200/1\nsum 200/1 fare 200 reaches\nlargest 2 then no AB\nanswer ok 3\n",
        ),
        (
            "4",
            b"line 4 book LOC 1\nplan bid opening period 1\nproduct LOC fare 200 refund 25\n\
            leg AB authorised 4 sold 4 left 0 protected 0 needs 1 short 1\n\
            largest 0 then no AB\nanswer no AB\n",
        ),
        (
            "5",
            b"line 5 cancel 2\nbooking 2 product LOC party 1 fare 200 worth 200 refund 25\n\
            back 50 withheld 150\nanswer cancelled 2 50\n",
        ),
        (
            "7",
            b"line 7 book THRU 1\nplan bid line 6 period 2\nproduct THRU fare 500 refund 100\n\
            leg AB authorised 4 sold 3 left 1 protected 0 needs 1 covers\n\
            leg BC authorised 2 sold 1 left 1 protected 0 needs 1 covers\n\
            price AB 200/1\nprice BC 0/1\nsum 200/1 fare 500 reaches\n\
            largest 1 then no AB\nanswer ok 4\n",
        ),
    ];
    assert_accounts(&rt, DEMANDED, "bid", DEMANDED_STREAM, &accounts)?;
    Ok(())
}

// On AB bucket 1 has THRU, whose demand to come is 2 in each history, so 2 seats are protected; from period 2 on it is 1 and 0, and 1 is:
// 1 history of 2 has more than no seat, and half of 500 is more than 200.
#[test]
fn nests_are_accounted_for(rt: HostRuntime) -> Result<(), Fail> {
    let accounts: [(&str, &[u8]); 3] = [
        (
            "1",
            b"line 1 book THRU 1\nplan davn opening period 1\nproduct THRU fare 500 refund 100\n\
            nest AB fare 500/1 bucket 1 of 2 from 300\n\
            leg AB authorised 4 sold 0 left 4 protected 0 needs 1 covers\n\
            nest BC fare 300/1 bucket 2 of 2 below 400\n\
            leg BC authorised 2 sold 0 left 2 protected 0 needs 1 covers\n\
            largest 2 then no BC\nanswer ok 1\n",
        ),
        (
            "3",
            b"line 3 book LOC 2\nplan davn opening period 1\nproduct LOC fare 200 refund 25\n\
            nest AB fare 200/1 bucket 2 of 2 below 300\n\
            enough AB seats 2 buckets 1 mean 500/1 next 200/1 histories 2 over 0\ndemand AB 2 2\n\
            leg AB authorised 4 sold 2 left 2 protected 2 needs 2 short 2\n\
            largest 0 then no AB\nanswer no AB\n",
        ),
        (
            "8",
            b"line 8 book LOC 1\nplan davn line 6 period 2\nproduct LOC fare 200 refund 25\n\
            nest AB fare 200/1 bucket 2 of 2 below 300\n\
            enough AB seats 1 buckets 1 mean 500/1 next 200/1 histories 2 over 0\ndemand AB 1 0\n\
            leg AB authorised 4 sold 2 left 2 protected 1 needs 1 covers\n\
            largest 1 then no AB\nanswer ok 4\n",
        ),
    ];
    assert_accounts(&rt, DEMANDED, "davn", DEMANDED_STREAM, &accounts)?;
    Ok(())
}
