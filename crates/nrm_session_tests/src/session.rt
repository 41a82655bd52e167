//! Sessions worked by hand: legs AB with 3 seats and BC with 2, a through product for 500 and a local one for 200; and the same legs
//! with 4 and 1 authorised seats, and a local product for 199 of which a third is given back.
ghost use Rattle.std.specs.Prelude.{◌≡◌, ◌≤◌, ◌^◌, IfOk};

use nrm_control::Controller;
use nrm_edge::{MemSink, MemSource};
use nrm_model::Mode;
use nrm_samples::{two_legs, two_legs_authorised};
use nrm_session::{End, serve};
use nrm_simplex::SolveFault;
use std::alloc::{AllocError, Global};
use std::process::Abort;

fn begin(alloc: Global, mode: Mode) -> Result<Controller, SolveFault>
    ensures { IfOk result (λ controller. controller.next ≡ 1) }
{
    Controller::start(alloc, two_legs(alloc)?, mode)
}

// A session over a stream: the most bytes of each take, the takes and the puts that fail, and the limit.
#[derive(Clone, Copy)]
struct Asked<'a> {
    stream: &'a [u8],
    cuts: &'a [usize],
    failing_takes: &'a [u64],
    failing_puts: &'a [u64],
    limit: u64,
}

// A stream that is taken whole, a limit that is not reached, and nothing fails.
const WHOLE: Asked<'static> = Asked {
    stream: &[],
    cuts: &[],
    failing_takes: &[],
    failing_puts: &[],
    limit: 512,
};

// The stream, as it comes.
fn source(alloc: Global, asked: &Asked<'_>) -> Result<MemSource, AllocError> {
    let takes = asked.failing_takes.to_vec(alloc)?;
    let cuts = asked.cuts.to_vec(alloc)?;
    Ok(MemSource::new(asked.stream.to_vec(alloc)?, cuts, takes))
}

// What is written, of which some puts fail.
fn sink(alloc: Global, asked: &Asked<'_>) -> Result<MemSink, AllocError> {
    let puts = asked.failing_puts.to_vec(alloc)?;
    MemSink::new(alloc, 512, Vec::new(alloc), puts)
}

// How a session ends, and the sink that it wrote to.
fn session_as(alloc: Global, mode: Mode, asked: &Asked<'_>) -> Result<(End, MemSink), SolveFault>
    requires { asked.now.limit ≤ 2 ^ 32 }
{
    let mut controller = begin(alloc, mode)?;
    let told = serve_asked(alloc, &mut controller, asked);
    drop(controller);
    Ok(told?)
}

// The same of a controller that has begun.
fn serve_asked(
    alloc: Global,
    controller: &mut Controller,
    asked: &Asked<'_>,
) -> Result<(End, MemSink), AllocError>
    requires next { controller.old.next ≡ 1 }
    requires limit { asked.now.limit ≤ 2 ^ 32 }
{
    let mut source = source(alloc, asked)?;
    let mut sink = sink(alloc, asked)?;
    let end = serve(alloc, controller, &mut source, &mut sink, asked.limit);
    Ok((end, sink))
}

// The same with a stream that is taken whole, where some puts fail.
fn session<'a>(
    alloc: Global,
    mode: Mode,
    stream: &'a [u8],
    failing: &'a [u64],
) -> Result<(End, MemSink), SolveFault> {
    let asked = Asked {
        stream,
        failing_puts: failing,
        ..WHOLE
    };
    session_as(alloc, mode, &asked)
}

fn assert_ends(rt: &impl Abort, given: Result<(End, MemSink), SolveFault>, end: End, text: &[u8]) {
    match given {
        Ok((ended, sink)) => {
            assert_eq!(rt; ended, end);
            assert_eq!(rt; sink.held(), text);
        }
        Err(_) => assert!(rt; false, "the session doesn't begin"),
    }
}

#[test]
fn lines_are_answered_by_hand(rt: HostRuntime) {
    assert_ends(
        &rt,
        session(
            rt.alloc(),
            Mode::FirstCome,
            b"book THRU 2\ncancel 1\ncancel 1\nbook LOC 1\nleg AB\nplan\nreoptimise 2\nreoptimise 3\nhindsight\nhind\n",
            &[],
        ),
        End::Done,
        b"ok 1\ncancelled 1 1000\nunknown\nok 2\nleg AB seats 3 authorised 3 sold 1 left 2\non AB LOC 1\nfirst\noptimised none\nunknown\n\
            hindsight 1200/1 revenue 200 withheld 0\nbad\n",
    );
}

fn begin_authorised(alloc: Global) -> Result<Controller, SolveFault>
    ensures { IfOk result (λ controller. controller.next ≡ 1) }
{
    Controller::start(alloc, two_legs_authorised(alloc)?, Mode::FirstCome)
}

// Lines of a session by first come, first served on the network with authorised seats.
fn session_authorised(alloc: Global, stream: &[u8]) -> Result<(End, MemSink), SolveFault> {
    let asked = Asked { stream, ..WHOLE };
    let mut controller = begin_authorised(alloc)?;
    let told = serve_asked(alloc, &mut controller, &asked);
    drop(controller);
    Ok(told?)
}

// Of 398 a third is given back, 131, and 267 withheld. Five local seats were asked for, of which four might have been sold.
#[test]
fn refunds_and_authorised_seats_by_hand(rt: HostRuntime) {
    assert_ends(
        &rt,
        session_authorised(
            rt.alloc(),
            b"book LOC 2\ncancel 1\nbook LOC 3\nhindsight\nleg AB\n",
        ),
        End::Done,
        b"ok 1\ncancelled 1 131\nok 2\nhindsight 796/1 revenue 597 withheld 267\nleg AB seats 3 authorised 4 sold 3 left 1\non AB LOC 3\n",
    );
}

// With one seat left on the first leg it costs 500 there, and nothing on the second.
#[test]
fn lines_are_answered_at_bid_prices_by_hand(rt: HostRuntime) {
    assert_ends(
        &rt,
        session(
            rt.alloc(),
            Mode::Bid,
            b"book LOC 2\nbook LOC 2\nreoptimise 1\nbook LOC 1\nplan\nbook THRU 1\n",
            &[],
        ),
        End::Done,
        b"ok 1\nno AB\noptimised 500/1\nno fare\nvalue 500/1\nproduct THRU 1/1\nproduct LOC 0/1\nleg AB 500/1\nleg BC 0/1\nok 2\n",
    );
}

// The put of this number fails: so much was written before it.
fn cut(rt: &impl Abort, alloc: Global, mode: Mode, failing: u64, stream: &[u8], held: &[u8]) {
    let given = session(alloc, mode, stream, &[failing]);
    assert_ends(rt, given, End::WriteFault, held);
}

// First come, first served, the second put fails.
fn cut_in_second(rt: &impl Abort, alloc: Global, stream: &[u8], held: &[u8]) {
    cut(rt, alloc, Mode::FirstCome, 2, stream, held);
}

#[test]
fn each_line_goes_out_in_one_put(rt: HostRuntime) {
    let alloc = rt.alloc();
    cut_in_second(&rt, alloc, b"book\nbook\n", b"bad\n");
    cut_in_second(&rt, alloc, b"book X 1\nbook X 1\n", b"unknown\n");
    cut_in_second(&rt, alloc, b"book LOC 1\nbook LOC 1\n", b"ok 1\n");
    cut_in_second(&rt, alloc, b"book THRU 3\nbook THRU 3\n", b"no BC\n");
    let held = b"leg BC seats 2 authorised 2 sold 0 left 2\n";
    cut_in_second(&rt, alloc, b"leg BC\nleg BC\n", held);
    cut_in_second(&rt, alloc, b"plan\nplan\n", b"first\n");
    let held = b"optimised none\n";
    cut_in_second(&rt, alloc, b"reoptimise 1\nplan\n", held);
    let held = b"hindsight 0/1 revenue 0 withheld 0\n";
    cut_in_second(&rt, alloc, b"hindsight\nhindsight\n", held);
    let stream = b"book LOC 1\ncancel 1\ncancel 1\n";
    let held = b"ok 1\ncancelled 1 200\n";
    cut(&rt, alloc, Mode::FirstCome, 3, stream, held);
}

#[test]
fn each_line_of_a_plan_goes_out_in_one_put(rt: HostRuntime) {
    let alloc = rt.alloc();
    cut(&rt, alloc, Mode::Bid, 2, b"plan\n", b"value 1200/1\n");
    let held = b"value 1200/1\nproduct THRU 2/1\nproduct LOC 1/1\nleg AB 200/1\n";
    cut(&rt, alloc, Mode::Bid, 5, b"plan\n", held);
    let held = b"optimised 1200/1\n";
    cut(&rt, alloc, Mode::Bid, 2, b"reoptimise 1\nplan\n", held);
    let stream = b"book LOC 2\nreoptimise 1\nbook LOC 1\nplan\n";
    let held = b"ok 1\noptimised 500/1\nno fare\n";
    cut(&rt, alloc, Mode::Bid, 4, stream, held);
}

// Two bytes a take, so that words, line ends and a carriage return are cut.
#[test]
fn a_cut_stream_is_answered_alike(rt: HostRuntime) {
    let asked = Asked {
        stream: b"book THRU 2\r\nbook THRU 1\nbook LOC 1",
        cuts: &[2, 2, 2, 2, 2, 2, 2, 2, 2, 2, 2, 2, 2, 2, 2, 2, 2, 2],
        ..WHOLE
    };
    let given = session_as(rt.alloc(), Mode::FirstCome, &asked);
    assert_ends(&rt, given, End::Done, b"ok 1\nno BC\nok 2\n");
}

// The third take fails, in the second line.
#[test]
fn whole_lines_are_answered_before_a_take_fails(rt: HostRuntime) {
    let asked = Asked {
        stream: b"book LOC 1\nbook LOC 1\n",
        cuts: &[11, 4],
        failing_takes: &[3],
        ..WHOLE
    };
    let given = session_as(rt.alloc(), Mode::FirstCome, &asked);
    assert_ends(&rt, given, End::ReadFault, b"ok 1\n");
}

#[test]
fn a_byte_past_the_limit_is_too_many(rt: HostRuntime) {
    let mut asked = Asked {
        stream: b"book LOC 1\n",
        limit: 11,
        ..WHOLE
    };
    let given = session_as(rt.alloc(), Mode::FirstCome, &asked);
    assert_ends(&rt, given, End::Done, b"ok 1\n");
    asked.stream = b"book LOC 1\nb";
    let given = session_as(rt.alloc(), Mode::FirstCome, &asked);
    assert_ends(&rt, given, End::TooLong, b"ok 1\n");
}

// The second put fails, and the third line of the piece has no reply.
#[test]
fn no_line_behind_a_cut_one_is_answered(rt: HostRuntime) {
    let stream = b"book LOC 1\nbook LOC 1\nbook LOC 1\n";
    cut_in_second(&rt, rt.alloc(), stream, b"ok 1\n");
}
