//! Whole calls over files, a stream, a sink and a keeper in memory. The worked ones are on legs AB with 3 seats and BC with 2; the others
//! compare a session over a store with the same session without one.
ghost use Rattle.std.specs.Prelude.{◌≡◌, ◌<◌, IfOk};

use nrm_common_cli::open_network;
use nrm_control::Controller;
use nrm_edge::{MemFiles, MemSink, MemSource};
use nrm_keeper::{KeepFault, Keeper, KeptRow, MemKeeper};
use nrm_kept_cli::{KeptStatus, run_kept};
use nrm_model::{Mode, Network};
use nrm_session::{End, serve};
use nrm_text::name_of;
use std::alloc::{AllocError, Global};
use std::process::Abort;
use std::test::Fail;

const NETWORK: &[u8] =
    b"periods,1,1\nleg,AB,3\nleg,BC,2\nproduct,THRU,500,AB,BC\nproduct,LOC,200,AB\n";

// Two histories of two periods, and a threshold on each leg, so that the three modes answer apart.
const DEMANDED: &[u8] =
    b"periods,2,2,2\nleg,AB,4,4,300\nleg,BC,3,2,400\nproduct,THRU,500,AB,BC\nproduct,LOC,200,AB\n\
    refund,LOC,25\ndemand,THRU,1,1,1\ndemand,THRU,2,2,0\ndemand,LOC,1,2,1\ndemand,LOC,2,1,1\n";

// A dozen lines, each of which has a reply of one line.
const LINES: [&[u8]; 12] = [
    b"book THRU 1\n",
    b"book LOC 1\n",
    b"book LOC 1\n",
    b"cancel 1\n",
    b"book THRU 2\n",
    b"cancel 9\n",
    b"book X 1\n",
    b"book LOC 1\n",
    b"cancel 2\n",
    b"reoptimise 2\n",
    b"book LOC 1\n",
    b"hindsight\n",
];

// Some lines as a stream: those from a place on, up to another, but for one if its place is given.
fn stream_of(
    alloc: Global,
    lines: &[&[u8]],
    from: usize,
    to: usize,
    left_out: Option<usize>,
) -> Result<Vec<u8>, AllocError> {
    let mut stream = Vec::new(alloc);
    for (place, line) in lines.iter().enumerate() {
        if from <= place && place < to && left_out != Some(place) {
            stream.extend_from_slice(line)?;
        }
    }
    Ok(stream)
}

// The lines, but for one if its place is given.
fn stream_without(alloc: Global, left_out: Option<usize>) -> Result<Vec<u8>, AllocError> {
    stream_of(alloc, &LINES, 0, LINES.len(), left_out)
}

// The lines from a place on, up to another.
fn lines_from(alloc: Global, from: usize, to: usize) -> Result<Vec<u8>, AllocError> {
    stream_of(alloc, &LINES, from, to, None)
}

// The files: one network under the name F.
fn files(alloc: Global, network: &[u8]) -> Result<MemFiles, AllocError> {
    let mut list = Vec::new(alloc);
    list.push((b"F".to_vec(alloc)?, network.to_vec(alloc)?))?;
    Ok(MemFiles::new(list, Vec::new(alloc)))
}

fn source(alloc: Global, stream: &[u8]) -> Result<MemSource, AllocError> {
    Ok(MemSource::new(stream.to_vec(alloc)?, Vec::new(alloc), Vec::new(alloc)))
}

fn sink(alloc: Global) -> Result<MemSink, AllocError> {
    MemSink::new(alloc, 1024, Vec::new(alloc), Vec::new(alloc))
}

// How the program ends over a keeper, and the sink that it wrote to.
fn outcome<P: Keeper>(
    alloc: Global,
    mode: &str,
    network: &[u8],
    keeper: &mut P,
    stream: &[u8],
) -> Result<(KeptStatus, MemSink), AllocError> {
    let mut words = Vec::new(alloc);
    for word in [mode, "F", "STORE"] {
        words.push(String::from_str(alloc, word)?)?;
    }
    let mut files = files(alloc, network)?;
    let mut source = source(alloc, stream)?;
    let mut sink = sink(alloc)?;
    let status = run_kept(alloc, &words, &mut files, &mut source, &mut sink, keeper);
    Ok((status, sink))
}

fn row(number: u64, product: &[u8], party: u16) -> Result<KeptRow, Fail>
    ensures { IfOk result (λ row. row.number ≡ number) }
{
    match name_of(product) {
        Some(product) => Ok(KeptRow {
            number,
            product,
            party,
        }),
        None => Err(Fail::from("no name")),
    }
}

// Whether the keeper lists these rows.
fn keeps<P: Keeper>(keeper: &mut P, alloc: Global, wanted: &[(u64, &[u8], u16)]) -> bool {
    let Ok(rows) = keeper.all(alloc) else {
        return false;
    };
    if rows.len() != wanted.len() {
        return false;
    }
    for (row, want) in rows.iter().zip(wanted) {
        if row.number != want.0 || row.product.bytes() != want.1 || row.party != want.2 {
            return false;
        }
    }
    true
}

// A keeper of no rows, whose calls of these numbers fail.
fn empty(alloc: Global, failing: &[u64]) -> Result<MemKeeper, AllocError> {
    Ok(MemKeeper::new(Vec::new(alloc), failing.to_vec(alloc)?))
}

// First come, first served, the program ends so over a keeper, and has written this.
fn assert_outcome(
    rt: &(impl Abort + AllocGlobal),
    keeper: &mut MemKeeper,
    stream: &[u8],
    wanted: (KeptStatus, &[u8]),
) -> Result<(), AllocError> {
    let (status, sink) = outcome(rt.alloc(), "first", NETWORK, keeper, stream)?;
    assert_eq!(rt; status, wanted.0);
    assert_eq!(rt; sink.held(), wanted.1);
    Ok(())
}

#[test]
fn a_later_run_goes_on(rt: HostRuntime) -> Result<(), Fail> {
    let mut keeper = empty(rt.alloc(), &[])?;
    let stream = b"book THRU 2\nbook LOC 1\ncancel 1\n";
    let text = b"ok 1\nok 2\ncancelled 1 1000\n";
    assert_outcome(&rt, &mut keeper, stream, (KeptStatus::Done, text))?;
    assert!(rt; keeps(&mut keeper, rt.alloc(), &[(2, b"LOC", 1)]));
    let stream = b"book THRU 2\nhindsight\n";
    let text = b"ok 3\nhindsight 1200/1 revenue 1200 withheld 0\n";
    assert_outcome(&rt, &mut keeper, stream, (KeptStatus::Done, text))?;
    assert!(rt; keeps(&mut keeper, rt.alloc(), &[(2, b"LOC", 1), (3, b"THRU", 2)]));
    Ok(())
}

// The first call lists the rows, the second adds one, and the third fails.
#[test]
fn a_booking_that_is_not_stored_is_not_made(rt: HostRuntime) -> Result<(), Fail> {
    let mut keeper = empty(rt.alloc(), &[3])?;
    let stream = b"book THRU 2\nbook LOC 1\nbook LOC 1\n";
    let text = b"ok 1\nstore\nok 2\n";
    assert_outcome(&rt, &mut keeper, stream, (KeptStatus::Done, text))?;
    assert!(rt; keeps(&mut keeper, rt.alloc(), &[(1, b"THRU", 2), (2, b"LOC", 1)]));
    Ok(())
}

#[test]
fn a_store_that_fails_at_once_is_told(rt: HostRuntime) -> Result<(), Fail> {
    let mut keeper = empty(rt.alloc(), &[1])?;
    let wanted = (KeptStatus::StoreFault, b"store fault\n".as_slice());
    assert_outcome(&rt, &mut keeper, b"book LOC 1\n", wanted)?;
    Ok(())
}

// A keeper of one row.
fn of_one(alloc: Global, row: KeptRow) -> Result<MemKeeper, AllocError> {
    let rows = Vec::from_array(alloc, [row])?;
    Ok(MemKeeper::new(rows, Vec::new(alloc)))
}

// A keeper of two rows.
fn of_two(alloc: Global, one: KeptRow, other: KeptRow) -> Result<MemKeeper, AllocError>
    requires { one.number < other.number }
{
    let rows = Vec::from_array(alloc, [one, other])?;
    Ok(MemKeeper::new(rows, Vec::new(alloc)))
}

// An unknown product; and three local seats, which fill AB, ahead of a through seat.
#[test]
fn rows_that_do_not_load_are_refused(rt: HostRuntime) -> Result<(), Fail> {
    let alloc = rt.alloc();
    let stream = b"book LOC 1\n";
    let text = b"refused store number 5\n";
    let mut unknown = of_one(alloc, row(5, b"NONE", 1)?)?;
    assert_outcome(&rt, &mut unknown, stream, (KeptStatus::StoreRefused, text))?;
    let text = b"refused store number 2\n";
    let mut full = of_two(alloc, row(1, b"LOC", 3)?, row(2, b"THRU", 1)?)?;
    assert_outcome(&rt, &mut full, stream, (KeptStatus::StoreRefused, text))?;
    Ok(())
}

fn demanded(alloc: Global) -> Result<Network, Fail> {
    let mut files = files(alloc, DEMANDED)?;
    match open_network(alloc, &mut files, "F") {
        Ok(net) => Ok(net),
        Err(_) => Err(Fail::from("no network")),
    }
}

// A controller that begins on the network with demand.
fn begun(alloc: Global, mode: Mode) -> Result<Controller, Fail> {
    let net = demanded(alloc)?;
    match Controller::start(alloc, net, mode) {
        Ok(controller) => Ok(controller),
        Err(_) => Err(Fail::from("no controller")),
    }
}

// What a controller that begins writes without a store.
fn served(
    alloc: Global,
    controller: &mut Controller,
    source: &mut MemSource,
    sink: &mut MemSink,
) -> Result<(), Fail> {
    if controller.book().next() != 1 {
        return Err(Fail::from("a book that is not new"));
    }
    match serve(alloc, controller, source, sink, 1_000_000) {
        End::Done => Ok(()),
        _ => Err(Fail::from("a session that was cut")),
    }
}

// What a session without a store writes on the network with demand.
fn session(alloc: Global, controller: &mut Controller, stream: &[u8]) -> Result<Vec<u8>, Fail> {
    let mut source = source(alloc, stream)?;
    let mut sink = sink(alloc)?;
    served(alloc, controller, &mut source, &mut sink)?;
    Ok(sink.held().to_vec(alloc)?)
}

// The place of the line that was answered `store`.
fn unstored(output: &[u8]) -> Option<usize> {
    output
        .split(|byte| *byte == b'\n')
        .position(|line| line == b"store".as_slice())
}

// Some lines of output with the line `store` put in at a place.
fn with_store(alloc: Global, output: &[u8], place: usize) -> Result<Vec<u8>, AllocError> {
    let mut whole = Vec::new(alloc);
    for (at, line) in output.split(|byte| *byte == b'\n').enumerate() {
        if at == place {
            whole.extend_from_slice(b"store\n")?;
        }
        if !line.is_empty() {
            whole.extend_from_slice(line)?;
            whole.push(b'\n')?;
        }
    }
    Ok(whole)
}

// The rows. The call that fails may be the first one here.
fn rows_of(alloc: Global, keeper: &mut MemKeeper) -> Result<Vec<KeptRow>, KeepFault> {
    match keeper.all(alloc) {
        Ok(rows) => Ok(rows),
        Err(_) => keeper.all(alloc),
    }
}

// Whether the keeper lists the bookings of a controller.
fn keeps_book(alloc: Global, keeper: &mut MemKeeper, controller: &Controller) -> bool {
    let Ok(rows) = rows_of(alloc, keeper) else {
        return false;
    };
    let mut bookings = controller.book().bookings();
    for row in &rows {
        let Some(booking) = bookings.next() else {
            return false;
        };
        let Some(product) = controller.network().find_product(&row.product) else {
            return false;
        };
        if (row.number, product, row.party) != (booking.number, booking.product, booking.party) {
            return false;
        }
    }
    bookings.next().is_none()
}

// What is wanted of a session in which the line at a place was answered `store`: that of a session without the line.
fn wanted(
    alloc: Global,
    controller: &mut Controller,
    place: Option<usize>,
) -> Result<Vec<u8>, Fail> {
    let plain = session(alloc, controller, &stream_without(alloc, place)?)?;
    match place {
        Some(place) => Ok(with_store(alloc, &plain, place)?),
        None => Ok(plain),
    }
}

// What a session over a keeper writes on the network with demand.
fn replies(
    alloc: Global,
    mode: &str,
    keeper: &mut MemKeeper,
    stream: &[u8],
) -> Result<Vec<u8>, AllocError> {
    let (_, sink) = outcome(alloc, mode, DEMANDED, keeper, stream)?;
    sink.held().to_vec(alloc)
}

// Whether replies and rows are those that are wanted of a session in which the line at a place was answered `store`.
fn is_wanted(
    alloc: Global,
    controller: &mut Controller,
    keeper: &mut MemKeeper,
    told: &[u8],
    place: Option<usize>,
) -> Result<bool, Fail> {
    let wanted = wanted(alloc, controller, place)?;
    Ok(told == wanted.as_slice() && keeps_book(alloc, keeper, controller))
}

// A call of the keeper fails. Gives the place of the line that was answered `store`, if one was, and whether replies, state and rows
// are those that are wanted.
fn fails_in_turn(
    alloc: Global,
    mode: (Mode, &str),
    call: u64,
) -> Result<(Option<usize>, bool), Fail> {
    let mut keeper = empty(alloc, &[call])?;
    let told = replies(alloc, mode.1, &mut keeper, &stream_without(alloc, None)?)?;
    let place = unstored(&told);
    let mut controller = begun(alloc, mode.0)?;
    let is_so = is_wanted(alloc, &mut controller, &mut keeper, &told, place);
    drop(controller);
    Ok((place, is_so?))
}

// The calls behind the first, which lists the rows, until some come that are never made.
#[test]
fn each_call_fails_in_turn(rt: HostRuntime) -> Result<(), Fail> {
    for mode in [
        (Mode::FirstCome, "first"),
        (Mode::Bid, "bid"),
        (Mode::Davn, "davn"),
    ] {
        let mut failed = 0_u32;
        for call in 2..20 {
            let (place, is_so) = fails_in_turn(rt.alloc(), mode, call)?;
            assert!(rt; is_so, "call {call}");
            if place.is_some() {
                failed = failed.saturating_add(1);
            }
        }
        assert!(rt; 5 <= failed && failed < 12, "{failed} calls failed");
    }
    Ok(())
}

// First come, first served, a run is cut before a line, and another goes on with its rows: whether the replies are those of one run, but
// for the line of hindsight, and the rows are those of its bookings.
fn goes_on(alloc: Global, cut: usize, plain: &[u8], controller: &Controller) -> Result<bool, Fail> {
    let mut keeper = empty(alloc, &[])?;
    let mut told = replies(alloc, "first", &mut keeper, &lines_from(alloc, 0, cut)?)?;
    let late = replies(
        alloc,
        "first",
        &mut keeper,
        &lines_from(alloc, cut, LINES.len())?,
    )?;
    told.extend_from_slice(&late)?;
    Ok(told.starts_with(plain) && keeps_book(alloc, &mut keeper, controller))
}

// The first line before which a cut is seen, if there is one.
fn cut_that_is_seen(alloc: Global, controller: &mut Controller) -> Result<Option<usize>, Fail> {
    let plain = session(alloc, controller, &lines_from(alloc, 0, 11)?)?;
    for cut in 0..11 {
        if !goes_on(alloc, cut, &plain, controller)? {
            return Ok(Some(cut));
        }
    }
    Ok(None)
}

#[test]
fn a_cut_run_is_gone_on_with(rt: HostRuntime) -> Result<(), Fail> {
    let mut controller = begun(rt.alloc(), Mode::FirstCome)?;
    let seen = cut_that_is_seen(rt.alloc(), &mut controller);
    drop(controller);
    assert_eq!(rt; seen?, None);
    Ok(())
}
