//! A session over a stream: each whole line of a piece is answered, and its reply sent on, before the next piece is taken.
ghost use Rattle.std.specs.Prelude.{◌≡◌, ◌+◌, ◌<◌, ◌≤◌, ◌^◌, [], length, IfOk, IfSome, OnOk, OnErr};
ghost use Rattle.std.specs.Io.KnownBytes.{Consumes, IsAtEnd, ReadConsumes};
ghost use Rattle.nrm_edge.specs.Causes.{HasCause};
ghost use Rattle.std.specs.Option.{option_to_list};
ghost use Rattle.nrm_model.specs.declared.limits.TheConstants.{BOOKING_LIMIT};
ghost use Rattle.nrm_control.specs.State.{SeatState};
ghost use Rattle.nrm_control.specs.Standing.{IsControl, Represents};
ghost use Rattle.nrm_stream.specs.Commands.{IsCommand};
ghost use Rattle.nrm_session.specs.Hindsight.{BoundsFrom};
ghost use Rattle.nrm_session.specs.Clerks.{AreMeanings, Answers, AnswersCut, stopped};
ghost use Rattle.nrm_session.specs.Serving.{CountsFaults, SentOn, Serves, ServesBy, streams};
ghost use Rattle.nrm_session.specs.Inner.Answers.{AnswersPiece, CutsPiece, EndsInput};

use crate::clerk::{Alone, Clerk};
use nrm_control::Controller;
use nrm_edge::{Failed, Sink, Source};
use nrm_stream::{Command, Splitter};
use std::alloc::Global;

/// The number of the next booking with which a session may begin at the latest, a tenth of `BOOKING_LIMIT`: no stream has so many
/// lines that it would come to that.
pub const LATEST_START: u64 = 100_000_000_000;

// The most bytes that are taken at once.
const PIECE: usize = 65_536;

/// How a session over a stream ended.
#[derive(Clone, Copy, Debug, PartialEq, Eq)]
pub enum End {
    /// The input was taken to its end, and the replies to all its lines were written.
    Done,
    /// A take failed. The replies to the whole lines that were taken were written; the unfinished line has none.
    ReadFault,
    /// A put failed, or sending on what was put. The replies to the lines before one were written, and a front of its own; the
    /// controller represents the state after that line.
    WriteFault,
    /// There are more bytes than the limit. The replies to the whole lines up to it were written.
    TooLong,
}

// Takes the next bytes to the front of a buffer, no more than so many.
fn take_front<S: Source>(source: &mut S, buffer: &mut [u8], most: u64) -> Result<usize, Failed>
    requires some { 0 < most }
    requires room { 0 < length buffer.old }
    ensures few { IfOk result (λ count. count ≤ most) }
    ensures within { IfOk result (λ count. count ≤ length buffer.new) }
    ensures bytes { ReadConsumes (S.coming source.old) (S.coming source.new) result buffer.new }
    ensures end { IfOk result (λ count. count ≡ 0 → Consumes (S.coming source.old) (S.coming source.new) []
        × IsAtEnd (S.coming source.new)) }
    ensures cause { HasCause (S.faults source.old) (S.faults source.new) result }
{
    let room = most.min(buffer.len() as u64) as usize;
    source.take(&mut buffer[..room])
}

// Answers each line that a piece ends, and sends the replies on, where there are some.
fn answer_piece<C: Clerk<B>, B, K: Sink>(
    alloc: Global,
    controller: &mut Controller,
    beside: &mut B,
    splitter: &mut Splitter,
    piece: &[u8],
    sink: &mut K,
) -> Result<(), Failed>
    requires next { controller.old.next + length piece.now < BOOKING_LIMIT }
    requires ready { C.ready (controller.old, beside.old) }
    requires meanings { AreMeanings C.whole C.cut }
    ensures whole { OnOk result (AnswersPiece C.whole C.ready (controller.old, beside.old) (controller.new, beside.new)
        splitter.old splitter.new piece.now (K.held sink.old) (K.held sink.new) (K.faults sink.old) (K.faults sink.new)) }
    ensures cut { OnErr result (CutsPiece C.whole C.cut C.ready (controller.old, beside.old) (controller.new, beside.new)
        splitter.old piece.now (K.held sink.old) (K.held sink.new) (K.faults sink.old) (K.faults sink.new)) }
    ensures sent { OnOk result (K.unsent sink.old ≡ [] → K.unsent sink.new ≡ []) }
{
    let mut rest = piece;
    let mut answered = false;
    while !rest.is_empty() {
        let (used, command) = splitter.feed(rest);
        rest = &rest[used..];
        if let Some(command) = command {
            C::answer(alloc, controller, beside, &command, sink)?;
            answered = true;
        }
    }
    if answered {
        sink.flush()?;
    }
    Ok(())
}

// Answers the unfinished line at the end of the input, if it isn't empty, and sends the reply on.
fn answer_last<C: Clerk<B>, B, K: Sink>(
    alloc: Global,
    controller: &mut Controller,
    beside: &mut B,
    last: Option<Command>,
    sink: &mut K,
) -> Result<(), Failed>
    requires within { IfSome last IsCommand }
    requires next { controller.old.next < BOOKING_LIMIT }
    requires ready { C.ready (controller.old, beside.old) }
    requires meanings { AreMeanings C.whole C.cut }
    ensures whole { OnOk result (Answers C.whole C.ready (controller.old, beside.old) (controller.new, beside.new) (option_to_list last)
        (K.held sink.old) (K.held sink.new) (K.faults sink.old) (K.faults sink.new)) }
    ensures cut { OnErr result (AnswersCut (stopped C.whole C.cut) C.ready (controller.old, beside.old) (controller.new, beside.new)
        (option_to_list last) (K.held sink.old) (K.held sink.new) (K.faults sink.old) (K.faults sink.new)) }
    ensures sent { OnOk result (K.unsent sink.old ≡ [] → K.unsent sink.new ≡ []) }
{
    match last {
        None => Ok(()),
        Some(command) => {
            C::answer(alloc, controller, beside, &command, sink)?;
            sink.flush()
        }
    }
}

// Ends a session at the end of its input.
fn end_input<C: Clerk<B>, B, K: Sink>(
    alloc: Global,
    controller: &mut Controller,
    beside: &mut B,
    last: Option<Command>,
    sink: &mut K,
) -> End
    requires within { IfSome last IsCommand }
    requires next { controller.old.next < BOOKING_LIMIT }
    requires ready { C.ready (controller.old, beside.old) }
    requires meanings { AreMeanings C.whole C.cut }
    ensures ends { EndsInput C.whole C.cut C.ready (controller.old, beside.old) (controller.new, beside.new) (option_to_list last)
        (K.held sink.old) (K.held sink.new) (K.faults sink.old) (K.faults sink.new) result }
    ensures sent { SentOn (K.unsent sink.old) (K.unsent sink.new) result }
{
    match answer_last::<C, B, K>(alloc, controller, beside, last, sink) {
        Ok(()) => End::Done,
        Err(_) => End::WriteFault,
    }
}

/// Answers each line of a stream of at most `limit` bytes by a clerk, in order: every whole line of a piece before the next piece
/// is taken. Before it takes again it sends on what it put. A byte more than the limit is taken only when all lines up to the
/// limit are answered.
pub fn serve_by<C: Clerk<B>, B, S: Source, K: Sink>(
    alloc: Global,
    controller: &mut Controller,
    beside: &mut B,
    source: &mut S,
    sink: &mut K,
    limit: u64,
) -> End
    requires limit { limit ≤ 2 ^ 32 }
    requires next { controller.old.next ≤ LATEST_START }
    requires ready { C.ready (controller.old, beside.old) }
    requires meanings { AreMeanings C.whole C.cut }
    ensures serves { let at = streams S.coming S.faults K.held K.faults in
        ServesBy (C.whole (controller.old, beside.old) (controller.new, beside.new))
        (C.cut (controller.old, beside.old) (controller.new, beside.new))
        (at source.old sink.old) (at source.new sink.new) limit result }
    ensures counts { let at = streams S.coming S.faults K.held K.faults in
        CountsFaults (at source.old sink.old) (at source.new sink.new) result }
    ensures sent { SentOn (K.unsent sink.old) (K.unsent sink.new) result }
    ensures ready { C.ready (controller.new, beside.new) }
{
    let mut buffer = [0; PIECE];
    let mut splitter = Splitter::new();
    let mut taken = 0;
    while taken < limit {
        let count = match take_front(source, &mut buffer, limit - taken) {
            Ok(count) => count,
            Err(_) => return End::ReadFault,
        };
        if count == 0 {
            return end_input::<C, B, K>(alloc, controller, beside, splitter.finish(), sink);
        }
        taken += count as u64;
        match answer_piece::<C, B, K>(
            alloc,
            controller,
            beside,
            &mut splitter,
            &buffer[..count],
            sink,
        ) {
            Ok(()) => {}
            Err(_) => return End::WriteFault,
        }
    }
    match take_front(source, &mut buffer, 1) {
        Ok(0) => end_input::<C, B, K>(alloc, controller, beside, splitter.finish(), sink),
        Ok(_) => End::TooLong,
        Err(_) => End::ReadFault,
    }
}

/// Answers each line of a stream of at most `limit` bytes, in order: every whole line of a piece before the next piece is taken,
/// one line of reply a put; the texts of a leg and of a plan take one put a line. Before it takes again it sends on what it put.
/// A byte more than the limit is taken only when all lines up to the limit are answered. It takes memory for lines of
/// `reoptimise` and `hindsight` alone.
pub fn serve<S: Source, K: Sink>(
    alloc: Global,
    controller: &mut Controller,
    source: &mut S,
    sink: &mut K,
    limit: u64,
) -> End
    requires limit { limit ≤ 2 ^ 32 }
    requires next { controller.old.next ≤ LATEST_START }
    ensures serves { let at = streams S.coming S.faults K.held K.faults in
        Serves controller.old controller.new (at source.old sink.old) (at source.new sink.new) limit result }
    ensures counts { let at = streams S.coming S.faults K.held K.faults in
        CountsFaults (at source.old sink.old) (at source.new sink.new) result }
    ensures sent { SentOn (K.unsent sink.old) (K.unsent sink.new) result }
    ensures hindsight { (s : SeatState) → Represents controller.old s → BoundsFrom controller.old.net s }
    ensures sound { IsControl controller.new }
{
    controller.limits_hold();
    serve_by::<Alone, (), S, K>(alloc, controller, &mut (), source, sink, limit)
}
