//! How the reading of a stream ended, with the line that goes with it.
ghost use Rattle.std.specs.Prelude.{◌≡◌, ◌≤◌};
ghost use Rattle.nrm_common_cli.specs.Outside.{SentOn};
ghost use Rattle.nrm_why_cli.specs.Inner.Parts.{EndsReading, EndsSession, SentSince};
ghost use Rattle.nrm_why_cli.specs.Jobs.{absent_line};

use crate::WhyStatus;
use crate::status::STATUSES;
use nrm_account::Teller;
use nrm_edge::Sink;
use nrm_session::End;
use nrm_text::Line;

// The line that a stream has no line of a number.
#[tactic(auto, using(nrm_text::proofs::Decimals::short_decimal))]
fn line_of_absent(number: u64) -> Line
    ensures { result ≡ absent_line number }
{
    let mut line = Line::of_bytes(b"absent line ");
    line.push_u64(number);
    line.push_bytes(b"\n");
    line
}

// Says how the reading of a whole stream ended: with the account; or memory ran out for it; or the line is put that there is no such
// line.
fn end_reading<K: Sink>(sink: &mut K, teller: &Teller) -> WhyStatus
    ensures ends { EndsReading teller.now (K.held sink.old) (K.held sink.new) (K.faults sink.old) (K.faults sink.new) result }
    ensures later { K.faults sink.old ≤ K.faults sink.new }
    ensures sent { SentOn WhyStatus.WriteFault result (K.unsent sink.old) (K.unsent sink.new) }
{
    if teller.ran_out {
        return WhyStatus::NoMemory;
    }
    if teller.left == 0 {
        return WhyStatus::Done;
    }
    STATUSES.put_line(
        sink,
        line_of_absent(teller.asked).bytes(),
        WhyStatus::NoLine,
    )
}

/// Says how the reading of a stream ended.
pub(crate) fn end_session<K: Sink>(sink: &mut K, end: End, teller: &Teller) -> WhyStatus
    ensures ends { EndsSession end teller.now (K.held sink.old) (K.held sink.new) (K.faults sink.old) (K.faults sink.new) result }
    ensures later { K.faults sink.old ≤ K.faults sink.new }
    ensures sent { SentSince end result (K.unsent sink.old) (K.unsent sink.new) }
{
    match end {
        End::Done => end_reading(sink, teller),
        End::ReadFault => WhyStatus::ReadFault,
        End::WriteFault => WhyStatus::WriteFault,
        End::TooLong => WhyStatus::TooLong,
    }
}
