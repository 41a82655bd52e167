//! The lines that say why the rows of a store aren't gone on with.
ghost use Rattle.std.specs.Prelude.{◌≡◌, ◌≤◌};
ghost use Rattle.nrm_common_cli.specs.Puts.{PutsIfSome, PutsLine};
ghost use Rattle.nrm_common_cli.specs.Outside.{SentOn};
ghost use Rattle.nrm_kept_cli.specs.Inner.Parts.{unlisted_line};
ghost use Rattle.nrm_kept_cli.specs.Jobs.{store_refused_line};
ghost use Rattle.nrm_kept_cli.specs.declared.status.KeptStatus.TheVariants as status;

use crate::KeptStatus;
use crate::status::STATUSES;
use nrm_edge::Sink;
use nrm_keeper::KeepFault;
use nrm_text::Line;

/// Puts the line that says that the store failed, unless memory ran out.
pub(crate) fn put_unlisted<K: Sink>(sink: &mut K, why: KeepFault) -> KeptStatus
    ensures puts { PutsIfSome STATUSES (unlisted_line why) status.StoreFault
        (K.held sink.old) (K.held sink.new) (K.faults sink.old) (K.faults sink.new) result }
    ensures later { K.faults sink.old ≤ K.faults sink.new }
    ensures sent { SentOn KeptStatus.WriteFault result (K.unsent sink.old) (K.unsent sink.new) }
{
    match why {
        KeepFault::Failed => STATUSES.put_line(sink, b"store fault\n", KeptStatus::StoreFault),
        KeepFault::NoMemory => KeptStatus::NoMemory,
    }
}

// The line of a row that doesn't load.
#[tactic(auto, using(nrm_text::proofs::Decimals::short_decimal))]
fn line_of_refused(number: u64) -> Line
    ensures { result ≡ store_refused_line number }
{
    let mut line = Line::of_bytes(b"refused store number ");
    line.push_u64(number);
    line.push_bytes(b"\n");
    line
}

/// Puts the line of a row that doesn't load.
pub(crate) fn put_refused<K: Sink>(sink: &mut K, number: u64) -> KeptStatus
    ensures puts { PutsLine STATUSES (store_refused_line number) status.StoreRefused
        (K.held sink.old) (K.held sink.new) (K.faults sink.old) (K.faults sink.new) result }
    ensures later { K.faults sink.old ≤ K.faults sink.new }
    ensures sent { SentOn KeptStatus.WriteFault result (K.unsent sink.old) (K.unsent sink.new) }
{
    STATUSES.put_line(
        sink,
        line_of_refused(number).bytes(),
        KeptStatus::StoreRefused,
    )
}
