//! The top call.
ghost use Rattle.std.specs.Prelude.{map, string_bytes};
ghost use Rattle.nrm_session.specs.Headline.{RequestsAreAnswered};
ghost use Rattle.nrm_session.specs.Hindsight.{HindsightBounds};
ghost use Rattle.nrm_session.specs.LastPlan.{PrintedPricesAreOptimal};
ghost use Rattle.nrm_session.specs.Laws.{EachListHasARun, OtherLinesNeedNoMemory, PlansStayOptimal, RepliesAreDetermined};
ghost use Rattle.nrm_session.specs.Laws.{RunsHaveFirstParts};
ghost use Rattle.nrm_session.specs.Laws.{RunsOversellNoLeg, StatesAreDetermined};
ghost use Rattle.nrm_session.specs.Money.{MoneyAddsUp};
ghost use Rattle.nrm_session.specs.PhysicalSeats.{PhysicalSeatsDecideNothing};
ghost use Rattle.nrm_cluster.specs.Laws.{NoGroupingCostsLess};
ghost use Rattle.nrm_legdp.specs.Laws.{NoPolicyEarnsMore, ProtectionsEarnAll};
ghost use Rattle.nrm_common_cli.specs.NetworkFile.{FilesGiveNetworks};
ghost use Rattle.nrm_common_cli.specs.Outside.{SentOn, outside};
ghost use Rattle.nrm_cli.specs.Call.{Call};
ghost use Rattle.nrm_cli.specs.Jobs.{job_of};
ghost use Rattle.nrm_findings.specs.LegMeans.{ValuesAreMeans};
ghost use Rattle.nrm_cli.specs.LegTexts.{LegTextsAreDetermined};
ghost use Rattle.nrm_cli.specs.Own.{OptimalCertificatesPass, OwnCertificatesPass};

use crate::Status;
use crate::words::{asked_in, run_asked};
use nrm_edge::{Files, Sink, Source};
use std::alloc::Global;

/// Does what the words (without the program's own name) ask for: `run MODE FILE` answers the lines of the stream on the
/// network of the file, `plan MODE FILE` writes its opening plan, `check FILE CERT` checks a certificate against the linear program
/// of period 1 with every authorised seat left, `print FILE` writes a network's canonical form, and `gen MODE NUMBER` answers the 10,000
/// commands that are made of a number, up to 4,294,967,295, on the network that is made of it, and sums the replies up in one line.
/// `cuts FILE LEG GROUPS` writes the thresholds that cut the fares on a leg into at most so many groups, 1 to 10, at the least cost, and
/// `dp FILE LEG` the classes of a leg, the value of its authorised seats and its protections (chapter 2 of the book). MODE is `first`,
/// `bid` or `davn`, and LEG the name of a leg. All other words get the usage line.
///
/// What the call says of itself: `call` ties the bytes that it took and wrote, the files and the counts of faults to
/// its status, and where it answered a stream, to the run of a session over the lines of that stream (`Call`); `sent`,
/// that nothing is kept back at the end.
///
/// The other clauses are laws about every run of a session, and so about that one. A request for a product of the
/// network is sold exactly when on every leg the party and what is protected from the product fit the seats left, and its
/// fare reaches the sum of its legs' bid prices where the mode has them; else the first leg that is short is named, or
/// the fare, and no other reply is given; what is sold stands (`requests`). No leg has more seats sold than are authorised
/// (`seats`), and physical seats decide nothing: from one state, with its plan, on networks that differ in them alone the replies differ
/// in the text of a leg alone (`physical`). The plan in force is one of the network, and in the modes that solve linear programs its bid
/// prices are optimal duals (`optimal`); what a `plan` line prints is the text of such a plan, for the seats left and from the period of
/// the last line that was answered `optimised` (`printed`). At each line of hindsight that tells a value, no selection of the requests so
/// far, sold or not, cancelled or not, each whole and at most once, that fits the authorised seats earns more, an allocation of their
/// linear program earns just that, and the bookings that stand are such a selection, which earns the revenue beside it (`hindsight`). What
/// was sold in all is the revenue of the bookings that stand, what was given back, and what is withheld (`money`). The commands of a
/// session have one list of replies and one last state where no line runs out of memory (`determined`), and such a list (`there`); with the
/// replies given the states are one (`states`); a first part of a run is a run, so each law holds in every state on the way (`parts`). A
/// line runs out of memory only where a linear program is solved, and then nothing changes (`free`). What a file gives is a network as the
/// laws ask for (`networks`). The text of what the solver finds for a network passes the check (`own`), and so does each certificate whose
/// allocation and bid prices are optimal and whose value is their cost (`others`). No grouping of the fares on a leg, neighbours or not,
/// around any whole numbers, costs less than the thresholds that `cuts` writes (`groupings`). No policy earns more than the value that `dp`
/// writes (`policies`), and to sell by the protections that it writes earns all of it (`protections`).
pub fn run<F: Files, S: Source, K: Sink>(
    alloc: Global,
    words: &[String],
    files: &mut F,
    source: &mut S,
    sink: &mut K,
) -> Status
    ensures call { let at = outside F.contents F.faults S.coming S.faults K.held K.faults in
        Call (job_of (map string_bytes words.now)) (at files.old source.old sink.old) (at files.new source.new sink.new) result }
    ensures sent { SentOn Status.WriteFault result (K.unsent sink.old) (K.unsent sink.new) }
    ensures requests { RequestsAreAnswered }
    ensures seats { RunsOversellNoLeg }
    ensures optimal { PlansStayOptimal }
    ensures printed { PrintedPricesAreOptimal }
    ensures hindsight { HindsightBounds }
    ensures money { MoneyAddsUp }
    ensures physical { PhysicalSeatsDecideNothing }
    ensures groupings { NoGroupingCostsLess }
    ensures policies { NoPolicyEarnsMore }
    ensures protections { ProtectionsEarnAll }
    ensures legs { LegTextsAreDetermined }
    ensures means { ValuesAreMeans }
    ensures determined { RepliesAreDetermined }
    ensures there { EachListHasARun }
    ensures states { StatesAreDetermined }
    ensures parts { RunsHaveFirstParts }
    ensures free { OtherLinesNeedNoMemory }
    ensures networks { FilesGiveNetworks }
    ensures own { OwnCertificatesPass }
    ensures others { OptimalCertificatesPass }
{
    run_asked(alloc, &asked_in(words), files, source, sink)
}
