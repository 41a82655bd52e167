//! The plan text: the certificate of the plan, or that it has none, and under virtual nesting the nests.
ghost use Rattle.std.specs.Prelude.{OnErr, OnOk};
ghost use Rattle.std.specs.Io.KnownBytes.{Appends};
ghost use Rattle.nrm_edge.specs.Causes.{HasCause};
ghost use Rattle.nrm_edge.specs.Pieces.{AppendsFront};
ghost use Rattle.nrm_plan.specs.Plans.{IsPlanOf};
ghost use Rattle.nrm_report.specs.Texts.{plan_text};

use crate::certificate_text;
use crate::nests::nested_text;
use nrm_edge::{Failed, Sink, put_all};
use nrm_model::{Mode, Network};
use nrm_plan::Plan;

/// Puts the text of a plan: `first` under first come, first served, and else the certificate, by which anyone can check that
/// its allocation and its bid prices are optimal. Under virtual nesting `nest LEG PRODUCT n/d b` follows, leg by leg for each
/// product on it in file order, its adjusted fare and its bucket; then leg by leg `protect LEG y1 y2 ..`, the seats that are
/// protected for its buckets 1 to b, for each b but the last.
///
/// # Errors
/// A put failed; a front of the text went out.
pub fn plan_text<K: Sink>(net: &Network, plan: &Plan, sink: &mut K) -> Result<(), Failed>
    requires { IsPlanOf net.now plan.now }
    ensures whole { OnOk result (Appends (K.held sink.old) (K.held sink.new) (plan_text net.now plan.now)) }
    ensures cut { OnErr result (AppendsFront (K.held sink.old) (K.held sink.new) (plan_text net.now plan.now)) }
    ensures cause { HasCause (K.faults sink.old) (K.faults sink.new) result }
{
    net.limits_hold();
    match (plan.mode(), plan.certificate()) {
        (Mode::Davn, Some(certificate)) => nested_text(net, plan, certificate, sink),
        (_, Some(certificate)) => certificate_text(net, certificate, sink),
        (_, None) => put_all(sink, b"first\n"),
    }
}
