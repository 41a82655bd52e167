//! The nests of a plan: leg by leg a line for each product on it, with its adjusted fare and its bucket, and then leg by
//! leg a line of its protections. Each line is put at once.
ghost use Rattle.std.specs.Prelude.{◌≡◌, ◌≤◌, ◌<◌, ◌*◌, ◌+◌, ◌^◌, ◌++◌, ◌∷◌, [], codes, decimal, flat_map, get_or, length, true};
ghost use Rattle.std.specs.Prelude.{unsigned_abs, OnErr, OnOk, Some};
ghost use Rattle.std.specs.Io.KnownBytes.{Appends};
ghost use Rattle.std.specs.List.{range_with_len};
ghost use Rattle.nrm_edge.specs.Causes.{HasCause};
ghost use Rattle.nrm_edge.specs.Pieces.{AppendsFront};
ghost use Rattle.nrm_fraction.specs.Fraction.{◌over◌};
ghost use Rattle.nrm_text.specs.Fractions.{fraction_text};
ghost use Rattle.nrm_text.specs.Words.{spaced, text_line};
ghost use Rattle.nrm_lp.specs.declared.certificate.Certificate.{Certificate as Cert};
ghost use Rattle.nrm_model.specs.Inventory.{inventory_of, products_on, uses_leg};
ghost use Rattle.nrm_model.specs.declared.limits.TheConstants.{MOST_THRESHOLDS};
ghost use Rattle.nrm_plan.specs.Nesting.{NestsValue};
ghost use Rattle.nrm_dual.specs.Texts.{certificate_text};
ghost use Rattle.nrm_report.specs.Inner.Nests.{IsNested, protections_line};
ghost use Rattle.nrm_report.specs.Texts.{nest_line, nests_text};

use crate::certificate_text;
use crate::line::{ROOM, names_on_leg};
use nrm_edge::{Failed, Sink, put_all};
use nrm_lp::Certificate;
use nrm_model::Network;
use nrm_plan::Plan;
use nrm_text::{Name, Text};
use nrm_virtual::adjusted;

// The most bytes of the line of the protections of a leg.
const PROTECTIONS_ROOM: usize = 320;

// The line of a product on a leg, from its numbers.
#[tactic(auto, using(nrm_text::proofs::Fractions::short_fraction))]
fn line_of_nest(leg: &Name, product: &Name, fare: i128, den: u128, bucket: u8) -> Text<ROOM>
    requires some { 1 ≤ den }
    requires fare_size { unsigned_abs fare < 2 ^ 126 }
    requires den_size { den < 2 ^ 126 }
    ensures { result ≡ text_line (codes "nest" ∷ leg.now ∷ product.now ∷ fraction_text (fare over den) ∷ decimal bucket ∷ []) }
{
    let mut line = names_on_leg(b"nest", leg, product);
    line.push_bytes(b" ");
    line.push_fraction(fare, den);
    line.push_spaced(u64::from(bucket));
    line.push_bytes(b"\n");
    line
}

// The line of a product on a leg.
fn line_for_nest(
    net: &Network,
    plan: &Plan,
    certificate: &Certificate,
    leg: u8,
    product: u16,
) -> Text<ROOM>
    requires nested { IsNested net.now certificate.now plan.now }
    requires leg { leg < length net.now.legs }
    requires product { product < length net.now.products }
    requires uses { uses_leg (inventory_of net.now) leg product ≡ true }
    ensures { result ≡ nest_line net.now certificate.now leg product }
{
    let fare = adjusted(net, certificate, leg, product);
    let bucket = plan.bucket(leg, product);
    line_of_nest(
        &net.leg_at(leg).name,
        &net.product_at(product).name,
        fare,
        u128::from(certificate.den.unsigned_abs()),
        bucket,
    )
}

// Puts the line of a product on a leg.
fn put_nest<K: Sink>(
    net: &Network,
    plan: &Plan,
    certificate: &Certificate,
    leg: u8,
    product: u16,
    sink: &mut K,
) -> Result<(), Failed>
    requires nested { IsNested net.now certificate.now plan.now }
    requires leg { leg < length net.now.legs }
    requires product { product < length net.now.products }
    requires uses { uses_leg (inventory_of net.now) leg product ≡ true }
    ensures whole { OnOk result (Appends (K.held sink.old) (K.held sink.new) (nest_line net.now certificate.now leg product)) }
    ensures cut { OnErr result (AppendsFront (K.held sink.old) (K.held sink.new) (nest_line net.now certificate.now leg product)) }
    ensures cause { HasCause (K.faults sink.old) (K.faults sink.new) result }
{
    let line = line_for_nest(net, plan, certificate, leg, product);
    put_all(sink, line.bytes())
}

// Puts the lines of the products on a leg, in file order.
fn put_nests_of_leg<K: Sink>(
    net: &Network,
    plan: &Plan,
    certificate: &Certificate,
    leg: u8,
    sink: &mut K,
) -> Result<(), Failed>
    requires nested { IsNested net.now certificate.now plan.now }
    requires leg { leg < length net.now.legs }
    ensures whole { OnOk result (Appends (K.held sink.old) (K.held sink.new)
        (flat_map (nest_line net.now certificate.now leg) (products_on (inventory_of net.now) leg))) }
    ensures cut { OnErr result (AppendsFront (K.held sink.old) (K.held sink.new)
        (flat_map (nest_line net.now certificate.now leg) (products_on (inventory_of net.now) leg))) }
    ensures cause { HasCause (K.faults sink.old) (K.faults sink.new) result }
{
    for product in net.products_on(leg) {
        put_nest(net, plan, certificate, leg, *product, sink)?;
    }
    Ok(())
}

// Puts the lines of the products, leg by leg.
fn put_nests<K: Sink>(
    net: &Network,
    plan: &Plan,
    certificate: &Certificate,
    sink: &mut K,
) -> Result<(), Failed>
    requires { IsNested net.now certificate.now plan.now }
    ensures whole { OnOk result (Appends (K.held sink.old) (K.held sink.new)
        (flat_map (λ leg. flat_map (nest_line net.now certificate.now leg) (products_on (inventory_of net.now) leg))
        (range_with_len 0 (length net.now.legs)))) }
    ensures cut { OnErr result (AppendsFront (K.held sink.old) (K.held sink.new)
        (flat_map (λ leg. flat_map (nest_line net.now certificate.now leg) (products_on (inventory_of net.now) leg))
        (range_with_len 0 (length net.now.legs)))) }
    ensures cause { HasCause (K.faults sink.old) (K.faults sink.new) result }
{
    for leg in 0..net.leg_count() as u8 {
        put_nests_of_leg(net, plan, certificate, leg, sink)?;
    }
    Ok(())
}

// Appends the protections of a leg, for each of so many buckets.
fn push_protections(line: &mut Text<PROTECTIONS_ROOM>, plan: &Plan, leg: u8, buckets: u8)
    requires nests { (nests : NestsValue) × (plan.now.nests ≡ Some nests) × (leg < length nests.protections)
        × (length (get_or nests.protections leg []) ≡ buckets) }
    requires few { buckets ≤ MOST_THRESHOLDS }
    requires room { length line.old ≤ 100 }
    ensures text { (nests : NestsValue) → plan.now.nests ≡ Some nests
        → line.new ≡ line.old ++ flat_map (λ seats. spaced (decimal seats)) (get_or nests.protections leg []) }
    ensures length { length line.new ≤ length line.old + 21 * buckets }
{
    for above in 0..buckets {
        line.push_spaced(u64::from(plan.protection(leg, above + 1)));
    }
}

// The line of a leg's protections, for each of its buckets but the last.
fn line_for_protections(net: &Network, plan: &Plan, leg: u8) -> Text<PROTECTIONS_ROOM>
    requires nested { (cert : Cert) × IsNested net.now cert plan.now }
    requires leg { leg < length net.now.legs }
    ensures { result ≡ protections_line net.now plan.now leg }
{
    let row = net.leg_at(leg);
    let mut line = Text::of_bytes(b"protect ");
    line.push_name(&row.name);
    push_protections(&mut line, plan, leg, row.cuts.as_slice().len() as u8);
    line.push_bytes(b"\n");
    line
}

// Puts the lines of the protections, leg by leg.
fn put_protections<K: Sink>(net: &Network, plan: &Plan, sink: &mut K) -> Result<(), Failed>
    requires { (cert : Cert) × IsNested net.now cert plan.now }
    ensures whole { OnOk result (Appends (K.held sink.old) (K.held sink.new)
        (flat_map (protections_line net.now plan.now) (range_with_len 0 (length net.now.legs)))) }
    ensures cut { OnErr result (AppendsFront (K.held sink.old) (K.held sink.new)
        (flat_map (protections_line net.now plan.now) (range_with_len 0 (length net.now.legs)))) }
    ensures cause { HasCause (K.faults sink.old) (K.faults sink.new) result }
{
    for leg in 0..net.leg_count() as u8 {
        put_all(sink, line_for_protections(net, plan, leg).bytes())?;
    }
    Ok(())
}

// Puts the certificate of a plan under virtual nesting, and its nests.
pub(crate) fn nested_text<K: Sink>(
    net: &Network,
    plan: &Plan,
    certificate: &Certificate,
    sink: &mut K,
) -> Result<(), Failed>
    requires { IsNested net.now certificate.now plan.now }
    ensures whole { OnOk result (Appends (K.held sink.old) (K.held sink.new)
        (certificate_text net.now certificate.now ++ nests_text net.now plan.now.period certificate.now)) }
    ensures cut { OnErr result (AppendsFront (K.held sink.old) (K.held sink.new)
        (certificate_text net.now certificate.now ++ nests_text net.now plan.now.period certificate.now)) }
    ensures cause { HasCause (K.faults sink.old) (K.faults sink.new) result }
{
    certificate_text(net, certificate, sink)?;
    put_nests(net, plan, certificate, sink)?;
    put_protections(net, plan, sink)
}
