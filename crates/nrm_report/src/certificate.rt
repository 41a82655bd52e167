//! The certificate text: a line with the mean value of a history, one for each product with what it is allotted in a
//! history on the mean, and one for each leg with its bid price.
ghost use Rattle.std.specs.Prelude.{◌≡◌, ◌<◌, ◌≤◌, ◌*◌, ◌^◌, ◌∷◌, [], codes, flat_map, length, nat_abs, OnErr, OnOk};
ghost use Rattle.std.specs.Io.KnownBytes.{Appends};
ghost use Rattle.std.specs.List.{range_with_len};
ghost use Rattle.nrm_edge.specs.Causes.{HasCause};
ghost use Rattle.nrm_edge.specs.Pieces.{AppendsFront};
ghost use Rattle.nrm_fraction.specs.Fraction.{◌over◌};
ghost use Rattle.nrm_text.specs.Fractions.{fraction_text};
ghost use Rattle.nrm_text.specs.Words.{text_line};
ghost use Rattle.nrm_fraction.specs.Large.{size_limit};
ghost use Rattle.nrm_lp.specs.Shape.{HasShape};
ghost use Rattle.nrm_dual.specs.Texts.{certificate_text, leg_line, product_line, value_line};

use crate::line::ROOM;
use nrm_edge::{Failed, Sink, put_all};
use nrm_lp::Certificate;
use nrm_model::Network;
use nrm_text::{Name, Text};

// The line of a mean value.
#[tactic(auto, using(nrm_text::proofs::Fractions::short_fraction))]
fn line_of_value(value: i64, den: u128) -> Text<ROOM>
    requires some { 1 ≤ den }
    requires den_size { den < 2 ^ 126 }
    ensures { result ≡ text_line (codes "value" ∷ fraction_text (value over den) ∷ []) }
{
    let mut line = Text::of_bytes(b"value ");
    line.push_fraction(i128::from(value), den);
    line.push_bytes(b"\n");
    line
}

// The line of what has this name, and its fraction.
#[tactic(auto, using(nrm_text::proofs::Fractions::short_fraction))]
fn line_of_named(kind: &[u8], name: &Name, num: i64, den: u128) -> Text<ROOM>
    requires kind { length kind.now ≤ 10 }
    requires some { 1 ≤ den }
    requires den_size { den < 2 ^ 126 }
    ensures { result ≡ text_line (kind.now ∷ name.now ∷ fraction_text (num over den) ∷ []) }
{
    let mut line = Text::of_bytes(kind);
    line.push_bytes(b" ");
    line.push_name(name);
    line.push_bytes(b" ");
    line.push_fraction(i128::from(num), den);
    line.push_bytes(b"\n");
    line
}

// The denominator of what falls on one history.
fn over_histories(net: &Network, den: i64) -> u128
    requires some { 0 < nat_abs den }
    ensures value { result ≡ nat_abs den * net.now.histories }
    ensures some { 1 ≤ result }
    ensures size { result < 2 ^ 126 }
{
    u128::from(den.unsigned_abs()) * u128::from(net.n())
}

// The line of the mean value.
fn line_for_value(net: &Network, certificate: &Certificate) -> Text<ROOM>
    requires { HasShape size_limit (length net.now.products) (length net.now.legs) certificate.now }
    ensures { result ≡ value_line net.now certificate.now }
{
    line_of_value(certificate.value, over_histories(net, certificate.den))
}

// The line of a product.
fn line_for_product(net: &Network, certificate: &Certificate, product: u16) -> Text<ROOM>
    requires shape { HasShape size_limit (length net.now.products) (length net.now.legs) certificate.now }
    requires product { product < length net.now.products }
    ensures { result ≡ product_line net.now certificate.now product }
{
    let allotted = certificate.x.as_slice()[product as usize];
    line_of_named(
        b"product",
        &net.product_at(product).name,
        allotted,
        over_histories(net, certificate.q),
    )
}

// The line of a leg.
fn line_for_leg(net: &Network, certificate: &Certificate, leg: u8) -> Text<ROOM>
    requires shape { HasShape size_limit (length net.now.products) (length net.now.legs) certificate.now }
    requires leg { leg < length net.now.legs }
    ensures { result ≡ leg_line net.now certificate.now leg }
{
    let price = certificate.p.as_slice()[leg as usize];
    line_of_named(
        b"leg",
        &net.leg_at(leg).name,
        price,
        u128::from(certificate.den.unsigned_abs()),
    )
}

// Puts the lines of the products, in file order.
fn put_allotted<K: Sink>(
    net: &Network,
    certificate: &Certificate,
    sink: &mut K,
) -> Result<(), Failed>
    requires { HasShape size_limit (length net.now.products) (length net.now.legs) certificate.now }
    ensures whole { OnOk result (Appends (K.held sink.old) (K.held sink.new)
        (flat_map (product_line net.now certificate.now) (range_with_len 0 (length net.now.products)))) }
    ensures cut { OnErr result (AppendsFront (K.held sink.old) (K.held sink.new)
        (flat_map (product_line net.now certificate.now) (range_with_len 0 (length net.now.products)))) }
    ensures cause { HasCause (K.faults sink.old) (K.faults sink.new) result }
{
    for product in 0..net.product_count() as u16 {
        put_all(sink, line_for_product(net, certificate, product).bytes())?;
    }
    Ok(())
}

// Puts the lines of the legs, in file order.
fn put_prices<K: Sink>(net: &Network, certificate: &Certificate, sink: &mut K) -> Result<(), Failed>
    requires { HasShape size_limit (length net.now.products) (length net.now.legs) certificate.now }
    ensures whole { OnOk result (Appends (K.held sink.old) (K.held sink.new)
        (flat_map (leg_line net.now certificate.now) (range_with_len 0 (length net.now.legs)))) }
    ensures cut { OnErr result (AppendsFront (K.held sink.old) (K.held sink.new)
        (flat_map (leg_line net.now certificate.now) (range_with_len 0 (length net.now.legs)))) }
    ensures cause { HasCause (K.faults sink.old) (K.faults sink.new) result }
{
    for leg in 0..net.leg_count() as u8 {
        put_all(sink, line_for_leg(net, certificate, leg).bytes())?;
    }
    Ok(())
}

/// Puts the text of a certificate: `value n/d`, the mean value of a history; then for each product, in file order,
/// `product NAME n/d`, what it is allotted in a history on the mean; then for each leg, in file order, `leg NAME n/d`,
/// its bid price. Fractions are in lowest terms, values in whole currency units.
///
/// # Errors
/// A put failed; a front of the text went out.
pub fn certificate_text<K: Sink>(
    net: &Network,
    certificate: &Certificate,
    sink: &mut K,
) -> Result<(), Failed>
    requires { HasShape size_limit (length net.now.products) (length net.now.legs) certificate.now }
    ensures whole { OnOk result (Appends (K.held sink.old) (K.held sink.new) (certificate_text net.now certificate.now)) }
    ensures cut { OnErr result (AppendsFront (K.held sink.old) (K.held sink.new) (certificate_text net.now certificate.now)) }
    ensures cause { HasCause (K.faults sink.old) (K.faults sink.new) result }
{
    put_all(sink, line_for_value(net, certificate).bytes())?;
    put_allotted(net, certificate, sink)?;
    put_prices(net, certificate, sink)
}
