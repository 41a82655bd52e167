//! The conditions behind the shape: for each of them how it fails at a product or a leg, and the least at which it does.
#![tactic(auto, using(crate::proofs::LeastSearch::found, crate::proofs::LeastSearch::passed, crate::proofs::LeastSearch::none_left))]

ghost use Rattle.std.specs.Prelude.{◌≡◌, ◌<◌, nat_abs, length};
ghost use Rattle.nrm_lp.specs.Certified.{sizes};
ghost use Rattle.nrm_dual.specs.Conditions.{is_above_demand, is_above_capacity, is_priced_with_seats_left, is_rejected_above_bid_price};
ghost use Rattle.nrm_dual.specs.Conditions.{is_accepted_below_bid_price, least};
ghost use Rattle.nrm_dual.specs.Inner.Shapes.{HasItsShape};

use crate::sums::{allotted, bound, cap, fare, load, price_sum};
use nrm_lp::{Certificate, Program};

/// The least product with more seats than its demand.
pub(crate) fn above_demand(program: &Program, certificate: &Certificate) -> Option<u16>
    requires shaped { HasItsShape program.now certificate.now }
    ensures { result ≡ least (is_above_demand program.now (nat_abs certificate.now.q) (sizes certificate.now.x)) 0
        (length program.now.bounds) }
{
    for product in 0..program.product_count() {
        if is_above_demand(program, certificate, product) {
            return Some(product);
        }
    }
    None
}

/// The least leg with more seats than its capacity.
pub(crate) fn above_capacity(program: &Program, certificate: &Certificate) -> Option<u8>
    requires shaped { HasItsShape program.now certificate.now }
    ensures { result ≡ least (is_above_capacity program.now (nat_abs certificate.now.q) (sizes certificate.now.x)) 0
        (length program.now.caps) }
{
    for leg in 0..program.leg_count() {
        if is_above_capacity(program, certificate, leg) {
            return Some(leg);
        }
    }
    None
}

/// The least leg with a bid price above 0 and seats left.
pub(crate) fn priced_with_seats_left(program: &Program, certificate: &Certificate) -> Option<u8>
    requires shaped { HasItsShape program.now certificate.now }
    ensures { result ≡ least
        (is_priced_with_seats_left program.now (nat_abs certificate.now.q) (sizes certificate.now.x) (sizes certificate.now.p)) 0
        (length program.now.caps) }
{
    for leg in 0..program.leg_count() {
        if is_priced_with_seats_left(program, certificate, leg) {
            return Some(leg);
        }
    }
    None
}

/// The least product with demand that is turned away and a fare above the bid prices of its legs.
pub(crate) fn rejected_above_bid_price(program: &Program, certificate: &Certificate) -> Option<u16>
    requires shaped { HasItsShape program.now certificate.now }
    ensures { result ≡ least
        (is_rejected_above_bid_price program.now (nat_abs certificate.now.q) (sizes certificate.now.x) (nat_abs certificate.now.den)
        (sizes certificate.now.p)) 0 (length program.now.bounds) }
{
    for product in 0..program.product_count() {
        if is_rejected_above_bid_price(program, certificate, product) {
            return Some(product);
        }
    }
    None
}

/// The least product that is allotted seats at a fare below the bid prices of its legs.
pub(crate) fn accepted_below_bid_price(program: &Program, certificate: &Certificate) -> Option<u16>
    requires shaped { HasItsShape program.now certificate.now }
    ensures { result ≡ least
        (is_accepted_below_bid_price program.now (sizes certificate.now.x) (nat_abs certificate.now.den) (sizes certificate.now.p)) 0
        (length program.now.bounds) }
{
    for product in 0..program.product_count() {
        if is_accepted_below_bid_price(program, certificate, product) {
            return Some(product);
        }
    }
    None
}

fn is_above_demand(program: &Program, certificate: &Certificate, product: u16) -> bool
    requires shaped { HasItsShape program.now certificate.now }
    requires within { product < length program.now.bounds }
    ensures { result ≡ is_above_demand program.now (nat_abs certificate.now.q) (sizes certificate.now.x) product }
{
    allotted(certificate, product) > bound(program, certificate, product)
}

fn is_above_capacity(program: &Program, certificate: &Certificate, leg: u8) -> bool
    requires shaped { HasItsShape program.now certificate.now }
    requires within { leg < length program.now.caps }
    ensures { result ≡ is_above_capacity program.now (nat_abs certificate.now.q) (sizes certificate.now.x) leg }
{
    load(program, certificate, leg) > cap(program, certificate, leg)
}

fn is_priced_with_seats_left(program: &Program, certificate: &Certificate, leg: u8) -> bool
    requires shaped { HasItsShape program.now certificate.now }
    requires within { leg < length program.now.caps }
    ensures { result ≡ is_priced_with_seats_left program.now (nat_abs certificate.now.q) (sizes certificate.now.x)
        (sizes certificate.now.p) leg }
{
    certificate.bid_price(leg) > 0
        && load(program, certificate, leg) < cap(program, certificate, leg)
}

fn is_rejected_above_bid_price(program: &Program, certificate: &Certificate, product: u16) -> bool
    requires shaped { HasItsShape program.now certificate.now }
    requires within { product < length program.now.bounds }
    ensures { result ≡ is_rejected_above_bid_price program.now (nat_abs certificate.now.q) (sizes certificate.now.x)
        (nat_abs certificate.now.den) (sizes certificate.now.p) product }
{
    allotted(certificate, product) < bound(program, certificate, product)
        && price_sum(program, certificate, product) < fare(program, certificate, product)
}

fn is_accepted_below_bid_price(program: &Program, certificate: &Certificate, product: u16) -> bool
    requires shaped { HasItsShape program.now certificate.now }
    requires within { product < length program.now.bounds }
    ensures { result ≡ is_accepted_below_bid_price program.now (sizes certificate.now.x) (nat_abs certificate.now.den)
        (sizes certificate.now.p) product }
{
    allotted(certificate, product) > 0
        && fare(program, certificate, product) < price_sum(program, certificate, product)
}
