//! What the conditions compare: seats over `q`, money over `den`. Numbers of a certificate that has its shape are
//! below 2^48, so that seats fit 64 bits and money 128.
ghost use Rattle.std.specs.Prelude.{◌≡◌, ◌<◌, ◌≤◌, ◌*◌, ◌-◌, ◌^◌, nat_abs, length, get_or, slice_index, All, []};
ghost use Rattle.nrm_fraction.specs.Large.{size_limit};
ghost use Rattle.nrm_lp.specs.Program.{cost, dot, load, price_sum, surplus};
ghost use Rattle.nrm_lp.specs.Shape.{IsNumber};
ghost use Rattle.nrm_lp.specs.Certified.{sizes};
ghost use Rattle.nrm_dual.specs.Inner.Shapes.{HasItsShape};

use nrm_lp::{Certificate, Program};

/// What a product is allotted, over `q`.
pub(crate) fn allotted(certificate: &Certificate, product: u16) -> u64
    requires within { product < length certificate.now.x }
    requires numbers { All (IsNumber size_limit) certificate.now.x }
    ensures value { result ≡ slice_index (sizes certificate.now.x) product }
    ensures limit { result < size_limit }
{
    certificate.x.as_slice()[usize::from(product)].unsigned_abs()
}

/// The bound of a product, over `q`.
pub(crate) fn bound(program: &Program, certificate: &Certificate, product: u16) -> u64
    requires shaped { HasItsShape program.now certificate.now }
    requires within { product < length program.now.bounds }
    ensures { result ≡ nat_abs certificate.now.q * slice_index program.now.bounds product }
{
    let bound = program.bounds()[usize::from(product)];
    certificate.q.unsigned_abs() * u64::from(bound)
}

/// The cap of a leg, over `q`.
pub(crate) fn cap(program: &Program, certificate: &Certificate, leg: u8) -> u64
    requires shaped { HasItsShape program.now certificate.now }
    requires within { leg < length program.now.caps }
    ensures { result ≡ nat_abs certificate.now.q * slice_index program.now.caps leg }
{
    let cap = program.caps()[usize::from(leg)];
    certificate.q.unsigned_abs() * u64::from(cap)
}

/// The fare of a product, over `den`.
pub(crate) fn fare(program: &Program, certificate: &Certificate, product: u16) -> u128
    requires shaped { HasItsShape program.now certificate.now }
    requires within { product < length program.now.bounds }
    ensures value { result ≡ nat_abs certificate.now.den * slice_index program.now.fares product }
    ensures limit { result < 2 ^ 75 }
{
    let fare = program.fares()[usize::from(product)];
    u128::from(certificate.den.unsigned_abs()) * u128::from(fare)
}

/// The seats of a leg that the allocation takes, over `q`.
pub(crate) fn load(program: &Program, certificate: &Certificate, leg: u8) -> u64
    requires shaped { HasItsShape program.now certificate.now }
    ensures { result ≡ load leg program.now.legs (sizes certificate.now.x) }
{
    let mut seats = 0;
    for product in 0..program.product_count() {
        if program.uses_leg(product, leg) {
            seats += allotted(certificate, product);
        }
    }
    seats
}

/// The sum of the bid prices of a product's legs, over `den`.
pub(crate) fn price_sum(program: &Program, certificate: &Certificate, product: u16) -> u128
    requires shaped { HasItsShape program.now certificate.now }
    requires within { product < length program.now.bounds }
    ensures { result ≡ price_sum (sizes certificate.now.p) (get_or program.now.legs product []) }
{
    u128::from(certificate.price_sum(program.legs_of(product)))
}

/// The cost of the bid prices, over `den`: the caps at their prices, and the bounds at what each fare exceeds them by.
pub(crate) fn cost(program: &Program, certificate: &Certificate) -> u128
    requires shaped { HasItsShape program.now certificate.now }
    ensures { result ≡ cost program.now (nat_abs certificate.now.den) (sizes certificate.now.p) }
{
    caps_cost(program, certificate) + bounds_cost(program, certificate)
}

fn caps_cost(program: &Program, certificate: &Certificate) -> u128
    requires shaped { HasItsShape program.now certificate.now }
    ensures value { result ≡ dot program.now.caps (sizes certificate.now.p) }
    ensures limit { result ≤ 64 * 2 ^ 63 }
{
    let mut sum = 0;
    for leg in 0..program.leg_count() {
        let cap = program.caps()[usize::from(leg)];
        sum += u128::from(cap) * u128::from(certificate.bid_price(leg));
    }
    sum
}

fn bounds_cost(program: &Program, certificate: &Certificate) -> u128
    requires shaped { HasItsShape program.now certificate.now }
    ensures value { result ≡ surplus (nat_abs certificate.now.den)
        (sizes certificate.now.p) program.now.bounds program.now.fares program.now.legs }
    ensures limit { result ≤ 256 * 2 ^ 90 }
{
    let mut sum = 0;
    for product in 0..program.product_count() {
        sum += bound_cost(program, certificate, product);
    }
    sum
}

fn bound_cost(program: &Program, certificate: &Certificate, product: u16) -> u128
    requires shaped { HasItsShape program.now certificate.now }
    requires within { product < length program.now.bounds }
    ensures value { result ≡ slice_index program.now.bounds product *
        (nat_abs certificate.now.den * slice_index program.now.fares product - price_sum (sizes certificate.now.p)
        (get_or program.now.legs product [])) }
    ensures limit { result ≤ 2 ^ 90 }
{
    let fare = fare(program, certificate, product);
    let excess = fare.saturating_sub(price_sum(program, certificate, product));
    u128::from(program.bounds()[usize::from(product)]) * excess
}
