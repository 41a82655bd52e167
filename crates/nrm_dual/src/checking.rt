//! The checker: it reads and compares, and never solves.
ghost use Rattle.std.specs.Prelude.{◌≡◌, ◌≢◌, length, nat_abs};
ghost use Rattle.nrm_fraction.specs.Large.{size_limit};
ghost use Rattle.nrm_lp.specs.Certified.{Certifies, sizes};
ghost use Rattle.nrm_lp.specs.Shape.{HasShape};
ghost use Rattle.nrm_dual.specs.Conditions.{first_wrong, verdict_on};
ghost use Rattle.nrm_dual.specs.declared.verdict.Verdict.TheVariants.{Optimal, WrongShape};
ghost use Rattle.nrm_dual.specs.Named.{IsOfProgram};
ghost use Rattle.nrm_dual.specs.Inner.Shapes.{HasItsShape};

use crate::conditions::{
    above_capacity, above_demand, accepted_below_bid_price, priced_with_seats_left,
    rejected_above_bid_price,
};
use crate::shape::has_shape;
use crate::sums::cost;
use crate::verdict::Verdict;
use nrm_lp::{Certificate, Program};

/// Checks a certificate against a program: the first condition that fails, in this order, with the least product or
/// leg at which it fails.
///
/// 1. The lists have the program's lengths, both denominators are at least 1, and no number is negative or reaches 2^48.
/// 2. No product has more than its bound.
/// 3. No leg has more than its cap.
/// 4. A leg with a bid price above 0 is full.
/// 5. A product short of its bound has a fare of at most the bid prices of its legs.
/// 6. A product that is sold has a fare of at least the bid prices of its legs.
/// 7. The value is the cost of the bid prices.
///
/// Where none fails, allocation and bid prices are optimal (clause `optimal`; weak duality and complementary slackness,
/// chapter 3 of Talluri and van Ryzin). It takes no memory.
pub fn check(program: &Program, certificate: &Certificate) -> Verdict
    ensures verdict { result ≡ verdict_on program.now certificate.now }
    ensures shape { HasShape size_limit (length program.now.bounds) (length program.now.caps) certificate.now → result ≢ WrongShape }
    ensures named { IsOfProgram program.now result }
    ensures optimal { result ≡ Optimal → Certifies size_limit program.now certificate.now }
{
    if has_shape(program, certificate) {
        first_wrong(program, certificate)
    } else {
        Verdict::WrongShape
    }
}

// What the conditions after the shape say.
fn first_wrong(program: &Program, certificate: &Certificate) -> Verdict
    requires { HasItsShape program.now certificate.now }
    ensures { result ≡ first_wrong program.now (nat_abs certificate.now.q) (sizes certificate.now.x) (nat_abs certificate.now.den)
        (sizes certificate.now.p) (nat_abs certificate.now.value) }
{
    if let Some(product) = above_demand(program, certificate) {
        Verdict::WrongProduct(product)
    } else if let Some(leg) = above_capacity(program, certificate) {
        Verdict::WrongLeg(leg)
    } else if let Some(leg) = priced_with_seats_left(program, certificate) {
        Verdict::WrongLeg(leg)
    } else if let Some(product) = rejected_above_bid_price(program, certificate) {
        Verdict::WrongProduct(product)
    } else if let Some(product) = accepted_below_bid_price(program, certificate) {
        Verdict::WrongProduct(product)
    } else if u128::from(certificate.value.unsigned_abs()) == cost(program, certificate) {
        Verdict::Optimal
    } else {
        Verdict::WrongValue
    }
}
