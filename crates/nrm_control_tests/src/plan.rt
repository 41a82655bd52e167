//! Plans of a network of two legs, AB with 3 seats and BC with 2: a through product for 500, a local one on AB for 200. And
//! the seats that are protected under virtual nesting, of one with five products.
ghost use Rattle.std.specs.Prelude.{◌≡◌, length};
ghost use Rattle.nrm_plan.specs.Plans.{IsPlanOf};

use nrm_model::{Mode, Network};
use nrm_plan::{Plan, SeatsLeft};
use nrm_samples::{two_legs, two_legs_five_products};
use nrm_simplex::SolveFault;
use std::alloc::Global;
use std::process::Abort;

// What a plan says: its mode, its period, its bid prices, its mean value, and whether each fare refuses.
type Said = (Mode, u8, Option<[i64; 3]>, Option<(u64, u64)>, [bool; 2]);

// The denominator and the two bid prices of a plan.
fn prices_of(plan: &Plan) -> Option<[i64; 3]> {
    let certificate = plan.certificate()?;
    if let [first, second] = certificate.p.as_slice() {
        Some([certificate.den, *first, *second])
    } else {
        None
    }
}

fn said(net: &Network, plan: &Plan) -> Said
    requires planned { IsPlanOf net.now plan.now }
    requires products { length net.now.products ≡ 2 }
{
    (
        plan.mode(),
        plan.period(),
        prices_of(plan),
        plan.mean_value(net),
        [plan.fare_refuses(net, 0), plan.fare_refuses(net, 1)],
    )
}

// The opening plan in a mode.
fn said_at_opening(alloc: Global, mode: Mode) -> Result<Said, SolveFault> {
    let net = two_legs(alloc)?;
    let plan = Plan::opening(alloc, &net, mode)?;
    Ok(said(&net, &plan))
}

// The plan where two seats are sold on the first leg.
fn said_later(alloc: Global, mode: Mode) -> Result<Said, SolveFault> {
    let net = two_legs(alloc)?;
    let plan = Plan::make(alloc, &net, mode, &[1, 2], 2)?;
    Ok(said(&net, &plan))
}

fn assert_said(rt: &impl Abort, given: Result<Said, SolveFault>, wanted: Said) {
    assert!(rt; given == Ok(wanted));
}

// Both fares equal the sum of their legs' bid prices.
#[test]
fn equal_fares_sell(rt: HostRuntime) {
    assert_said(
        &rt,
        said_at_opening(rt.alloc(), Mode::Bid),
        (
            Mode::Bid,
            1,
            Some([1, 200, 300]),
            Some((1200, 1)),
            [false, false],
        ),
    );
}

// With one seat left on the first leg the through product has it, at a price of its whole fare.
#[test]
fn a_lower_fare_refuses(rt: HostRuntime) {
    assert_said(
        &rt,
        said_later(rt.alloc(), Mode::Bid),
        (
            Mode::Bid,
            2,
            Some([1, 500, 0]),
            Some((500, 1)),
            [false, true],
        ),
    );
}

#[test]
fn first_come_has_no_prices(rt: HostRuntime) {
    assert_said(
        &rt,
        said_at_opening(rt.alloc(), Mode::FirstCome),
        (Mode::FirstCome, 1, None, None, [false, false]),
    );
    assert_said(
        &rt,
        said_later(rt.alloc(), Mode::FirstCome),
        (Mode::FirstCome, 2, None, None, [false, false]),
    );
}

// The seats that are protected on AB from the first three products, which use it, and on BC from the last two.
fn protected_at_opening(alloc: Global) -> Result<[u16; 5], SolveFault> {
    let net = two_legs_five_products(alloc)?;
    let plan = Plan::opening(alloc, &net, Mode::Davn)?;
    Ok([
        plan.protected_from(&net, 0, 0),
        plan.protected_from(&net, 0, 1),
        plan.protected_from(&net, 0, 2),
        plan.protected_from(&net, 1, 3),
        plan.protected_from(&net, 1, 4),
    ])
}

// On AB seven seats are protected above the second bucket, on BC six above the third.
#[test]
fn seats_are_protected_for_higher_buckets(rt: HostRuntime) {
    assert!(rt; protected_at_opening(rt.alloc()) == Ok([0, 7, 0, 6, 6]));
}

#[test]
fn seats_stand_in_order(rt: HostRuntime) {
    let mut left = SeatsLeft::new();
    left.push(3);
    left.push(0);
    assert_eq!(rt; left.as_slice(), [3, 0].as_slice());
    assert_eq!(rt; SeatsLeft::of(&[3, 0]).as_slice(), left.as_slice());
}
