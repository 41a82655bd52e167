//! Requests on networks of two legs, worked by hand: AB with 3 seats and BC with 2, both with ten, and AB with 3 seats of which 4 are
//! authorised beside BC with 2 of which 1 is.
ghost use Rattle.std.specs.Prelude.{◌≡◌, ◌<◌, ◌≤◌, ◌+◌, IfOk, length};
ghost use Rattle.std.specs.Int.{IsInRange};
ghost use Rattle.nrm_model.specs.declared.limits.TheConstants.{MOST_PARTY};

use nrm_control::{Answer, Controller};
use nrm_model::Mode;
use nrm_samples::{two_legs, two_legs_authorised, two_legs_five_products};
use nrm_simplex::SolveFault;
use std::alloc::Global;
use std::process::Abort;

// A controller of the network with nothing sold: of its value only what the calls ask for.
fn begun(alloc: Global, mode: Mode) -> Result<Controller, SolveFault>
    ensures products { IfOk result (λ controller. length controller.net.products ≡ 2) }
    ensures periods { IfOk result (λ controller. controller.net.periods ≡ 2) }
    ensures next { IfOk result (λ controller. controller.next ≡ 1) }
{
    Controller::start(alloc, two_legs(alloc)?, mode)
}

// What a request gets, where the numbers are low.
fn ask(controller: &mut Controller, product: u16, party: u16) -> Answer
    requires product { product < length controller.old.net.products }
    requires party { IsInRange 1 MOST_PARTY party }
    requires next { controller.old.next < 1000000 }
    ensures net { controller.new.net ≡ controller.old.net }
    ensures next { controller.new.next ≤ controller.old.next + 1 }
{
    controller.request(product, party)
}

// First come, first served.
fn serve(rt: &impl Abort, controller: &mut Controller)
    requires products { length controller.old.net.products ≡ 2 }
    requires next { controller.old.next ≡ 1 }
    ensures products { length controller.new.net.products ≡ 2 }
{
    assert_eq!(rt; ask(controller, 0, 2), Answer::Sold { number: 1 });
    assert_eq!(rt; ask(controller, 0, 1), Answer::Leg(1));
    assert_eq!(rt; ask(controller, 1, 1), Answer::Sold { number: 2 });
    assert_eq!(rt; ask(controller, 1, 1), Answer::Leg(0));
    assert_eq!(rt; controller.cancel(1), Some(1000));
    assert_eq!(rt; controller.cancel(1), None);
    assert_eq!(rt; ask(controller, 1, 2), Answer::Sold { number: 3 });
}

// Sold or not, cancelled or not, three seats of the through product were asked for and four of the local one: no more than
// its legs have. Both through seats and a local one would have earned 1,200.
fn look_back(rt: &impl Abort, alloc: Global, controller: &Controller)
    requires products { length controller.now.net.products ≡ 2 }
{
    assert_eq!(rt; (controller.tally(0), controller.tally(1)), (2, 3));
    assert!(rt; controller.hindsight(alloc) == Ok((1200, 1)));
}

#[test]
fn serves_by_hand(rt: HostRuntime) {
    let Ok(mut controller) = begun(rt.alloc(), Mode::FirstCome) else {
        panic!(rt; "the controller doesn't begin");
    };
    serve(&rt, &mut controller);
    look_back(&rt, rt.alloc(), &controller);
}

// With one seat left on the first leg it costs 500 there and nothing on the second; with a seat sold on the second and
// the last period to come, nothing on the first.
fn serve_at_bid_prices(rt: &impl Abort, alloc: Global, controller: &mut Controller)
    requires products { length controller.old.net.products ≡ 2 }
    requires periods { controller.old.net.periods ≡ 2 }
    requires next { controller.old.next ≡ 1 }
{
    assert_eq!(rt; ask(controller, 1, 2), Answer::Sold { number: 1 });
    assert!(rt; controller.reoptimise(alloc, 1) == Ok(Some((500, 1))));
    assert_eq!(rt; ask(controller, 1, 1), Answer::Fare);
    assert_eq!(rt; ask(controller, 1, 2), Answer::Leg(0));
    assert_eq!(rt; ask(controller, 0, 1), Answer::Sold { number: 2 });
    assert_eq!(rt; controller.cancel(1), Some(400));
    assert!(rt; controller.reoptimise(alloc, 2) == Ok(Some((600, 1))));
    assert_eq!(rt; ask(controller, 1, 1), Answer::Sold { number: 3 });
}

#[test]
fn serves_at_bid_prices_by_hand(rt: HostRuntime) {
    let Ok(mut controller) = begun(rt.alloc(), Mode::Bid) else {
        panic!(rt; "the controller doesn't begin");
    };
    serve_at_bid_prices(&rt, rt.alloc(), &mut controller);
}

// Nothing is solved.
#[test]
fn first_come_is_not_optimised(rt: HostRuntime) {
    let Ok(mut controller) = begun(rt.alloc(), Mode::FirstCome) else {
        panic!(rt; "the controller doesn't begin");
    };
    assert!(rt; controller.reoptimise(rt.alloc(), 2) == Ok(None));
    assert_eq!(rt; controller.plan().period(), 2);
}

// A controller by virtual nests of the network with two legs of ten seats each, and thresholds.
fn begun_nested(alloc: Global) -> Result<Controller, SolveFault>
    ensures products { IfOk result (λ controller. length controller.net.products ≡ 5) }
    ensures next { IfOk result (λ controller. controller.next ≡ 1) }
{
    Controller::start(alloc, two_legs_five_products(alloc)?, Mode::Davn)
}

// On the first leg seven seats are protected above the bucket of ABL, and none above that of ABH and ACH.
fn serve_nested(rt: &impl Abort, controller: &mut Controller)
    requires products { length controller.old.net.products ≡ 5 }
    requires next { controller.old.next ≡ 1 }
{
    assert_eq!(rt; ask(controller, 1, 3), Answer::Sold { number: 1 });
    assert_eq!(rt; ask(controller, 1, 1), Answer::Leg(0));
    assert_eq!(rt; ask(controller, 0, 7), Answer::Sold { number: 2 });
    assert_eq!(rt; ask(controller, 2, 1), Answer::Leg(0));
    assert_eq!(rt; controller.cancel(1), Some(450));
    assert_eq!(rt; ask(controller, 2, 3), Answer::Sold { number: 3 });
}

#[test]
fn serves_by_nests_by_hand(rt: HostRuntime) {
    let Ok(mut controller) = begun_nested(rt.alloc()) else {
        panic!(rt; "the controller doesn't begin");
    };
    serve_nested(&rt, &mut controller);
}

// A controller by first come, first served, where a seat more than AB has is authorised, and a seat less than BC has.
fn begun_authorised(alloc: Global) -> Result<Controller, SolveFault>
    ensures products { IfOk result (λ controller. length controller.net.products ≡ 2) }
    ensures next { IfOk result (λ controller. controller.next ≡ 1) }
{
    Controller::start(alloc, two_legs_authorised(alloc)?, Mode::FirstCome)
}

// Of two local seats for 199 each a third is given back, 131 and not twice 65, and the rest withheld, once. The authorised seats
// are sold, not the physical ones.
fn serve_authorised(rt: &impl Abort, controller: &mut Controller)
    requires products { length controller.old.net.products ≡ 2 }
    requires next { controller.old.next ≡ 1 }
{
    assert_eq!(rt; ask(controller, 1, 2), Answer::Sold { number: 1 });
    assert_eq!(rt; controller.withheld(), 0);
    assert_eq!(rt; controller.cancel(1), Some(131));
    assert_eq!(rt; controller.withheld(), 267);
    assert_eq!(rt; controller.cancel(1), None);
    assert_eq!(rt; controller.withheld(), 267);
    assert_eq!(rt; ask(controller, 1, 4), Answer::Sold { number: 2 });
    assert_eq!(rt; controller.cancel(2), Some(262));
    assert_eq!(rt; controller.withheld(), 801);
    assert_eq!(rt; ask(controller, 0, 2), Answer::Leg(1));
    assert_eq!(rt; ask(controller, 0, 1), Answer::Sold { number: 3 });
    assert_eq!(rt; controller.cancel(3), Some(500));
    assert_eq!(rt; controller.withheld(), 801);
}

#[test]
fn serves_authorised_seats_by_hand(rt: HostRuntime) {
    let Ok(mut controller) = begun_authorised(rt.alloc()) else {
        panic!(rt; "the controller doesn't begin");
    };
    serve_authorised(&rt, &mut controller);
}
