//! What the calls of a network answer of the samples, worked by hand.
ghost use Rattle.std.specs.Prelude.{◌≡◌};
ghost use Rattle.nrm_samples.specs.Networks.{two_legs, two_legs_authorised, two_legs_five_products, two_legs_last_first};

use nrm_model::Network;
use nrm_samples::{
    two_legs, two_legs_authorised, two_legs_five_products, two_legs_five_products_program,
    two_legs_last_first,
};
use nrm_text::name_of;
use std::process::Abort;
use std::test::Fail;

// The numbers of the product and of the leg of this name, where there are such.
fn numbers_of(net: &Network, text: &[u8]) -> (Option<u16>, Option<u8>) {
    match name_of(text) {
        Some(name) => (net.find_product(&name), net.find_leg(&name)),
        None => (None, None),
    }
}

fn assert_names(rt: &impl Abort, net: &Network)
    requires { net.now ≡ two_legs }
{
    assert_eq!(rt; numbers_of(net, b"THRU"), (Some(0), None));
    assert_eq!(rt; numbers_of(net, b"LOC"), (Some(1), None));
    assert_eq!(rt; numbers_of(net, b"AB"), (None, Some(0)));
    assert_eq!(rt; numbers_of(net, b"BC"), (None, Some(1)));
}

#[test]
fn names_are_found(rt: HostRuntime) -> Result<(), Fail> {
    assert_names(&rt, &two_legs(rt.alloc())?);
    Ok(())
}

fn assert_demand(rt: &impl Abort, net: &Network)
    requires { net.now ≡ two_legs }
{
    assert_eq!(rt; (net.n(), net.t()), (2, 2));
    assert_eq!(rt; net.demand(0, 1, 2), 3);
    assert_eq!(rt; net.demand(1, 0, 1), 4);
    assert_eq!(rt; net.to_come(0, 0, 1), 3);
    assert_eq!(rt; net.to_come(1, 1, 2), 1);
    assert_eq!(rt; net.total(0, 2), 5);
    assert_eq!(rt; net.total(1, 1), 10);
}

#[test]
fn demand_is_by_product_history_and_period(rt: HostRuntime) -> Result<(), Fail> {
    assert_demand(&rt, &two_legs(rt.alloc())?);
    Ok(())
}

fn assert_seats(rt: &impl Abort, net: &Network)
    requires { net.now ≡ two_legs }
{
    assert_eq!(rt; net.leg_at(1).seats, 2);
    assert_eq!(rt; net.least_authorised(0), 2);
    assert_eq!(rt; net.least_authorised(1), 3);
    assert!(rt; net.uses_leg(0, 1) && !net.uses_leg(1, 1));
    assert_eq!(rt; net.products_on(0), [0, 1].as_slice());
    assert_eq!(rt; net.products_on(1), [0].as_slice());
}

fn assert_authorised(rt: &impl Abort, net: &Network)
    requires { net.now ≡ two_legs_authorised }
{
    assert_eq!(rt; (net.leg_at(0).seats, net.leg_at(0).authorised), (3, 4));
    assert_eq!(rt; (net.least_authorised(0), net.least_authorised(1)), (1, 4));
    assert_eq!(rt;
        (net.product_at(0).refund, net.product_at(1).refund),
        (100, 33)
    );
}

#[test]
fn seats_are_by_leg(rt: HostRuntime) -> Result<(), Fail> {
    assert_seats(&rt, &two_legs(rt.alloc())?);
    assert_authorised(&rt, &two_legs_authorised(rt.alloc())?);
    Ok(())
}

fn assert_own_order(rt: &impl Abort, net: &Network)
    requires { net.now ≡ two_legs_last_first }
{
    assert_eq!(rt; net.product_at(0).legs.as_slice(), [1, 0].as_slice());
    assert!(rt; net.uses_leg(0, 0) && net.uses_leg(0, 1));
}

#[test]
fn legs_keep_their_own_order(rt: HostRuntime) -> Result<(), Fail> {
    assert_own_order(&rt, &two_legs_last_first(rt.alloc())?);
    Ok(())
}

fn assert_thresholds(rt: &impl Abort, net: &Network)
    requires { net.now ≡ two_legs_five_products }
{
    assert_eq!(rt; (net.leg_count(), net.product_count()), (2, 5));
    assert_eq!(rt; net.leg_at(0).cuts.as_slice(), [300, 100].as_slice());
    assert_eq!(rt; net.products_on(0), [0, 1, 2, 4].as_slice());
    assert_eq!(rt; net.products_on(1), [2, 3, 4].as_slice());
}

#[test]
fn thresholds_are_kept(rt: HostRuntime) -> Result<(), Fail> {
    assert_thresholds(&rt, &two_legs_five_products(rt.alloc())?);
    Ok(())
}

#[test]
fn a_program_of_five_products(rt: HostRuntime) -> Result<(), Fail> {
    let program = two_legs_five_products_program(rt.alloc())?;
    assert_eq!(rt; program.caps(), [40, 40].as_slice());
    assert_eq!(rt; program.bounds(), [12, 28, 16, 32, 0].as_slice());
    assert!(rt; program.uses_leg(2, 1) && !program.uses_leg(1, 1));
    Ok(())
}
