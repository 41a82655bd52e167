//! Values and protections of leg AB of a network of two legs and five products, worked by hand: two products use it and no other
//! leg, for 400 and for 150, and ten seats are worth 4175/2 in the mean, 33,400 in all sixteen combinations of four histories.
ghost use Rattle.std.specs.Prelude.{◌<◌, ◌≤◌, length};
ghost use Rattle.nrm_model.specs.declared.limits.TheConstants.{MOST_SEATS};

use nrm_legdp::{ClassFault, leg_classes, leg_values};
use nrm_model::Network;
use nrm_samples::two_legs_five_products;
use std::alloc::Global;
use std::test::Fail;

// The value of all these seats on a leg, and the protection of its first class.
fn said(alloc: Global, net: &Network, leg: u8, seats: u16) -> Result<(u128, u16), ClassFault>
    requires leg { leg < length net.now.legs }
    requires seats { seats ≤ MOST_SEATS }
{
    let classes = leg_classes(alloc, net, leg)?;
    let table = leg_values(alloc, &classes.fares, &classes.demands, net.n(), seats)?;
    let count = classes.fares.len() as u8;
    let protection = if count > 1 { table.protection(1) } else { 0 };
    Ok((table.value(count, seats), protection))
}

#[test]
fn the_classes_of_a_leg_are_found(rt: HostRuntime) -> Result<(), Fail> {
    let alloc = rt.alloc();
    let net = two_legs_five_products(alloc)?;
    let Ok(classes) = leg_classes(alloc, &net, 0) else {
        panic!(rt; "there are no classes");
    };
    assert!(rt; classes.products.as_slice() == [0, 1].as_slice());
    assert!(rt; classes.fares.as_slice() == [400, 150].as_slice());
    assert!(rt; classes.demands.as_slice() == [2, 4, 3, 3, 6, 8, 5, 9].as_slice());
    Ok(())
}

#[test]
fn seats_are_worth_what_is_best(rt: HostRuntime) -> Result<(), Fail> {
    let alloc = rt.alloc();
    let net = two_legs_five_products(alloc)?;
    assert!(rt; said(alloc, &net, 0, 10) == Ok((33_400, 3)));
    assert!(rt; said(alloc, &net, 0, 0) == Ok((0, 0)));
    Ok(())
}
