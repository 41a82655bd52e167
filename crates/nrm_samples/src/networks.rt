//! The sample networks.
ghost use Rattle.std.specs.Prelude.{◌≡◌, [], ◌∷◌, codes, IfOk};
ghost use Rattle.nrm_samples.specs.Networks as networks;

use crate::parts::{leg, product};
use nrm_model::{Leg, Network, Product};
use std::alloc::{AllocError, Global};

// Legs AB with 3 seats and BC with 2.
fn three_and_two_seats(alloc: Global) -> Result<Vec<Leg>, AllocError>
    ensures { IfOk result (λ legs. legs.items ≡ networks.two_legs.legs) }
{
    let ab = leg(alloc, b"AB", 3, 3, &[])?;
    let bc = leg(alloc, b"BC", 2, 2, &[])?;
    Ok(vec![in alloc; ab, bc]?)
}

// A through product for 500 over both legs, in this order, and a local one on the first leg for 200.
fn through_and_local(alloc: Global, order: &[u8]) -> Result<Vec<Product>, AllocError>
    ensures { IfOk result
        (λ products. products.items ≡ record { name = codes "THRU"; fare = 500; refund = 100; legs = order.now }
        ∷ record { name = codes "LOC"; fare = 200; refund = 100; legs = 0 ∷ [] } ∷ []) }
{
    let through = product(alloc, b"THRU", 500, 100, order)?;
    let local = product(alloc, b"LOC", 200, 100, &[0])?;
    Ok(vec![in alloc; through, local]?)
}

/// Legs AB with 3 seats and BC with 2, a through product for 500 and a local one on AB for 200, and two histories of
/// two periods.
///
/// # Errors
/// Memory runs out, as of the other networks.
pub fn two_legs(alloc: Global) -> Result<Network, AllocError>
    ensures { IfOk result (λ net. net ≡ networks.two_legs) }
{
    let legs = three_and_two_seats(alloc)?;
    let products = through_and_local(alloc, &[0, 1])?;
    let demand = vec![in alloc; 1, 2, 0, 3, 4, 0, 5, 1]?;
    Network::new(alloc, 2, 2, legs, products, demand)
}

/// The same, but that the through product's own order of its legs is BC, AB.
pub fn two_legs_last_first(alloc: Global) -> Result<Network, AllocError>
    ensures { IfOk result (λ net. net ≡ networks.two_legs_last_first) }
{
    let legs = three_and_two_seats(alloc)?;
    let products = through_and_local(alloc, &[1, 0])?;
    let demand = vec![in alloc; 1, 2, 0, 3, 4, 0, 5, 1]?;
    Network::new(alloc, 2, 2, legs, products, demand)
}

// Leg AB is overbooked by a seat, and a seat of leg BC is held back.
fn one_more_and_one_less(alloc: Global) -> Result<Vec<Leg>, AllocError>
    ensures { IfOk result (λ legs. legs.items ≡ networks.two_legs_authorised.legs) }
{
    let ab = leg(alloc, b"AB", 3, 4, &[])?;
    let bc = leg(alloc, b"BC", 2, 1, &[])?;
    Ok(vec![in alloc; ab, bc]?)
}

// Of the through product all is given back, of the local one a third at most.
fn given_back_in_part(alloc: Global) -> Result<Vec<Product>, AllocError>
    ensures { IfOk result (λ products. products.items ≡ networks.two_legs_authorised.products) }
{
    let through = product(alloc, b"THRU", 500, 100, &[0, 1])?;
    let local = product(alloc, b"LOC", 199, 33, &[0])?;
    Ok(vec![in alloc; through, local]?)
}

/// Legs AB with 3 seats, of which 4 are authorised, and BC with 2, of which 1 is. A through product for 500 and a local one on AB
/// for 199, of which a cancellation gives back 33 per cent. One history of one period.
pub fn two_legs_authorised(alloc: Global) -> Result<Network, AllocError>
    ensures { IfOk result (λ net. net ≡ networks.two_legs_authorised) }
{
    let legs = one_more_and_one_less(alloc)?;
    let products = given_back_in_part(alloc)?;
    let demand = vec![in alloc; 2, 3]?;
    Network::new(alloc, 1, 1, legs, products, demand)
}

// Legs AB and BC with 10 seats and two thresholds each.
fn ten_seats_each(alloc: Global) -> Result<Vec<Leg>, AllocError>
    ensures { IfOk result (λ legs. legs.items ≡ networks.two_legs_five_products.legs) }
{
    let ab = leg(alloc, b"AB", 10, 10, &[300, 100])?;
    let bc = leg(alloc, b"BC", 10, 10, &[300, 100])?;
    Ok(vec![in alloc; ab, bc]?)
}

// High and low on the first leg, high on both, low on the second, low on both.
fn five_products(alloc: Global) -> Result<Vec<Product>, AllocError>
    ensures { IfOk result (λ products. products.items ≡ networks.two_legs_five_products.products) }
{
    let abh = product(alloc, b"ABH", 400, 100, &[0])?;
    let abl = product(alloc, b"ABL", 150, 100, &[0])?;
    let ach = product(alloc, b"ACH", 500, 100, &[0, 1])?;
    let bcl = product(alloc, b"BCL", 80, 100, &[1])?;
    let acl = product(alloc, b"ACL", 229, 100, &[0, 1])?;
    Ok(vec![in alloc; abh, abl, ach, bcl, acl]?)
}

/// Legs AB and BC with 10 seats and two thresholds each, five products, and four histories of one period. Nobody asked
/// for the last product.
pub fn two_legs_five_products(alloc: Global) -> Result<Network, AllocError>
    ensures { IfOk result (λ net. net ≡ networks.two_legs_five_products) }
{
    let legs = ten_seats_each(alloc)?;
    let products = five_products(alloc)?;
    let demand = vec![in alloc; 2, 4, 3, 3, 6, 8, 5, 9, 4, 2, 6, 4, 7, 9, 8, 8, 0, 0, 0, 0]?;
    Network::new(alloc, 4, 1, legs, products, demand)
}
