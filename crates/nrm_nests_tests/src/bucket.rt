//! Adjusted fares and buckets of small networks, worked by hand: the table of them that protections are made of.
ghost use Rattle.std.specs.Prelude.{IfOk, ◌<◌, length};
ghost use Rattle.nrm_fraction.specs.Large.{size_limit};
ghost use Rattle.nrm_virtual.specs.Adjusted.{HasPrices};

use nrm_lp::{Certificate, Numbers};
use nrm_model::Network;
use nrm_network::parse;
use nrm_samples::two_legs_five_products;
use nrm_virtual::{BucketTable, adjusted, bucket};
use std::alloc::{AllocError, Global};
use std::process::Abort;
use std::test::Fail;

// A certificate with these bid prices over a denominator. Nothing else of it counts here.
pub(crate) fn priced(alloc: Global, den: u32, prices: &[u32]) -> Result<Certificate, AllocError>
    requires { 0 < den }
    ensures { IfOk result (HasPrices size_limit (length prices.now)) }
{
    let mut p = Vec::new(alloc);
    for price in prices {
        p.push(i64::from(*price))?;
    }
    Ok(Certificate {
        q: 1,
        x: Numbers::new(Vec::new(alloc)),
        den: i64::from(den),
        p: Numbers::new(p),
        value: 0,
    })
}

// The products of a leg in file order, each with its adjusted fare over `den` and its bucket: none where the prices
// aren't one for each leg, or where the table has another bucket than the call.
fn nest(
    alloc: Global,
    net: &Network,
    den: u32,
    prices: &[u32],
    leg: u8,
) -> Result<Vec<(u16, i128, u8)>, AllocError> {
    let mut nest = Vec::new(alloc);
    if den == 0 || prices.len() != net.leg_count() {
        return Ok(nest);
    }
    let cert = priced(alloc, den, prices)?;
    let table = BucketTable::build(alloc, net, &cert)?;
    for product in 0..net.product_count() as u16 {
        if net.uses_leg(product, leg) {
            let fare = adjusted(net, &cert, leg, product);
            let found = table.bucket_of(leg, product);
            if found == bucket(net, &cert, leg, product) {
                nest.push((product, fare, found))?;
            }
        }
    }
    Ok(nest)
}

// Of each case a denominator, the prices over it, a leg, and the products that are wanted there.
fn assert_each(
    rt: &impl Abort,
    alloc: Global,
    net: &Network,
    cases: &[(u32, &[u32], u8, &[(u16, i128, u8)])],
) -> Result<(), AllocError> {
    for (den, prices, leg, wanted) in cases {
        let found = nest(alloc, net, *den, prices, *leg)?;
        assert_eq!(rt; found.as_slice(), *wanted, "on leg {leg}");
    }
    Ok(())
}

// The same, of a network that is used no further.
fn assert_nests(
    rt: &impl Abort,
    alloc: Global,
    net: Network,
    cases: &[(u32, &[u32], u8, &[(u16, i128, u8)])],
) -> Result<(), AllocError> {
    assert_each(rt, alloc, &net, cases)
}

#[test]
fn two_legs_at_prices_of_150_and_80(rt: HostRuntime) -> Result<(), Fail> {
    let cases: [(u32, &[u32], u8, &[(u16, i128, u8)]); 2] = [
        (
            1,
            &[150, 80],
            0,
            &[(0, 400, 1), (1, 150, 2), (2, 420, 1), (4, 149, 2)],
        ),
        (1, &[150, 80], 1, &[(2, 350, 1), (3, 80, 3), (4, 79, 3)]),
    ];
    let net = two_legs_five_products(rt.alloc())?;
    assert_nests(&rt, rt.alloc(), net, &cases)?;
    Ok(())
}

// The same prices, told in halves.
#[test]
fn two_legs_over_a_denominator(rt: HostRuntime) -> Result<(), Fail> {
    let cases: [(u32, &[u32], u8, &[(u16, i128, u8)]); 1] = [(
        2,
        &[300, 160],
        0,
        &[(0, 800, 1), (1, 300, 2), (2, 840, 1), (4, 298, 2)],
    )];
    let net = two_legs_five_products(rt.alloc())?;
    assert_nests(&rt, rt.alloc(), net, &cases)?;
    Ok(())
}

#[test]
fn a_negative_fare_falls_in_the_last_bucket(rt: HostRuntime) -> Result<(), Fail> {
    let file =
        b"periods,2,1\nleg,PQ,5,40\nleg,QR,2,200\nproduct,QRH,300,QR\nproduct,PQL,50,PQ\nproduct,PRL,120,PQ,QR\n\
          demand,QRH,1,3\ndemand,QRH,2,3\ndemand,PQL,1,2\ndemand,PQL,2,1\ndemand,PRL,1,1\ndemand,PRL,2,1\n";
    let cases: [(u32, &[u32], u8, &[(u16, i128, u8)]); 2] = [
        (1, &[0, 300], 0, &[(1, 50, 1), (2, -180, 2)]),
        (1, &[0, 300], 1, &[(0, 300, 1), (2, 120, 2)]),
    ];
    let net = parse(rt.alloc(), file).expect(&rt, "a network");
    assert_nests(&rt, rt.alloc(), net, &cases)?;
    Ok(())
}

// A fare at a threshold belongs above it; a leg without thresholds has one bucket, and a leg without products none.
#[test]
fn at_a_threshold_and_without_any(rt: HostRuntime) -> Result<(), Fail> {
    let file =
        b"periods,1,1\nleg,AB,5,300,100\nleg,BC,5\nleg,CD,5,50\nproduct,TOP,300,AB\nproduct,BOTH,299,AB,BC\n\
          demand,TOP,1,1\ndemand,BOTH,1,1\n";
    let cases: [(u32, &[u32], u8, &[(u16, i128, u8)]); 3] = [
        (1, &[10, 199, 7], 0, &[(0, 300, 1), (1, 100, 2)]),
        (1, &[300, 199, 7], 1, &[(1, -1, 1)]),
        (1, &[10, 199, 7], 2, &[]),
    ];
    let net = parse(rt.alloc(), file).expect(&rt, "a network");
    assert_nests(&rt, rt.alloc(), net, &cases)?;
    Ok(())
}
