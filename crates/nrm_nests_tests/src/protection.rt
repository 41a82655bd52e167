//! Protections of small networks, worked by hand.

use crate::bucket::priced;
use nrm_emsr::protections;
use nrm_model::Network;
use nrm_network::parse;
use nrm_samples::two_legs_five_products;
use nrm_virtual::BucketTable;
use std::alloc::{AllocError, Global};
use std::process::Abort;
use std::test::Fail;

// The protections of a leg at these prices: a number that no leg has where there is no such leg, no such period, or
// another number of prices.
fn levels(
    alloc: Global,
    net: &Network,
    prices: &[u32],
    leg: u8,
    period: u8,
) -> Result<Vec<u16>, AllocError> {
    let known = (leg as usize) < net.leg_count();
    if !known || prices.len() != net.leg_count() || period == 0 || period > net.t() {
        return [1000].to_vec(alloc);
    }
    let cert = priced(alloc, 1, prices)?;
    let table = BucketTable::build(alloc, net, &cert)?;
    protections(alloc, net, &cert, &table, leg, period)
}

// Of each case the prices, a leg, a period and the protections that are wanted there.
fn assert_each(
    rt: &impl Abort,
    alloc: Global,
    net: &Network,
    cases: &[(&[u32], u8, u8, &[u16])],
) -> Result<(), AllocError> {
    for (prices, leg, period, wanted) in cases {
        let found = levels(alloc, net, prices, *leg, *period)?;
        assert_eq!(rt;
            found.as_slice(),
            *wanted,
            "on leg {leg} in period {period}"
        );
    }
    Ok(())
}

// The same, of a network that is used no further.
fn assert_levels(
    rt: &impl Abort,
    alloc: Global,
    net: Network,
    cases: &[(&[u32], u8, u8, &[u16])],
) -> Result<(), AllocError> {
    assert_each(rt, alloc, &net, cases)
}

#[test]
fn two_legs_and_five_products(rt: HostRuntime) -> Result<(), Fail> {
    let net = two_legs_five_products(rt.alloc())?;
    let cases: [(&[u32], u8, u8, &[u16]); 2] = [
        (&[150, 80], 0, 1, &[7, 10]),
        (&[150, 80], 1, 1, &[4, 6]),
    ];
    assert_levels(&rt, rt.alloc(), net, &cases)?;
    Ok(())
}

#[test]
fn a_through_product_worth_less_than_its_second_leg(rt: HostRuntime) -> Result<(), Fail> {
    let file =
        b"periods,2,1\nleg,PQ,5,40\nleg,QR,2,200\nproduct,QRH,300,QR\nproduct,PQL,50,PQ\nproduct,PRL,120,PQ,QR\n\
          demand,QRH,1,3\ndemand,QRH,2,3\ndemand,PQL,1,2\ndemand,PQL,2,1\ndemand,PRL,1,1\ndemand,PRL,2,1\n";
    let cases: [(&[u32], u8, u8, &[u16]); 2] = [(&[0, 300], 0, 1, &[2]), (&[0, 300], 1, 1, &[2])];
    let net = parse(rt.alloc(), file).expect(&rt, "a network");
    assert_levels(&rt, rt.alloc(), net, &cases)?;
    Ok(())
}

#[test]
fn a_hub_at_opening_and_later(rt: HostRuntime) -> Result<(), Fail> {
    let file =
        b"periods,2,2\nleg,NYC-CHI,130,400,150\nleg,BOS-CHI,70,400,150\nleg,CHI-LAX,120,400,150\n\
          leg,CHI-SEA,60,400,150\nproduct,NC-Y,320,NYC-CHI\nproduct,NC-Q,110,NYC-CHI\nproduct,BC-Y,300,BOS-CHI\n\
          product,BC-Q,95,BOS-CHI\nproduct,CL-Y,520,CHI-LAX\nproduct,CL-Q,180,CHI-LAX\n\
          product,NL-Y,700,NYC-CHI,CHI-LAX\nproduct,NL-Q,260,NYC-CHI,CHI-LAX\nproduct,BL-Q,240,BOS-CHI,CHI-LAX\n\
          product,CS-Y,450,CHI-SEA\nproduct,NS-Q,230,NYC-CHI,CHI-SEA\ndemand,NC-Y,1,10,10\ndemand,NC-Y,2,12,8\n\
          demand,NC-Q,1,20,10\ndemand,NC-Q,2,24,6\ndemand,BC-Y,1,8,8\ndemand,BC-Y,2,6,10\ndemand,BC-Q,1,15,5\n\
          demand,BC-Q,2,18,2\ndemand,CL-Y,1,15,20\ndemand,CL-Y,2,10,15\ndemand,CL-Q,1,40,10\ndemand,CL-Q,2,45,5\n\
          demand,NL-Y,1,10,10\ndemand,NL-Y,2,8,12\ndemand,NL-Q,1,25,5\ndemand,NL-Q,2,30,4\ndemand,BL-Q,1,20,5\n\
          demand,BL-Q,2,22,3\ndemand,CS-Y,1,12,12\ndemand,CS-Y,2,10,16\ndemand,NS-Q,1,15,5\ndemand,NS-Q,2,12,8\n";
    let cases: [(&[u32], u8, u8, &[u16]); 5] = [
        (&[0, 0, 180, 0], 0, 1, &[20, 60]),
        (&[0, 0, 180, 0], 1, 1, &[0, 16]),
        (&[0, 0, 180, 0], 2, 1, &[55, 120]),
        (&[0, 0, 180, 0], 3, 1, &[24, 46]),
        (&[0, 0, 240, 0], 2, 2, &[30, 50]),
    ];
    let net = parse(rt.alloc(), file).expect(&rt, "a network");
    assert_levels(&rt, rt.alloc(), net, &cases)?;
    Ok(())
}

// On AB a fare equal to a threshold, two empty buckets in the middle, where no number below the 4 authorised seats passes
// from the second on, and a negative fare in the last. BC has no thresholds and CD no products. On GH fewer seats would do
// for the second bucket than for the first, and a mean without weights would ask for all demand. On IJ two sides are equal,
// and the last bucket is empty.
#[test]
fn at_the_edges(rt: HostRuntime) -> Result<(), Fail> {
    let file =
        b"periods,2,1\nleg,AB,4,300,200,100\nleg,BC,5\nleg,CD,5,50\nleg,GH,600,1000,300\nleg,IJ,9,200,100\n\
          product,TOP,300,AB\nproduct,LOW,90,AB\nproduct,BOTH,120,AB,BC\nproduct,G1,1000,GH\nproduct,G2,300,GH\n\
          product,G3,299,GH\nproduct,IH,200,IJ\ndemand,TOP,1,2\ndemand,TOP,2,6\ndemand,LOW,1,3\ndemand,LOW,2,3\n\
          demand,BOTH,1,1\ndemand,BOTH,2,1\ndemand,G1,1,10\ndemand,G1,2,0\ndemand,G2,1,500\ndemand,G2,2,5\n\
          demand,G3,1,1\ndemand,G3,2,1\ndemand,IH,1,3\ndemand,IH,2,5\n";
    let cases: [(&[u32], u8, u8, &[u16]); 5] = [
        (&[0, 200, 0, 0, 0], 0, 1, &[2, 4, 4]),
        (&[0, 200, 0, 0, 0], 1, 1, &[]),
        (&[0, 200, 0, 0, 0], 2, 1, &[0]),
        (&[0, 200, 0, 0, 0], 3, 1, &[10, 10]),
        (&[0, 200, 0, 0, 0], 4, 1, &[3, 5]),
    ];
    let net = parse(rt.alloc(), file).expect(&rt, "a network");
    assert_levels(&rt, rt.alloc(), net, &cases)?;
    Ok(())
}
