//! What numbers of seats that are enough are worked out from, on a small network, by hand.

use crate::bucket::priced;
use nrm_emsr::{Basis, basis_of};
use nrm_model::Network;
use nrm_network::parse;
use nrm_virtual::BucketTable;
use std::alloc::{AllocError, Global};
use std::process::Abort;
use std::test::Fail;

// A case: a leg, the last of its buckets, a period, and the fares and the seats of both means and the demands that are
// wanted there.
type Case<'a> = (u8, u8, u8, (i128, u32), (i128, u32), &'a [u32]);

// What is found on a leg over a denominator: none where there is no such leg, no such bucket before its last, no such
// period, or another number of prices.
fn found(
    alloc: Global,
    net: &Network,
    den: u32,
    prices: &[u32],
    leg: u8,
    last: u8,
    period: u8,
) -> Result<Option<Basis>, AllocError> {
    if den == 0 || prices.len() != net.leg_count() || leg as usize >= net.leg_count() {
        return Ok(None);
    }
    let cuts = net.leg_at(leg).cuts.as_slice();
    if last == 0 || last as usize > cuts.len() || period == 0 || period > net.t() {
        return Ok(None);
    }
    let cert = priced(alloc, den, prices)?;
    let table = BucketTable::build(alloc, net, &cert)?;
    let basis = basis_of(alloc, net, &cert, &table, leg, last, period)?;
    Ok(Some(basis))
}

fn assert_each(
    rt: &impl Abort,
    alloc: Global,
    net: &Network,
    cases: &[Case<'_>],
) -> Result<(), AllocError> {
    for (leg, last, period, above, next, demands) in cases {
        let basis = found(alloc, net, 2, &[7, 9], *leg, *last, *period)?.expect(rt, "a bucket");
        assert_eq!(rt; (basis.above.fares, basis.above.seats), *above);
        assert_eq!(rt; (basis.next.fares, basis.next.seats), *next);
        assert_eq!(rt; basis.demands.as_slice(), *demands);
    }
    Ok(())
}

// On AB the last bucket is empty, and on CD the first two are. Fares are told in halves.
#[test]
fn two_legs_of_three_buckets(rt: HostRuntime) -> Result<(), Fail> {
    let file =
        b"periods,2,2\nleg,AB,10,300,100\nleg,CD,8,200,100\nproduct,HIGH,400,AB\nproduct,MID,150,AB\n\
          product,LOW,50,CD\ndemand,HIGH,1,1,2\ndemand,HIGH,2,3,1\ndemand,MID,1,4,5\ndemand,MID,2,0,2\n\
          demand,LOW,1,6,0\ndemand,LOW,2,1,3\n";
    let cases: [Case<'_>; 5] = [
        (0, 1, 1, (5600, 7), (3300, 11), &[3, 4]),
        (0, 2, 1, (8900, 18), (0, 1), &[12, 6]),
        (0, 1, 2, (2400, 3), (2100, 7), &[2, 1]),
        (1, 1, 1, (0, 0), (200, 1), &[0, 0]),
        (1, 2, 1, (0, 0), (1000, 10), &[0, 0]),
    ];
    let net = parse(rt.alloc(), file).expect(&rt, "a network");
    assert_each(&rt, rt.alloc(), &net, &cases)?;
    Ok(())
}
