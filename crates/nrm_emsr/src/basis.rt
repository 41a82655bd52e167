//! What a leg's number of seats that is enough for some of its buckets is worked out from.
ghost use Rattle.std.specs.Prelude.{◌≡◌, ◌+◌, ◌*◌, ◌^◌, ◌<◌, ◌≤◌, IfOk, length, map, nat_abs, unsigned_abs};
ghost use Rattle.std.specs.Int.{IsInRange};
ghost use Rattle.std.specs.List.{range_with_len};
ghost use Rattle.nrm_fraction.specs.Fraction.{◌over◌};
ghost use Rattle.nrm_fraction.specs.Large.{size_limit};
ghost use Rattle.nrm_model.specs.Network.{leg_of};
ghost use Rattle.nrm_virtual.specs.Adjusted.{HasPrices};
ghost use Rattle.nrm_virtual.specs.Table.{IsTableOf};
ghost use Rattle.nrm_emsr.specs.Fares.{bucket_fare, weight_of, weighted_fares};
ghost use Rattle.nrm_emsr.specs.Protections.{demand_above};

use crate::compared::next_fare;
use crate::nest::nested_on;
use crate::sums::{Mean, add_next, first_sums};
use nrm_lp::Certificate;
use nrm_model::Network;
use nrm_virtual::BucketTable;
use std::alloc::{AllocError, Global};

/// What a leg's number of seats that is enough for its buckets 1 to some bucket is worked out from.
#[derive(Drop)]
pub struct Basis {
    /// The mean fare of those buckets.
    pub above: Mean,
    /// The fare of the next bucket.
    pub next: Mean,
    /// The demand to come of those buckets, history by history.
    pub demands: Vec<u32>,
}

/// What the number of seats of a leg that is enough for its buckets 1 to `last`, from period `period` on, is worked out
/// from. `table` is that of the network and the certificate.
///
/// # Errors
/// Memory runs out.
pub fn basis_of(
    alloc: Global,
    net: &Network,
    cert: &Certificate,
    table: &BucketTable,
    leg: u8,
    last: u8,
    period: u8,
) -> Result<Basis, AllocError>
    requires prices { HasPrices size_limit (length net.now.legs) cert.now }
    requires table { IsTableOf net.now cert.now table.now }
    requires leg { leg < length net.now.legs }
    requires last { IsInRange 1 (length (leg_of net.now leg).cuts) last }
    requires period { IsInRange 1 net.now.periods period }
    ensures seats { IfOk result (λ basis. basis.above.seats ≡ weight_of net.now cert.now leg period 1 last) }
    ensures fares { IfOk result (λ basis. basis.above.fares ≡ weighted_fares net.now cert.now leg period 1 last) }
    ensures next { IfOk result (λ basis. basis.next.fares over (basis.next.seats * nat_abs cert.now.den)
        ≡ bucket_fare net.now cert.now leg period (last + 1)) }
    ensures demands { IfOk result (λ basis. basis.demands.items
        ≡ map (demand_above net.now cert.now leg period last) (range_with_len 0 net.now.histories)) }
    ensures some { IfOk result (λ basis. 1 ≤ basis.next.seats) }
    ensures sizes { IfOk result (λ basis. (basis.above.seats < 2 ^ 23) × (unsigned_abs basis.above.fares < 2 ^ 98)
        × (basis.next.seats < 2 ^ 23) × (unsigned_abs basis.next.fares < 2 ^ 98)) }
{
    // For its clause alone: a leg has few thresholds.
    let _ = net.leg_at(leg);
    let nest = nested_on(alloc, net, cert, table, leg)?;
    let mut sums = first_sums(alloc, net, &nest, period)?;
    for bucket in 1..last {
        add_next(&mut sums, net, &nest, bucket, period);
    }
    let above = sums.above;
    let demands = Vec::from_slice(alloc, &sums.demands)?;
    let mean = add_next(&mut sums, net, &nest, last, period);
    let next = next_fare(net, cert, leg, last, mean);
    Ok(Basis {
        above,
        next,
        demands,
    })
}
