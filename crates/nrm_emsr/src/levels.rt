//! Protection levels.
ghost use Rattle.std.specs.Prelude.{ℕ, ◌≡◌, ◌^◌, ◌<◌, IfOk, length, max, min, unsigned_abs};
ghost use Rattle.std.specs.Int.{IsInRange};
ghost use Rattle.nrm_fraction.specs.Large.{size_limit};
ghost use Rattle.nrm_model.specs.Network.{leg_of};
ghost use Rattle.nrm_virtual.specs.Adjusted.{HasPrices};
ghost use Rattle.nrm_virtual.specs.Buckets.{bucket_count};
ghost use Rattle.nrm_virtual.specs.Table.{IsTableOf};
ghost use Rattle.nrm_emsr.specs.Protections.{protections_of, seats_enough};
ghost use Rattle.nrm_emsr.specs.Inner.Sums.{AreSumsOf};

use crate::compared::{most_that_pass, next_fare};
use crate::nest::nested_on;
use crate::ranked::{demand_at, falling};
use crate::sums::{Mean, add_next, first_sums};
use nrm_lp::Certificate;
use nrm_model::Network;
use nrm_virtual::BucketTable;
use std::alloc::{AllocError, Global};

/// The seats of a leg that are protected for its buckets 1 to b, from period `period` on, for each b but the last.
/// `table` is that of the network and the certificate.
///
/// # Errors
/// Memory runs out.
pub fn protections(
    alloc: Global,
    net: &Network,
    cert: &Certificate,
    table: &BucketTable,
    leg: u8,
    period: u8,
) -> Result<Vec<u16>, AllocError>
    requires prices { HasPrices size_limit (length net.now.legs) cert.now }
    requires table { IsTableOf net.now cert.now table.now }
    requires leg { leg < length net.now.legs }
    requires period { IsInRange 1 net.now.periods period }
    ensures { IfOk result (λ levels. levels.items ≡ protections_of net.now cert.now leg period) }
{
    let cuts = net.leg_at(leg).cuts.as_slice();
    let mut levels = Vec::new(alloc);
    if cuts.is_empty() {
        return Ok(levels);
    }
    let nest = nested_on(alloc, net, cert, table, leg)?;
    let mut sums = first_sums(alloc, net, &nest, period)?;
    let mut last = 0;
    for passed in 0..cuts.len() as u8 {
        let above = sums.above;
        let ranked = falling(Vec::from_slice(alloc, &sums.demands)?);
        let next = add_next(&mut sums, net, &nest, passed + 1, period);
        let enough = enough_for(net, cert, leg, passed + 1, above, next, &ranked);
        last = greater(last, enough);
        levels.push(last)?;
    }
    Ok(levels)
}

// The greater of two numbers of seats.
fn greater(seats: u16, other: u16) -> u16
    ensures { result ≡ max seats other }
{
    seats.max(other)
}

// The least number of seats that suffices for buckets 1 to `last`, and the leg's authorised seats where no lower number
// does: of the histories' demands of those buckets, in falling order, the one at the place of the greatest count that
// passes. `above` is the mean fare of those buckets, and `next` that of the next one.
fn enough_for(
    net: &Network,
    cert: &Certificate,
    leg: u8,
    last: u8,
    above: Mean,
    next: Mean,
    ranked: &[u32],
) -> u16
    requires prices { HasPrices size_limit (length net.now.legs) cert.now }
    requires leg { leg < length net.now.legs }
    requires last { last < bucket_count net.now leg }
    requires weight { above.seats < 2 ^ 23 }
    requires fares { unsigned_abs above.fares < 2 ^ 98 }
    requires next_weight { next.seats < 2 ^ 23 }
    requires next_fares { unsigned_abs next.fares < 2 ^ 98 }
    ensures { (period : ℕ) → AreSumsOf net.now cert.now leg period last above next ranked.now
        → result ≡ seats_enough net.now cert.now leg period last }
{
    if above.seats == 0 {
        return 0;
    }
    let next = next_fare(net, cert, leg, last, next);
    let most = most_that_pass(net.n(), above, next);
    capped(demand_at(ranked, most), cap_of(net, leg))
}

// A demand, or the authorised seats where they are fewer.
fn capped(demand: u32, seats: u16) -> u16
    ensures { result ≡ min seats demand }
{
    demand.min(u32::from(seats)) as u16
}

// The authorised seats of a leg, which no protection exceeds.
fn cap_of(net: &Network, leg: u8) -> u16
    requires { leg < length net.now.legs }
    ensures { result ≡ (leg_of net.now leg).authorised }
{
    net.leg_at(leg).authorised
}
