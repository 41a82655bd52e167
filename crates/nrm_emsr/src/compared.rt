//! The comparison of two mean fares, in whole numbers that fit in 128 bits, and the greatest count of histories that
//! passes.
ghost use Rattle.std.specs.Prelude.{◌≡◌, ◌+◌, ◌*◌, ◌^◌, ◌<◌, ◌≤◌, ◌*ℤ◌, int_lt, length, nat_abs, not, pos, unsigned_abs};
ghost use Rattle.nrm_fraction.specs.Large.{size_limit};
ghost use Rattle.nrm_model.specs.Network.{leg_of};
ghost use Rattle.nrm_model.specs.declared.limits.TheConstants.{MOST_HISTORIES};
ghost use Rattle.nrm_virtual.specs.Adjusted.{HasPrices};
ghost use Rattle.nrm_virtual.specs.Buckets.{bucket_count};
ghost use Rattle.nrm_emsr.specs.Inner.Sums.{crosses, fare_by};
ghost use Rattle.nrm_emsr.specs.Inner.Ranked.{greatest_count};

use crate::sums::{Mean, scaled};
use nrm_lp::Certificate;
use nrm_model::Network;

/// The fare of the bucket behind `last` of a leg, from its mean fare.
pub(crate) fn next_fare(net: &Network, cert: &Certificate, leg: u8, last: u8, mean: Mean) -> Mean
    requires prices { HasPrices size_limit (length net.now.legs) cert.now }
    requires leg { leg < length net.now.legs }
    requires last { last < bucket_count net.now leg }
    requires weight { mean.seats < 2 ^ 23 }
    requires fares { unsigned_abs mean.fares < 2 ^ 98 }
    ensures fares { result.fares ≡ (fare_by mean.fares mean.seats (leg_of net.now leg).cuts (nat_abs cert.now.den) (last + 1)).0 }
    ensures seats { result.seats ≡ (fare_by mean.fares mean.seats (leg_of net.now leg).cuts (nat_abs cert.now.den) (last + 1)).1 }
    ensures some { 1 ≤ result.seats }
    ensures seats_size { result.seats < 2 ^ 23 }
    ensures fares_size { unsigned_abs result.fares < 2 ^ 98 }
{
    let cuts = net.leg_at(leg).cuts.as_slice();
    fare_of(mean, cuts, cert.den.unsigned_abs(), last + 1)
}

// The fare of a bucket, from its mean fare, the thresholds and the denominator.
fn fare_of(mean: Mean, cuts: &[u32], den: u64, bucket: u8) -> Mean
    requires weight { mean.seats < 2 ^ 23 }
    requires fares { unsigned_abs mean.fares < 2 ^ 98 }
    requires den { den < size_limit }
    requires first { 1 ≤ bucket }
    ensures fares { result.fares ≡ (fare_by mean.fares mean.seats cuts.now den bucket).0 }
    ensures seats { result.seats ≡ (fare_by mean.fares mean.seats cuts.now den bucket).1 }
    ensures some { 1 ≤ result.seats }
    ensures seats_size { result.seats < 2 ^ 23 }
    ensures fares_size { unsigned_abs result.fares < 2 ^ 98 }
{
    if bucket as usize <= cuts.len() {
        if mean.seats == 0 {
            Mean {
                fares: (u128::from(cuts[bucket as usize - 1]) * u128::from(den)) as i128,
                seats: 1,
            }
        } else {
            mean
        }
    } else if mean.seats == 0 || mean.fares < 0 {
        Mean { fares: 0, seats: 1 }
    } else {
        mean
    }
}

/// The greatest count, from 0 to the number of histories, that passes: times the fare above, it is at most that number,
/// times the next fare. 0 where none does.
pub(crate) fn most_that_pass(histories: u8, above: Mean, next: Mean) -> u8
    requires histories { histories ≤ MOST_HISTORIES }
    requires weight { above.seats < 2 ^ 23 }
    requires fares { unsigned_abs above.fares < 2 ^ 98 }
    requires next_weight { next.seats < 2 ^ 23 }
    requires next_fares { unsigned_abs next.fares < 2 ^ 98 }
    ensures { result ≡ greatest_count (λ count. crosses count above.fares above.seats histories next.fares next.seats) histories }
{
    let mut count = histories;
    while count > 0 && !passes(count, above, histories, next) {
        count -= 1;
    }
    count
}

// Whether a count of histories, times a fare, is at most the histories, times the next fare.
fn passes(count: u8, above: Mean, histories: u8, next: Mean) -> bool
    requires few { count ≤ MOST_HISTORIES }
    requires histories { histories ≤ MOST_HISTORIES }
    requires weight { above.seats < 2 ^ 23 }
    requires fares { unsigned_abs above.fares < 2 ^ 98 }
    requires next_weight { next.seats < 2 ^ 23 }
    requires next_fares { unsigned_abs next.fares < 2 ^ 98 }
    ensures { result ≡ crosses count above.fares above.seats histories next.fares next.seats }
{
    is_at_most(
        side(count, above.fares, next.seats),
        side(histories, next.fares, above.seats),
    )
}

// Whether a number is at most another.
fn is_at_most(number: i128, other: i128) -> bool
    ensures { result ≡ not (int_lt other number) }
{
    number <= other
}

// A side of the comparison.
fn side(count: u8, fares: i128, seats: u32) -> i128
    requires few { count ≤ MOST_HISTORIES }
    requires weight { seats < 2 ^ 23 }
    requires fares { unsigned_abs fares < 2 ^ 98 }
    ensures side { result ≡ (pos count *ℤ fares) *ℤ pos seats }
    ensures within { unsigned_abs result < 2 ^ 126 }
{
    scaled(scaled(fares, u32::from(count)), seats)
}
