//! Sums over a leg's buckets, from the first on: their fares, each as often as its demand to come, and that demand, in each
//! history and in all. Those of one bucket more are those so far and its own.
ghost use Rattle.std.specs.Prelude.{◌≡◌, ◌+◌, ◌-◌, ◌*◌, ◌^◌, ◌<◌, ◌≤◌, ◌+ℤ◌, ◌*ℤ◌, All, IfOk, length, map, pos, slice_index, unsigned_abs};
ghost use Rattle.std.specs.Int.{IsInRange, is_in_range};
ghost use Rattle.std.specs.List.{range_with_len};
ghost use Rattle.nrm_model.specs.Demand.{demand_to_come, total_to_come};
ghost use Rattle.nrm_model.specs.declared.limits.TheConstants.{MOST_PRODUCTS, MOST_THRESHOLDS, MOST_TOTAL_DEMAND};
ghost use Rattle.nrm_emsr.specs.Inner.Nest.{IsKnown};
ghost use Rattle.nrm_emsr.specs.Inner.Sums.{AreSumsTo, IsMeanOf, nest_demand};

use crate::nest::Nested;
use nrm_model::Network;
use std::alloc::{AllocError, Global};

/// A mean fare: the sum of the fares, each as often as its demand, over that demand and the certificate's denominator.
#[derive(Clone, Copy)]
pub struct Mean {
    /// The sum of the fares, each as often as its demand.
    pub fares: i128,
    /// That demand, over all histories.
    pub seats: u32,
}

/// The sums over a leg's buckets 1 to some bucket: their mean fare, and their demand to come in each history.
#[derive(Drop)]
pub(crate) struct Sums {
    pub(crate) above: Mean,
    pub(crate) demands: Vec<u32>,
}

/// The sums over bucket 1 alone.
///
/// # Errors
/// Memory runs out.
pub(crate) fn first_sums(
    alloc: Global,
    net: &Network,
    nest: &[Nested],
    period: u8,
) -> Result<Sums, AllocError>
    requires known { All (IsKnown (length net.now.products)) nest.now }
    requires few { length nest.now ≤ MOST_PRODUCTS }
    requires period { IsInRange 1 net.now.periods period }
    ensures { IfOk result (AreSumsTo net.now period nest.now 1) }
{
    let mut demands = vec![in alloc; 0; net.n() as usize]?;
    let above = add_bucket(&mut demands, net, nest, 0, period);
    Ok(Sums { above, demands })
}

/// Adds the bucket behind `last` to the sums over buckets 1 to `last`, and gives its mean fare.
pub(crate) fn add_next(
    sums: &mut Sums,
    net: &Network,
    nest: &[Nested],
    last: u8,
    period: u8,
) -> Mean
    requires known { All (IsKnown (length net.now.products)) nest.now }
    requires few { length nest.now ≤ MOST_PRODUCTS }
    requires last { last ≤ MOST_THRESHOLDS }
    requires period { IsInRange 1 net.now.periods period }
    requires sums { AreSumsTo net.now period nest.now last sums.old }
    ensures next { IsMeanOf net.now period nest.now (last + 1) (last + 1) result }
    ensures sums { AreSumsTo net.now period nest.now (last + 1) sums.new }
    ensures next_weight { result.seats < 2 ^ 23 }
    ensures next_fares { unsigned_abs result.fares < 2 ^ 98 }
{
    let next = add_bucket(&mut sums.demands, net, nest, last, period);
    sums.above = both(sums.above, next);
    next
}

// Adds the demand to come of the bucket behind `above` to that of buckets 1 to `above`, history by history, and gives its
// mean fare.
fn add_bucket(demands: &mut Vec<u32>, net: &Network, nest: &[Nested], above: u8, period: u8) -> Mean
    requires known { All (IsKnown (length net.now.products)) nest.now }
    requires few { length nest.now ≤ MOST_PRODUCTS }
    requires above { above ≤ MOST_THRESHOLDS }
    requires period { IsInRange 1 net.now.periods period }
    requires demands { demands.old.items ≡ map (nest_demand net.now period nest.now 1 above) (range_with_len 0 net.now.histories) }
    ensures mean { IsMeanOf net.now period nest.now (above + 1) (above + 1) result }
    ensures demands { demands.new.items
        ≡ map (nest_demand net.now period nest.now 1 (above + 1)) (range_with_len 0 net.now.histories) }
{
    net.limits_hold();
    let bucket = above + 1;
    let mut mean = Mean { fares: 0, seats: 0 };
    for nested in nest {
        if is_between(bucket, bucket, nested.bucket) {
            let seats = add_product(demands, net, nested.product, period);
            mean = with(mean, nested, seats);
        }
    }
    mean
}

// Adds the demand to come of a product to these, history by history, and gives it in all.
fn add_product(demands: &mut Vec<u32>, net: &Network, product: u16, period: u8) -> u32
    requires product { product < length net.now.products }
    requires period { IsInRange 1 net.now.periods period }
    requires long { length demands.old.items ≡ net.now.histories }
    requires room { All (λ seats. seats < 2 ^ 31) demands.old.items }
    ensures total { result ≡ total_to_come net.now product period }
    ensures within { result ≤ MOST_TOTAL_DEMAND }
    ensures demands { demands.new.items
        ≡ map (λ history. slice_index demands.old.items history + demand_to_come net.now product history period)
        (range_with_len 0 net.now.histories) }
{
    let mut total = 0;
    for history in 0..net.n() {
        let seats = net.to_come(product, history, period);
        demands[history as usize] += seats;
        total += seats;
    }
    total
}

// One more product in a mean.
fn with(mean: Mean, nested: &Nested, seats: u32) -> Mean
    requires fares { unsigned_abs mean.fares ≤ 2 ^ 75 * MOST_TOTAL_DEMAND * (MOST_PRODUCTS - 1) }
    requires weight { mean.seats ≤ MOST_TOTAL_DEMAND * (MOST_PRODUCTS - 1) }
    requires fare { unsigned_abs nested.now.fare < 2 ^ 75 }
    requires seats { seats ≤ MOST_TOTAL_DEMAND }
    ensures fares { result.fares ≡ mean.fares +ℤ (nested.now.fare *ℤ pos seats) }
    ensures seats { result.seats ≡ mean.seats + seats }
    ensures size { unsigned_abs result.fares ≤ unsigned_abs mean.fares + 2 ^ 75 * MOST_TOTAL_DEMAND }
{
    Mean {
        fares: plus(mean.fares, scaled(nested.fare, seats)),
        seats: mean.seats + seats,
    }
}

// The mean fare of some buckets and another one.
fn both(mean: Mean, other: Mean) -> Mean
    requires fares { unsigned_abs mean.fares < 2 ^ 98 }
    requires weight { mean.seats < 2 ^ 23 }
    requires other_fares { unsigned_abs other.fares < 2 ^ 98 }
    requires other_weight { other.seats < 2 ^ 23 }
    ensures fares { result.fares ≡ mean.fares +ℤ other.fares }
    ensures seats { result.seats ≡ mean.seats + other.seats }
    ensures size { unsigned_abs result.fares ≤ unsigned_abs mean.fares + unsigned_abs other.fares }
{
    Mean {
        fares: mean.fares + other.fares,
        seats: mean.seats + other.seats,
    }
}

// Whether a bucket is from one to another.
fn is_between(first: u8, last: u8, bucket: u8) -> bool
    ensures { result ≡ is_in_range first last bucket }
{
    first <= bucket && bucket <= last
}

// A sum of fares and one more.
fn plus(sum: i128, more: i128) -> i128
    requires sum { unsigned_abs sum ≤ 2 ^ 75 * MOST_TOTAL_DEMAND * (MOST_PRODUCTS - 1) }
    requires more { unsigned_abs more ≤ 2 ^ 75 * MOST_TOTAL_DEMAND }
    ensures value { result ≡ sum +ℤ more }
    ensures size { unsigned_abs result ≤ unsigned_abs sum + 2 ^ 75 * MOST_TOTAL_DEMAND }
{
    sum + more
}

/// A number times a factor.
pub(crate) fn scaled(number: i128, factor: u32) -> i128
    requires { unsigned_abs number * factor < 2 ^ 126 }
    ensures value { result ≡ number *ℤ pos factor }
    ensures size { unsigned_abs result ≡ unsigned_abs number * factor }
{
    number * i128::from(factor)
}
