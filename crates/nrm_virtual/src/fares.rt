//! Displacement-adjusted fares and their buckets, in whole numbers over the certificate's denominator.
ghost use Rattle.std.specs.Prelude.{◌≡◌, ◌+◌, ◌*◌, ◌^◌, ◌<◌, ◌≤◌, ◌==◌, ◌-ℤ◌, All, filter, int_lt, length, not, pos, true, unsigned_abs};
ghost use Rattle.std.specs.Int.{IsInRange};
ghost use Rattle.nrm_fraction.specs.Large.{size_limit};
ghost use Rattle.nrm_lp.specs.Certified.{sizes};
ghost use Rattle.nrm_lp.specs.Program.{price_sum};
ghost use Rattle.nrm_model.specs.Inventory.{inventory_of, uses_leg};
ghost use Rattle.nrm_model.specs.declared.limits.TheConstants.{MOST_LEGS_OF_A_PRODUCT, MOST_THRESHOLDS};
ghost use Rattle.nrm_virtual.specs.Adjusted.{HasPrices, adjusted_fare};
ghost use Rattle.nrm_virtual.specs.Buckets.{bucket_count, bucket_of, bucket_of_fare};

use nrm_lp::Certificate;
use nrm_model::Network;

/// The displacement-adjusted fare of a product on one of its legs, over the certificate's `den`: its fare less the bid
/// prices of its other legs. It may be below 0. It takes no memory.
pub fn adjusted(net: &Network, cert: &Certificate, leg: u8, product: u16) -> i128
    requires product { product < length net.now.products }
    requires uses { uses_leg (inventory_of net.now) leg product ≡ true }
    requires prices { HasPrices size_limit (length net.now.legs) cert.now }
    ensures fare { result ≡ adjusted_fare net.now cert.now leg product }
    ensures within { unsigned_abs result < 2 ^ 75 }
{
    let sold = net.product_at(product);
    let fare = u128::from(cert.den.unsigned_abs()) * u128::from(sold.fare);
    less(fare, other_prices(cert, sold.legs.as_slice(), leg))
}

/// The bucket of a product on one of its legs: 1 and one more for each threshold of the leg that is greater than the
/// adjusted fare. It takes no memory.
pub fn bucket(net: &Network, cert: &Certificate, leg: u8, product: u16) -> u8
    requires product { product < length net.now.products }
    requires uses { uses_leg (inventory_of net.now) leg product ≡ true }
    requires prices { HasPrices size_limit (length net.now.legs) cert.now }
    ensures bucket { result ≡ bucket_of net.now cert.now leg product }
    ensures within { IsInRange 1 (bucket_count net.now leg) result }
{
    net.limits_hold();
    let fare = adjusted(net, cert, leg, product);
    fallen_into(
        fare,
        cert.den.unsigned_abs(),
        net.leg_at(leg).cuts.as_slice(),
    )
}

// A fare less some prices.
fn less(fare: u128, prices: u64) -> i128
    requires fare { fare < 2 ^ 75 }
    requires prices { prices ≤ 2 ^ 50 }
    ensures difference { result ≡ pos fare -ℤ pos prices }
    ensures within { unsigned_abs result < 2 ^ 75 }
{
    fare as i128 - i128::from(prices)
}

// The sum of the bid prices of a product's legs but one, over the certificate's denominator.
fn other_prices(cert: &Certificate, legs: &[u8], leg: u8) -> u64
    requires prices { HasPrices size_limit (length cert.now.p) cert.now }
    requires legs { All (λ other. other < length cert.now.p) legs.now }
    requires few { length legs.now ≤ MOST_LEGS_OF_A_PRODUCT }
    ensures sum { result ≡ price_sum (sizes cert.now.p) (filter (λ other. not (other == leg)) legs.now) }
    ensures within { result ≤ 2 ^ 50 }
{
    let mut sum = 0;
    for other in legs {
        if *other != leg {
            sum += cert.p.as_slice()[*other as usize].unsigned_abs();
        }
    }
    sum
}

// The bucket that an adjusted fare falls into.
fn fallen_into(fare: i128, den: u64, cuts: &[u32]) -> u8
    requires den { den < size_limit }
    requires few { length cuts.now ≤ MOST_THRESHOLDS }
    ensures bucket { result ≡ bucket_of_fare fare den cuts.now }
    ensures within { IsInRange 1 (length cuts.now + 1) result }
{
    let mut bucket = 1;
    for cut in cuts {
        if is_above(*cut, den, fare) {
            bucket += 1;
        }
    }
    bucket
}

// Whether a threshold is greater than a fare over a denominator.
fn is_above(cut: u32, den: u64, fare: i128) -> bool
    requires { den < size_limit }
    ensures { result ≡ int_lt fare (pos (cut * den)) }
{
    (u128::from(cut) * u128::from(den)) as i128 > fare
}
