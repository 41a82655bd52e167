//! A row minus a multiple of another, made anew in lowest terms: the numbers x e - a u at 128 bits. They are computed once for
//! their common divisor, as far as it isn't 1, and once to be put into their places.
#![tactic(auto)]

ghost use Rattle.std.specs.Prelude.{◌≡◌, pos, ◌*ℤ◌, ◌<ℤ◌, unsigned_abs, length, All, IfNone, IfOk, MatchResult, None};
ghost use Rattle.nrm_fraction.specs.Large.{fractions, gcd_all, first_reaching, large_number, size_limit, IsSmall};
ghost use Rattle.nrm_row.specs.Numbers.{IsRow};
ghost use Rattle.nrm_row.specs.Inner.Crossed.{crossed, shrunk};
ghost use Rattle.nrm_fraction.specs.Fault.{IsFault};

use crate::numbers::{cross, is_large, product, wide_quotient};
use nrm_fraction::RowFault;
use nrm_number::gcd;
use std::alloc::Global;

// The greatest common divisor of d and all the numbers x e - a u.
fn divisor(d: u128, a: i64, e: i64, us: &[i64], xs: &[i64]) -> u128
    requires lengths { length us.now ≡ length xs.now }
    requires us_small { All IsSmall us.now }
    requires xs_small { All IsSmall xs.now }
    requires e_small { IsSmall e }
    requires a_small { IsSmall a }
    ensures { result ≡ gcd_all d (crossed a e us.now xs.now) }
{
    let mut common = d;
    let mut i = us.len();
    while i > 0 && common != 1 {
        i -= 1;
        let number = cross(xs[i], e, a, us[i]);
        if number != 0 {
            common = gcd(number.unsigned_abs(), common);
        }
    }
    common
}

// The greatest common divisor of the denominator den e and all the numbers x e - a u.
fn crossed_divisor(den: i64, a: i64, e: i64, us: &[i64], xs: &[i64]) -> i128
    requires den_positive { pos 0 <ℤ den }
    requires e_positive { pos 0 <ℤ e }
    requires den_small { IsSmall den }
    requires e_small { IsSmall e }
    requires a_small { IsSmall a }
    requires lengths { length us.now ≡ length xs.now }
    requires us_small { All IsSmall us.now }
    requires xs_small { All IsSmall xs.now }
    ensures value { result ≡ pos (gcd_all (unsigned_abs (den *ℤ e)) (crossed a e us.now xs.now)) }
    ensures positive { pos 0 <ℤ result }
{
    divisor(product(den, e).unsigned_abs(), a, e, us, xs) as i128
}

// Puts x e - a u, divided by g, into the place of each number x, up to the first that reaches the limit: this one is
// the answer.
fn put_crossed(xs: &mut [i64], us: &[i64], a: i64, e: i64, g: i128) -> Option<i128>
    requires positive { pos 0 <ℤ g }
    requires lengths { length us.now ≡ length xs.old }
    requires us_small { All IsSmall us.now }
    requires xs_small { All IsSmall xs.old }
    requires e_small { IsSmall e }
    requires a_small { IsSmall a }
    ensures large { result ≡ first_reaching size_limit (shrunk (unsigned_abs g) (crossed a e us.now xs.old)) }
    ensures numbers { IfNone result (xs.new ≡ shrunk (unsigned_abs g) (crossed a e us.now xs.old)) }
{
    for i in 0..us.len() {
        let number = wide_quotient(cross(xs[i], e, a, us[i]), g);
        if is_large(number) {
            return Some(number);
        }
        xs[i] = number as i64;
    }
    None
}

// The numbers x e - a u, each divided by g, or the first that reaches the limit.
fn crossed_numbers(
    alloc: Global,
    xs: &[i64],
    us: &[i64],
    a: i64,
    e: i64,
    g: i128,
) -> Result<Vec<i64>, RowFault>
    requires positive { pos 0 <ℤ g }
    requires lengths { length us.now ≡ length xs.now }
    requires us_small { All IsSmall us.now }
    requires xs_small { All IsSmall xs.now }
    requires e_small { IsSmall e }
    requires a_small { IsSmall a }
    ensures { let numbers = shrunk (unsigned_abs g) (crossed a e us.now xs.now) in
        MatchResult result
        (λ made. (made.items ≡ numbers) × (first_reaching size_limit numbers ≡ None))
        (λ f. IsFault f (first_reaching size_limit numbers)) }
{
    let mut made = Vec::from_slice(alloc, xs)?;
    match put_crossed(&mut made, us, a, e, g) {
        Some(number) => Err(RowFault::Large { number }),
        None => Ok(made),
    }
}

// The numbers x e - a u over the denominator den e, in lowest terms.
pub(crate) fn crossed_row(
    alloc: Global,
    den: i64,
    xs: &[i64],
    a: i64,
    e: i64,
    us: &[i64],
) -> Result<(i64, Vec<i64>), RowFault>
    requires row { IsRow den xs.now }
    requires positive { pos 0 <ℤ e }
    requires e_small { IsSmall e }
    requires a_small { IsSmall a }
    requires us_small { All IsSmall us.now }
    requires lengths { length us.now ≡ length xs.now }
    ensures row { IfOk result (λ made. IsRow made.0 made.1.items) }
    ensures exact { let exact = fractions (unsigned_abs (den *ℤ e)) (crossed a e us.now xs.now) in
        MatchResult result
        (λ made. (fractions (unsigned_abs made.0) made.1.items ≡ exact) × (large_number size_limit exact ≡ None))
        (λ f. IsFault f (large_number size_limit exact)) }
{
    let common = crossed_divisor(den, a, e, us, xs);
    let wide = wide_quotient(product(den, e), common);
    if is_large(wide) {
        return Err(RowFault::Large { number: wide });
    }
    let made = crossed_numbers(alloc, xs, us, a, e, common)?;
    Ok((wide as i64, made))
}
