//! Fractions over their least common denominator.
#![tactic(auto)]

ghost use Rattle.std.specs.Prelude.{◌≡◌, ◌<◌, ◌^◌, ◌/◌, ◌*ℤ◌, [], pos, MatchResult, None};
ghost use Rattle.nrm_number.specs.Gcd.{lcm as lcm_of};
ghost use Rattle.nrm_fraction.specs.Large.{common, first_reaching, numerators as numerators_over, running, size_limit, first_too_large};
ghost use Rattle.nrm_fraction.specs.Fault.{IsFault};

use crate::SIZE_LIMIT;
use crate::fault::RowFault;
use crate::fraction::Fraction;
use nrm_number::gcd;
use std::alloc::Global;

/// The least common denominator of these fractions, and their numerators over it, in order.
///
/// # Errors
/// `Large`, with the first number that reaches the limit: the least common denominators of the first fraction, of the first
/// two and so on, then the numerators. `NoMemory`.
pub fn over_common(alloc: Global, fractions: &[Fraction]) -> Result<(i64, Vec<i64>), RowFault>
    ensures { MatchResult result
        (λ made. (made.0 ≡ pos (common fractions.now)) × (made.1.items ≡ numerators_over (common fractions.now) fractions.now)
        × (first_too_large size_limit fractions.now ≡ None))
        (λ f. IsFault f (first_too_large size_limit fractions.now)) }
{
    let den = common_denominator(fractions)?;
    let nums = numerators(alloc, den, fractions)?;
    Ok((den as i64, nums))
}

// The least common denominator, or the first on the way to it that reaches the limit.
fn common_denominator(fractions: &[Fraction]) -> Result<u64, RowFault>
    ensures { MatchResult result
        (λ den. (den ≡ common fractions.now) × (den < size_limit) × (first_reaching size_limit (running 1 fractions.now) ≡ None))
        (λ f. IsFault f (first_reaching size_limit (running 1 fractions.now))) }
{
    let mut den = 1;
    for fraction in fractions {
        let wide = lcm(fraction.den(), den);
        if wide >= SIZE_LIMIT as u128 {
            return Err(RowFault::Large {
                number: wide as i128,
            });
        }
        den = wide as u64;
    }
    Ok(den)
}

// The numerators over a denominator, or the first that reaches the limit.
fn numerators(alloc: Global, den: u64, fractions: &[Fraction]) -> Result<Vec<i64>, RowFault>
    requires { den < size_limit }
    ensures { let numbers = numerators_over den fractions.now in
        MatchResult result (λ made. (made.items ≡ numbers) × (first_reaching size_limit numbers ≡ None))
        (λ f. IsFault f (first_reaching size_limit numbers)) }
{
    let mut made = Vec::new(alloc);
    for fraction in fractions {
        let number = numerator(den, fraction);
        if number >= SIZE_LIMIT as u128 {
            return Err(RowFault::Large {
                number: number as i128,
            });
        }
        made.push(number as i64)?;
    }
    Ok(made)
}

// The numerator of a fraction over a denominator that its own divides.
fn numerator(den: u64, fraction: &Fraction) -> u128
    requires { den < size_limit }
    ensures value { pos result ≡ fraction.now.num *ℤ pos (den / fraction.now.den) }
    ensures size { result < 2 ^ 116 }
{
    fraction.num() * u128::from(den / fraction.den())
}

// The least common multiple.
fn lcm(a: u64, b: u64) -> u128
    requires some { 0 < b }
    requires small { b < size_limit }
    ensures value { result ≡ lcm_of a b }
    ensures size { result < 2 ^ 112 }
{
    let divisor = gcd(u128::from(a), u128::from(b));
    u128::from(a) * (u128::from(b) / divisor)
}

// Lists of few fractions, worked by hand, and lists at the limit.
