//! The arithmetic of single numbers: those of rows are below the limit in size, and products are wide until they are
//! divided again.
#![tactic(auto)]

ghost use Rattle.std.specs.Prelude.{◌≡◌, ◌+◌, ◌*◌, ◌<◌, ◌^◌, pos, ◌-ℤ◌, ◌*ℤ◌, ◌<ℤ◌, unsigned_abs, length, get_or, leb, All, IfSome};
ghost use Rattle.nrm_number.specs.Gcd.{gcd as gcd_of, shrink};
ghost use Rattle.nrm_fraction.specs.Large.{size_limit, IsSmall};

use nrm_fraction::SIZE_LIMIT;
use nrm_number::short_gcd;

// The number at a column.
pub(crate) fn number(nums: &[i64], col: u16) -> i64
    requires smalls { All IsSmall nums.now }
    requires within { col < length nums.now }
    ensures value { result ≡ get_or nums.now col (pos 0) }
    ensures small { IsSmall result }
{
    nums[usize::from(col)]
}

pub(crate) fn product(x: i64, y: i64) -> i128
    requires x_small { IsSmall x }
    requires y_small { IsSmall y }
    ensures value { result ≡ x *ℤ y }
    ensures bound { unsigned_abs result < 2 ^ 96 }
{
    x as i128 * y as i128
}

// x e - a u
pub(crate) fn cross(x: i64, e: i64, a: i64, u: i64) -> i128
    requires x_small { IsSmall x }
    requires e_small { IsSmall e }
    requires a_small { IsSmall a }
    requires u_small { IsSmall u }
    ensures value { result ≡ x *ℤ e -ℤ a *ℤ u }
    ensures bound { unsigned_abs result < 2 ^ 97 }
{
    let left = product(x, e);
    let right = product(a, u);
    left - right
}

// The denominator den e, where it stays below the limit.
fn denominator(den: i64, e: i64) -> Option<i64>
    requires den_small { IsSmall den }
    requires e_small { IsSmall e }
    ensures value { IfSome result (λ d. d ≡ den *ℤ e) }
    ensures small { IfSome result (λ d. IsSmall d) }
{
    let wide = product(den, e);
    if is_large(wide) {
        None
    } else {
        Some(wide as i64)
    }
}

// A bound on the numbers x e - a u, where it stays below the limit: x is at most `most` in size, and u at most `size`.
fn bound(most: u64, a: i64, e: i64, size: u64) -> Option<u64>
    requires most_small { most < size_limit }
    requires a_small { IsSmall a }
    requires e_small { IsSmall e }
    requires size_small { size < size_limit }
    ensures value { IfSome result (λ b. b ≡ most * unsigned_abs e + unsigned_abs a * size) }
    ensures room { IfSome result (λ b. b < size_limit) }
{
    let scaled = u128::from(most) * u128::from(e.unsigned_abs());
    let taken = u128::from(a.unsigned_abs()) * u128::from(size);
    if scaled + taken < SIZE_LIMIT as u128 {
        Some((scaled + taken) as u64)
    } else {
        None
    }
}

// Both, where both stay below the limit.
pub(crate) fn bounds(den: i64, most: u64, a: i64, e: i64, size: u64) -> Option<(i64, u64)>
    requires den_small { IsSmall den }
    requires e_small { IsSmall e }
    requires a_small { IsSmall a }
    requires most_small { most < size_limit }
    requires size_small { size < size_limit }
    ensures den { IfSome result (λ b. (b.0 ≡ den *ℤ e) × IsSmall b.0) }
    ensures most { IfSome result (λ b. (b.1 ≡ most * unsigned_abs e + unsigned_abs a * size) × (b.1 < size_limit)) }
{
    let den = denominator(den, e)?;
    let most = bound(most, a, e, size)?;
    Some((den, most))
}

// Whether a number reaches the limit in size.
pub(crate) fn is_large(n: i128) -> bool
    ensures { result ≡ leb size_limit (unsigned_abs n) }
{
    n.unsigned_abs() >= SIZE_LIMIT as u128
}

// What a number and a denominator have in common.
fn shared_divisor(n: i64, den: i64) -> i64
    requires positive { pos 0 <ℤ den }
    requires small { IsSmall den }
    ensures value { result ≡ pos (gcd_of (unsigned_abs n) (unsigned_abs den)) }
    ensures positive { pos 0 <ℤ result }
{
    short_gcd(n.unsigned_abs(), den.unsigned_abs()) as i64
}

// A number and a denominator, both divided by what they have in common.
pub(crate) fn reduced(n: i64, den: i64) -> (i64, i64)
    requires positive { pos 0 <ℤ den }
    requires number_small { IsSmall n }
    requires small { IsSmall den }
    ensures same { result.0 *ℤ den ≡ n *ℤ result.1 }
    ensures lowest { gcd_of (unsigned_abs result.0) (unsigned_abs result.1) ≡ 1 }
    ensures positive { pos 0 <ℤ result.1 }
    ensures number_small { IsSmall result.0 }
    ensures small { IsSmall result.1 }
{
    let shared = shared_divisor(n, den);
    (quotient(n, shared), quotient(den, shared))
}

// n divided by g, which is meant to divide it. Unsigned sizes are divided, which takes far less time, and 0 is not.
pub(crate) fn quotient(n: i64, g: i64) -> i64
    requires { pos 0 <ℤ g }
    ensures { result ≡ shrink n (unsigned_abs g) }
{
    if n == 0 {
        0
    } else if n == i64::MIN {
        n / g
    } else if n < 0 {
        -((n.unsigned_abs() / g.unsigned_abs()) as i64)
    } else {
        (n.unsigned_abs() / g.unsigned_abs()) as i64
    }
}

// The same of a wide number, at 64 bits where both fit.
pub(crate) fn wide_quotient(t: i128, g: i128) -> i128
    requires { pos 0 <ℤ g }
    ensures { result ≡ shrink t (unsigned_abs g) }
{
    if g == 1 {
        t
    } else if let (Ok(short), Ok(divisor)) = (i64::try_from(t), i64::try_from(g)) {
        i128::from(quotient(short, divisor))
    } else {
        t / g
    }
}
