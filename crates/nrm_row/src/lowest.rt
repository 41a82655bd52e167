//! The numbers of one row, brought to lowest terms: their greatest common divisor, and their division by it.
#![tactic(auto)]

ghost use Rattle.std.specs.Prelude.{◌≡◌, pos, ◌<ℤ◌, unsigned_abs, IfOk};
ghost use Rattle.nrm_fraction.specs.Large.{fractions, gcd_all};
ghost use Rattle.nrm_row.specs.Numbers.{IsRow};
ghost use Rattle.nrm_row.specs.Inner.Crossed.{shrunk};

use crate::numbers::quotient;
use nrm_number::short_gcd;
use std::alloc::{AllocError, Global};

// The greatest common divisor of a denominator and all the numbers.
pub(crate) fn divisor(den: i64, nums: &[i64]) -> i64
    requires { IsRow den nums.now }
    ensures value { result ≡ pos (gcd_all (unsigned_abs den) nums.now) }
    ensures positive { pos 0 <ℤ result }
{
    let mut common = den.unsigned_abs();
    let mut i = nums.len();
    while i > 0 && common != 1 {
        i -= 1;
        if nums[i] != 0 {
            common = short_gcd(nums[i].unsigned_abs(), common);
        }
    }
    common as i64
}

// Divides each number in its place.
fn divide_in_place(nums: &mut [i64], g: i64)
    requires { pos 0 <ℤ g }
    ensures { nums.new ≡ shrunk (unsigned_abs g) nums.old }
{
    if g != 1 {
        for number in nums.iter_mut() {
            *number = quotient(*number, g);
        }
    }
}

// The numbers, each divided by g.
fn divided(alloc: Global, nums: &[i64], g: i64) -> Result<Vec<i64>, AllocError>
    requires { pos 0 <ℤ g }
    ensures { IfOk result (λ made. made.items ≡ shrunk (unsigned_abs g) nums.now) }
{
    let mut made = Vec::from_slice(alloc, nums)?;
    divide_in_place(&mut made, g);
    Ok(made)
}

// A denominator and the numbers over it, each divided by what all have in common.
pub(crate) fn lowest(alloc: Global, den: i64, nums: &[i64]) -> Result<(i64, Vec<i64>), AllocError>
    requires { IsRow den nums.now }
    ensures row { IfOk result (λ made. IsRow made.0 made.1.items) }
    ensures same { IfOk result (λ made. fractions (unsigned_abs made.0) made.1.items ≡ fractions (unsigned_abs den) nums.now) }
{
    let common = divisor(den, nums);
    let made = divided(alloc, nums, common)?;
    Ok((quotient(den, common), made))
}
