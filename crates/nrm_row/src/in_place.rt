//! The numbers x e - a u of a row, each in its place: all are multiplied by e, and at the columns where u isn't 0 something is
//! taken away. A bound on the sizes shows beforehand that all stay below the limit.
#![tactic(auto)]

ghost use Rattle.nrm_row.specs.declared.limits.TheConstants.{MOST_COLUMNS};
ghost use Rattle.std.specs.Prelude.{◌≡◌, ◌≢◌, ◌<◌, ◌≤◌, ◌+◌, ◌*◌, ℕ, ℤ, pos, ◌-ℤ◌, ◌*ℤ◌, unsigned_abs, length, map, get_or, All, AllPairs, IfOk, IsTrue};
ghost use Rattle.nrm_fraction.specs.Large.{size_limit, IsSmall};
ghost use Rattle.nrm_fraction.specs.Rows.{number_at};
ghost use Rattle.nrm_row.specs.Numbers.{AreNoughts, IsBounded, Lists};

use std::alloc::{AllocError, Global};

// The larger of two sizes.
fn larger(a: u64, b: u64) -> u64
    ensures first { a ≤ result }
    ensures second { b ≤ result }
    ensures least { (bound : ℕ) → a < bound → b < bound → result < bound }
{
    if a < b { b } else { a }
}

// The greatest of the numbers in size.
pub(crate) fn greatest(nums: &[i64]) -> u64
    requires { All IsSmall nums.now }
    ensures bound { IsBounded result nums.now }
    ensures small { result < size_limit }
{
    let mut most = 0;
    for number in nums {
        most = larger(most, number.unsigned_abs());
    }
    most
}

// The greatest in size of the numbers that are listed.
pub(crate) fn greatest_listed(entries: &[(u16, i64)]) -> u64
    requires { All (λ (e : ℕ × ℤ). IsSmall e.1) entries.now }
    ensures bound { (c : ℕ) → unsigned_abs (number_at entries.now c) ≤ result }
    ensures small { result < size_limit }
{
    let mut most = 0;
    for (_, number) in entries {
        most = larger(most, number.unsigned_abs());
    }
    most
}

// Whether the four numbers from a place on are 0. No branch depends on one of them.
fn are_noughts(nums: &[i64], from: usize) -> bool
    requires { from + 4 ≤ length nums.now }
    ensures { IsTrue result → AreNoughts nums.now from (from + 4) }
{
    (nums[from] == 0) & (nums[from + 1] == 0) & (nums[from + 2] == 0) & (nums[from + 3] == 0)
}

// A place up to which, from a place on, all numbers are 0: four at a time are passed over.
fn past_noughts(nums: &[i64], from: usize) -> usize
    requires { from ≤ length nums.now }
    ensures { AreNoughts nums.now from result }
{
    let mut place = from;
    while nums.len() - place >= 4 && are_noughts(nums, place) {
        place += 4;
    }
    place
}

// The first place from a place on whose number isn't 0, or the end.
fn next_number(nums: &[i64], from: usize) -> usize
    requires { from ≤ length nums.now }
    ensures noughts { AreNoughts nums.now from result }
    ensures number { result < length nums.now → get_or nums.now result (pos 0) ≢ pos 0 }
{
    let mut place = past_noughts(nums, from);
    while place < nums.len() && nums[place] == 0 {
        place += 1;
    }
    place
}

// The columns whose number isn't 0, with their numbers.
pub(crate) fn listed(alloc: Global, nums: &[i64]) -> Result<Vec<(u16, i64)>, AllocError>
    requires { length nums.now ≤ MOST_COLUMNS }
    ensures { IfOk result (λ made. Lists nums.now made.items) }
{
    let mut made = Vec::with_capacity(alloc, nums.len())?;
    let mut col = next_number(nums, 0);
    while col < nums.len() {
        made.push((col as u16, nums[col]))?;
        col = next_number(nums, col + 1);
    }
    Ok(made)
}

// Multiplies each number in its place.
fn multiply(xs: &mut [i64], most: u64, e: i64)
    requires bounded { IsBounded most xs.old }
    requires room { most * unsigned_abs e < size_limit }
    ensures { xs.new ≡ map (λ x. x *ℤ e) xs.old }
{
    if e != 1 {
        for x in xs.iter_mut() {
            *x *= e;
        }
    }
}

// Takes a times u away at each of the columns.
fn subtract(xs: &mut [i64], most: u64, a: i64, us: &[(u16, i64)], size: u64)
    requires rising { AllPairs (λ (s t : ℕ × ℤ). s.0 < t.0) us.now }
    requires within { All (λ (s : ℕ × ℤ). s.0 < length xs.old) us.now }
    requires bounded { IsBounded most xs.old }
    requires sizes { All (λ (s : ℕ × ℤ). unsigned_abs s.1 ≤ size) us.now }
    requires room { most + unsigned_abs a * size < size_limit }
    ensures length { length xs.new ≡ length xs.old }
    ensures numbers { (c : ℕ) → c < length xs.old → get_or xs.new c (pos 0) ≡ get_or xs.old c (pos 0) -ℤ a *ℤ number_at us.now c }
{
    for (col, u) in us {
        let place = usize::from(*col);
        let taken = a * *u;
        xs[place] -= taken;
    }
}

// Makes the numbers x e - a u.
pub(crate) fn cross_in_place(
    xs: &mut [i64],
    most: u64,
    a: i64,
    e: i64,
    us: &[(u16, i64)],
    size: u64,
)
    requires rising { AllPairs (λ (s t : ℕ × ℤ). s.0 < t.0) us.now }
    requires within { All (λ (s : ℕ × ℤ). s.0 < length xs.old) us.now }
    requires bounded { IsBounded most xs.old }
    requires sizes { All (λ (s : ℕ × ℤ). unsigned_abs s.1 ≤ size) us.now }
    requires room { most * unsigned_abs e + unsigned_abs a * size < size_limit }
    ensures length { length xs.new ≡ length xs.old }
    ensures numbers { (c : ℕ) → c < length xs.old → get_or xs.new c (pos 0) ≡ get_or xs.old c (pos 0) *ℤ e -ℤ a *ℤ number_at us.now c }
{
    multiply(xs, most, e);
    subtract(xs, most * e.unsigned_abs(), a, us, size);
}
