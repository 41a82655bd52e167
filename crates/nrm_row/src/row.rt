//! A row of fractions: whole numbers over one denominator, and a bound on their sizes. A unit row has its columns listed besides.
#![tactic(auto)]

ghost use Rattle.nrm_row.specs.declared.limits.TheConstants.{MOST_COLUMNS};
ghost use Rattle.std.specs.Prelude.{◌≡◌, ◌↔◌, IsTrue, ◌+◌, ◌<◌, ◌≤◌, ℕ, ℤ, pos};
ghost use Rattle.std.specs.Prelude.{unsigned_abs, length, map, take, drop, All, IfOk, OnErr, MatchResult, None, List, get_or};
ghost use Rattle.std.specs.Int.{IsInRange};
ghost use Rattle.std.specs.List.{range_with_len};
ghost use Rattle.nrm_fraction.specs.Fraction.{Fraction, ◌<ᶠ◌, less, whole};
ghost use Rattle.nrm_fraction.specs.Large.{fractions, common, numerators, large_number, size_limit, IsSmall};
ghost use Rattle.nrm_fraction.specs.Lex.{lex_below};
ghost use Rattle.nrm_fraction.specs.Rows.{at, number_at, row_of, unit_row, combine as combined, ratio_columns, ratios};
ghost use Rattle.nrm_row.specs.Numbers.{AreEntries, IsRow, IsBoundedRow, IsUnit};
ghost use Rattle.nrm_fraction.specs.Fault.{IsFault};

use crate::crossed::crossed_row;
use crate::in_place::{cross_in_place, greatest, greatest_listed, listed};
use crate::lowest::{divisor, lowest};
use crate::numbers::{bounds, number, quotient, reduced};
use crate::ratios::ratios_below;
use nrm_fraction::RowFault;
use std::alloc::{AllocError, Global};
use std::marker::Model;

// The numbers at these columns, and 0 elsewhere.
fn filled(alloc: Global, width: u16, entries: &[(u16, i64)]) -> Result<Vec<i64>, AllocError>
    requires { AreEntries width entries.now }
    ensures { IfOk result (λ made. made.items ≡ map (λ c. number_at entries.now c) (range_with_len 0 width)) }
{
    let mut made = vec![in alloc; 0i64; usize::from(width)]?;
    for (col, number) in entries {
        made[usize::from(*col)] = *number;
    }
    Ok(made)
}

// The row of the numbers over a denominator.
fn row_over(den: i64, nums: Vec<i64>) -> Row
    requires { IsRow den nums.items }
    ensures { result ≡ fractions (unsigned_abs den) nums.items }
{
    Row {
        den,
        most: greatest(&nums),
        nums,
    }
}

// The unit row of the numbers over one of them.
fn unit_of(alloc: Global, den: i64, nums: &[i64]) -> Result<Unit, AllocError>
    requires { IsRow den nums.now }
    ensures { IfOk result (λ unit. unit ≡ fractions (unsigned_abs den) nums.now) }
{
    let (den, nums) = lowest(alloc, den, nums)?;
    let entries = listed(alloc, &nums)?;
    Ok(Unit {
        den,
        most: greatest_listed(&entries),
        nums,
        entries,
    })
}

/// A row divided by its entry at a column, with the columns whose number isn't 0 listed.
#[derive(Drop)]
pub struct Unit {
    den: i64,
    most: u64,
    nums: Vec<i64>,
    entries: Vec<(u16, i64)>,
}

impl Model for Unit {
    ghost Value = { List Fraction };

    ghost view = { λ u. fractions (unsigned_abs u.den) u.nums.items };

    ghost invariant = { λ u. IsUnit u.den u.most u.nums.items u.entries.items };
}

impl Unit {
    /// The columns whose number isn't 0, rising, with their numbers.
    pub fn entries(&self) -> &[(u16, i64)]
        ensures within { All (λ (e : ℕ × ℤ). e.0 < length self.now) result.now }
        ensures noughts { (c : ℕ) → number_at result.now c ≡ pos 0 → at self.now c ≡ whole (pos 0) }
    {
        self.entries.as_slice()
    }

    /// The row, without the list.
    pub fn into_row(self) -> Row
        ensures { result ≡ self }
    {
        Row {
            den: self.den,
            most: self.most,
            nums: self.nums,
        }
    }
}

/// A row of fractions: whole numbers over one denominator, not always in lowest terms, and a bound on their sizes.
#[derive(Drop)]
pub struct Row {
    den: i64,
    most: u64,
    nums: Vec<i64>,
}

impl Model for Row {
    ghost Value = { List Fraction };

    ghost view = { λ r. fractions (unsigned_abs r.den) r.nums.items };

    ghost invariant = { λ r. IsBoundedRow r.den r.most r.nums.items };
}

impl Row {
    /// The row of this width with whole numbers at these columns, and 0 elsewhere.
    pub fn of(alloc: Global, width: u16, entries: &[(u16, i64)]) -> Result<Row, AllocError>
        requires width { IsInRange 1 MOST_COLUMNS width }
        requires entries { AreEntries width entries.now }
        ensures { IfOk result (λ row. row ≡ row_of width entries.now) }
    {
        let nums = filled(alloc, width, entries)?;
        Ok(Row {
            den: 1,
            most: greatest_listed(entries),
            nums,
        })
    }

    /// A row is never Large. It does nothing.
    pub fn never_large(&self)
        ensures { large_number size_limit self.now ≡ None }
    {
        // For the row's invariant alone.
        let _ = &self.den;
    }

    /// The least common denominator.
    pub fn den(&self) -> i64
        ensures den { result ≡ pos (common self.now) }
        ensures small { IsSmall result }
    {
        quotient(self.den, divisor(self.den, &self.nums))
    }

    /// The number at a column, over the least common denominator.
    pub fn num(&self, col: u16) -> i64
        requires { col < length self.now }
        ensures num { result ≡ get_or (numerators (common self.now) self.now) col (pos 0) }
        ensures small { IsSmall result }
    {
        quotient(number(&self.nums, col), divisor(self.den, &self.nums))
    }

    /// How many columns the row has, the right side counted: 1 to `MOST_COLUMNS`.
    pub fn width(&self) -> u16
        ensures width { result ≡ length self.now }
        ensures within { IsInRange 1 MOST_COLUMNS result }
    {
        self.nums.len() as u16
    }

    /// Whether the entry at a column is negative.
    pub fn is_negative(&self, col: u16) -> bool
        requires { col < length self.now }
        ensures { result ≡ less (at self.now col) (whole (pos 0)) }
    {
        number(&self.nums, col) < 0
    }

    /// Whether the entry at a column is positive.
    pub fn is_positive(&self, col: u16) -> bool
        requires { col < length self.now }
        ensures { result ≡ less (whole (pos 0)) (at self.now col) }
    {
        number(&self.nums, col) > 0
    }

    /// Whether the entry at a column is 0.
    pub fn is_nought(&self, col: u16) -> bool
        requires { col < length self.now }
        ensures { IsTrue result ↔ (at self.now col ≡ whole (pos 0)) }
    {
        number(&self.nums, col) == 0
    }

    /// This row divided by its entry at `col`. It is never Large.
    pub fn unit(&self, alloc: Global, col: u16) -> Result<Unit, AllocError>
        requires within { col < length self.now }
        requires positive { whole (pos 0) <ᶠ at self.now col }
        ensures row { IfOk result (λ row. row ≡ unit_row col self.now) }
        ensures small { large_number size_limit (unit_row col self.now) ≡ None }
    {
        unit_of(alloc, number(&self.nums, col), &self.nums)
    }

    /// The columns from `from` on, so many of them, as a row over their own least common denominator. It is never Large.
    pub fn part(&self, alloc: Global, from: u16, width: u16) -> Result<Row, AllocError>
        requires width { 1 ≤ width }
        requires within { from + width ≤ length self.now }
        ensures { IfOk result (λ row. row ≡ take width (drop from self.now)) }
    {
        let start = usize::from(from);
        let end = start + usize::from(width);
        let (den, nums) = lowest(alloc, self.den, &self.nums[start..end])?;
        Ok(row_over(den, nums))
    }

    /// Whether this row's list (the last column, then the columns from `from` to the one before it), divided by its
    /// entry at `col`, is lexicographically less than the other's.
    pub fn less_ratio(&self, other: &Row, col: u16, from: u16) -> bool
        requires widths { length other.now ≡ length self.now }
        requires within { col < length self.now }
        requires from_within { from < length self.now }
        requires positive { whole (pos 0) <ᶠ at self.now col }
        requires other_positive { whole (pos 0) <ᶠ at other.now col }
        ensures { let columns = ratio_columns from (length self.now) in
            result ≡ lex_below (ratios columns col self.now) (ratios columns col other.now) }
    {
        ratios_below(&self.nums, &other.nums, usize::from(col), usize::from(from))
    }

    /// Takes this row's entry at `col` times `unit` away. After an error the row is as it was.
    pub fn combine(&mut self, alloc: Global, unit: &Unit, col: u16) -> Result<(), RowFault>
        requires widths { length unit.now ≡ length self.old }
        requires within { col < length self.old }
        ensures row { let exact = combined col unit.now self.old in
            MatchResult result
            (λ _. (self.new ≡ exact) × (large_number size_limit exact ≡ None))
            (λ f. IsFault f (large_number size_limit exact)) }
        ensures unchanged { OnErr result (self.new ≡ self.old) }
    {
        // For the unit row's invariant alone.
        let _ = &unit.den;
        let entry = number(&self.nums, col);
        if entry == 0 {
            return Ok(());
        }
        let (a, e) = reduced(entry, unit.den);
        match bounds(self.den, self.most, a, e, unit.most) {
            Some((den, most)) => {
                cross_in_place(&mut self.nums, self.most, a, e, &unit.entries, unit.most);
                self.den = den;
                self.most = most;
            }
            None => {
                let (den, nums) = crossed_row(alloc, self.den, &self.nums, a, e, &unit.nums)?;
                *self = row_over(den, nums);
            }
        }
        Ok(())
    }
}
