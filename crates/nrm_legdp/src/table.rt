//! The table of a leg's values: a row for each number of classes, from none to all. It is filled by the rule of protections alone:
//! each class is sold what is left above the protection of the classes before it.
ghost use Rattle.std.specs.Prelude.{◌≡◌, ◌+◌, ◌-◌, ◌*◌, ◌^◌, ◌<◌, ◌≤◌, [], All, IfOk, get_or, length, map, min, slice_index};
ghost use Rattle.std.specs.List.{range_with_len};
ghost use Rattle.nrm_model.specs.declared.limits.TheConstants.{MOST_HISTORIES, MOST_SEATS};
ghost use Rattle.nrm_legdp.specs.Policies.{last_passing, worth_more};
ghost use Rattle.nrm_legdp.specs.Inner.Filling.{worth_above};
ghost use Rattle.nrm_legdp.specs.Table.{AreClasses, demand_of, values_of};

use std::alloc::{AllocError, Global};
use std::marker::Model;

// The last number of seats at which one seat more is worth more than the pay.
fn threshold(pay: u128, row: &[u128]) -> usize
    requires some { 0 < length row.now }
    requires pay { pay < 2 ^ 80 }
    requires worth { All (λ w. w < 2 ^ 87) row.now }
    ensures { result ≡ last_passing (worth_more pay (slice_index row.now)) (length row.now - 1) }
{
    let mut last = 0;
    for y in 1..row.len() {
        if pay + row[y - 1] < row[y] {
            last = y;
        }
    }
    last
}

// What `x` seats come to if a demand is sold what is left above `y`.
fn one_sale(pay: u128, row: &[u128], y: usize, x: usize, demand: u16) -> u128
    requires pay { pay < 2 ^ 80 }
    requires worth { All (λ w. w < 2 ^ 87) row.now }
    requires within { x < length row.now }
    ensures value { result ≡ pay * min demand (x - y) + slice_index row.now (x - min demand (x - y)) }
    ensures small { result < 2 ^ 97 }
{
    let sold = usize::from(demand).min(x.saturating_sub(y));
    pay * (sold as u128) + row[x - sold]
}

// The value over all histories of selling what is left above `y`.
fn all_sales(pay: u128, row: &[u128], y: usize, x: usize, demands: &[u16]) -> u128
    requires pay { pay < 2 ^ 80 }
    requires worth { All (λ w. w < 2 ^ 87) row.now }
    requires within { x < length row.now }
    requires few { length demands.now ≤ MOST_HISTORIES }
    ensures { result ≡ worth_above pay (slice_index row.now) y demands.now x }
{
    let mut total: u128 = 0;
    for demand in demands {
        total += one_sale(pay, row, y, x, *demand);
    }
    total
}

// The row of one class more.
fn row_above(
    alloc: Global,
    pay: u128,
    row: &[u128],
    y: usize,
    demands: &[u16],
) -> Result<Vec<u128>, AllocError>
    requires pay { pay < 2 ^ 80 }
    requires worth { All (λ w. w < 2 ^ 87) row.now }
    requires few { length demands.now ≤ MOST_HISTORIES }
    ensures { IfOk result (λ next. next.items
        ≡ map (worth_above pay (slice_index row.now) y demands.now) (range_with_len 0 (length row.now))) }
{
    let mut next = Vec::new(alloc);
    for x in 0..row.len() {
        next.push(all_sales(pay, row, y, x, demands))?;
    }
    Ok(next)
}

/// The values of a leg's authorised seats, and the protections of its classes. Contracts see lists.
#[derive(Drop)]
pub struct LegTable {
    rows: Vec<Vec<u128>>,
    protections: Vec<u16>,
}

impl Model for LegTable {
    ghost use Rattle.std.specs.Prelude.{ℕ, Vec, map};
    ghost use Rattle.std.specs.declared.alloc.Global.{Global};
    ghost use Rattle.nrm_legdp.specs.Table.{LegTableValue};

    ghost Value = { LegTableValue };

    ghost view = { λ t. record { rows = map (λ (row : Vec ℕ Global). row.items) t.rows.items; protections = t.protections.items } };
}

/// The table of these classes, up to so many authorised seats, by the static model of a single leg (chapter 2 of Talluri and van
/// Ryzin). `fares` are those of the classes, the highest first; `demands` has for each class the seats that were asked for in each of
/// `n` histories.
///
/// # Errors
/// Memory runs out.
pub fn leg_values(
    alloc: Global,
    fares: &[u32],
    demands: &[u16],
    n: u8,
    seats: u16,
) -> Result<LegTable, AllocError>
    requires classes { AreClasses (demand_of n fares.now demands.now) }
    requires seats { seats ≤ MOST_SEATS }
    ensures values { IfOk result (λ table. table ≡ values_of (demand_of n fares.now demands.now) seats) }
    ensures small { IfOk result (λ table. All (All (λ value. value < 2 ^ 87)) table.rows) }
{
    let histories = usize::from(n);
    let first = vec![in alloc; 0u128; usize::from(seats) + 1]?;
    let mut rows = Vec::new(alloc);
    rows.push(first)?;
    let mut protections = Vec::new(alloc);
    let mut scale: u128 = 1;
    for (j, fare) in fares.iter().enumerate() {
        let pay = scale * u128::from(*fare);
        let coming = &demands[j * histories..(j + 1) * histories];
        let y = threshold(pay, &rows[j]);
        let next = row_above(alloc, pay, &rows[j], y, coming)?;
        rows.push(next)?;
        protections.push(y as u16)?;
        scale *= u128::from(n);
    }
    Ok(LegTable { rows, protections })
}

impl LegTable {
    /// The value of x seats for the first j classes: what they earn in all combinations of their histories together, in whole
    /// currency units. Over the number of histories to the power j it is the mean.
    pub fn value(&self, j: u8, x: u16) -> u128
        requires class { j < length self.now.rows }
        requires seat { x < length (get_or self.now.rows j []) }
        ensures { result ≡ slice_index (get_or self.now.rows j []) x }
    {
        self.rows[usize::from(j)][usize::from(x)]
    }

    /// The protection of the first j classes: the seats that are protected for them from the class behind.
    pub fn protection(&self, j: u8) -> u16
        requires { j < length self.now.protections }
        ensures { result ≡ slice_index self.now.protections j }
    {
        self.protections[usize::from(j)]
    }
}
