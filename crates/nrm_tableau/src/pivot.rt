//! The rows after a pivot: the pivot row divided by its entry, and that taken away from the others, each in its place.
#![tactic(auto)]

ghost use Rattle.std.specs.Prelude.{◌≡◌, ◌<◌, ◌≤◌, ◌+◌, ◌⊎◌, ◌≢◌, ℕ, pos, [], get_or, length, map, set, All, MatchResult, OnOk, None};
ghost use Rattle.nrm_fraction.specs.Fraction.{◌<ᶠ◌, whole};
ghost use Rattle.nrm_fraction.specs.Large.{first_large, large_number, size_limit};
ghost use Rattle.nrm_fraction.specs.Rows.{at, combine as combined, number_at, unit_row};
ghost use Rattle.nrm_lp.specs.Overflow.{rows_but};
ghost use Rattle.nrm_fraction.specs.Fault.{IsFault};
ghost use Rattle.nrm_tableau.specs.declared.row_set.TheConstants.{MOST_ROWS};
ghost use Rattle.nrm_tableau.specs.RowSets.{IsNoughtBut, row_bit};

use crate::row_set::RowSet;
use nrm_row::{Row, RowFault, Unit};
use std::alloc::Global;

/// The pivot row divided by its entry.
pub(crate) fn pivot_row(alloc: Global, rows: &[Row], row: u16, col: u16) -> Result<Unit, RowFault>
    requires within { row < length rows.now }
    requires before { col < length (get_or rows.now row []) }
    requires positive { whole (pos 0) <ᶠ at (get_or rows.now row []) col }
    ensures row { MatchResult result (λ unit. unit ≡ unit_row col (get_or rows.now row [])) (λ f. IsFault f None) }
    ensures small { large_number size_limit (unit_row col (get_or rows.now row [])) ≡ None }
{
    let unit = rows[usize::from(row)].unit(alloc, col)?;
    Ok(unit)
}

/// Takes the unit row away from each constraint row but the pivot row. `touched` has every row with an entry other than 0 in
/// the column; those that have one are put into `changed`.
pub(crate) fn combine_others(
    alloc: Global,
    rows: &mut [Row],
    row: u16,
    unit: &Unit,
    col: u16,
    touched: &RowSet,
    changed: &mut RowSet,
) -> Result<(), RowFault>
    requires within { row < length rows.old }
    requires most { length rows.old ≤ MOST_ROWS }
    requires before { col < length unit.now }
    requires widths { All (λ other. length other ≡ length unit.now) rows.old }
    requires noughts { IsNoughtBut touched.now (length rows.old) (λ other. at (get_or rows.old other []) col) }
    ensures made { let others = map (combined col unit.now) (rows_but row rows.old) in
        MatchResult result
        (λ _. (rows.new ≡ set (map (combined col unit.now) rows.old) row (get_or rows.old row [])) × (first_large size_limit others ≡ None))
        (λ f. IsFault f (first_large size_limit others)) }
    ensures changed { OnOk result ((r : ℕ) → r < length rows.old → r ≢ row
        → row_bit changed.new r ≡ 0 → at (get_or rows.old r []) col ≡ whole (pos 0)) }
{
    let at = usize::from(row);
    combine_each(alloc, &mut rows[..at], 0, unit, col, touched, changed)?;
    combine_each(
        alloc,
        &mut rows[at + 1..],
        row + 1,
        unit,
        col,
        touched,
        changed,
    )?;
    Ok(())
}

// Takes the unit row away from each of these rows, numbered from `first` on.
fn combine_each(
    alloc: Global,
    rows: &mut [Row],
    first: u16,
    unit: &Unit,
    col: u16,
    touched: &RowSet,
    changed: &mut RowSet,
) -> Result<(), RowFault>
    requires most { first + length rows.old ≤ MOST_ROWS }
    requires before { col < length unit.now }
    requires widths { All (λ row. length row ≡ length unit.now) rows.old }
    requires noughts { (k : ℕ) → k < length rows.old → row_bit touched.now (first + k) ≡ 0 → at (get_or rows.old k []) col ≡ whole (pos 0) }
    ensures made { let made = map (combined col unit.now) rows.old in
        MatchResult result
        (λ _. (rows.new ≡ made) × (first_large size_limit made ≡ None))
        (λ f. IsFault f (first_large size_limit made)) }
    ensures changed { OnOk result ((k : ℕ) → k < length rows.old
        → row_bit changed.new (first + k) ≡ 0 → at (get_or rows.old k []) col ≡ whole (pos 0)) }
    ensures stays { (r : ℕ) → row_bit changed.old r ≡ 1 → row_bit changed.new r ≡ 1 }
{
    none_is_large(rows);
    let end = first + rows.len() as u16;
    let mut walk = touched.upwards(first);
    while let Some(number) = walk.next_before(end) {
        let place = usize::from(number - first);
        combine_row(alloc, &mut rows[place], number, unit, col, changed)?;
    }
    Ok(())
}

// Takes the unit row away from a row, and puts its number into `changed` if it has an entry other than 0 in the column.
fn combine_row(
    alloc: Global,
    row: &mut Row,
    number: u16,
    unit: &Unit,
    col: u16,
    changed: &mut RowSet,
) -> Result<(), RowFault>
    requires number { number < MOST_ROWS }
    requires before { col < length row.old }
    requires width { length unit.now ≡ length row.old }
    ensures made { let made = combined col unit.now row.old in
        MatchResult result
        (λ _. (row.new ≡ made) × (large_number size_limit made ≡ None))
        (λ f. IsFault f (large_number size_limit made)) }
    ensures changed { row_bit changed.new number ≡ 0 → at row.old col ≡ whole (pos 0) }
    ensures stays { (r : ℕ) → row_bit changed.old r ≡ 1 → row_bit changed.new r ≡ 1 }
{
    if row.is_nought(col) {
        row.never_large();
        return Ok(());
    }
    changed.insert(number);
    row.combine(alloc, unit, col)
}

// No row is Large. It does nothing.
fn none_is_large(rows: &[Row])
    ensures { All (λ row. large_number size_limit row ≡ None) rows.now }
{
    for row in rows {
        row.never_large();
    }
}

/// Puts the rows that changed into the set of each column of the unit row.
pub(crate) fn spread(sets: &mut [RowSet], changed: &RowSet, entries: &[(u16, i64)])
    ensures length { length sets.new ≡ length sets.old }
    ensures bits { (c r : ℕ) → c < length sets.old → row_bit (get_or sets.new c []) r ≡ 0
        → (row_bit (get_or sets.old c []) r ≡ 0) × ((row_bit changed.now r ≡ 0) ⊎ (number_at entries.now c ≡ pos 0)) }
{
    for (col, _) in entries {
        let place = usize::from(*col);
        if place < sets.len() {
            sets[place].join(changed);
        }
    }
}
