//! The lexicographic rule: which column enters, and which row leaves.
#![tactic(auto)]

ghost use Rattle.std.specs.Prelude.{◌≡◌, ◌<◌, ◌≤◌, ◌+◌, ◌^◌, ℕ, suc, pos, [], get_or, length, drop, false, All, IsTrue, if◌then◌else◌};
ghost use Rattle.std.specs.Option.{option_map};
ghost use Rattle.nrm_fraction.specs.Fraction.{◌<ᶠ◌, less, whole};
ghost use Rattle.nrm_fraction.specs.Rows.{at, ratios};
ghost use Rattle.nrm_lp.specs.Tableau.{better, entering_from, key_columns, leaving_from, right_side, row_count};
ghost use Rattle.nrm_tableau.specs.Inner.Best.{IsCandidate, listed, wins_over};
ghost use Rattle.nrm_tableau.specs.RowSets.{IsNoughtBut};

use crate::columns::row_count;
use crate::row_set::RowSet;
use nrm_lp::Program;
use nrm_row::Row;

/// The lowest-numbered column before the right side with a negative entry in the value row.
pub(crate) fn entering_column(value: &Row) -> Option<u16>
    ensures { result ≡ entering_from 0 value.now }
{
    let end = value.width() - 1;
    for col in past_columns(value, end)..end {
        if value.is_negative(col) {
            return Some(col);
        }
    }
    None
}

// A column up to which no entry is negative: four columns at a time are passed over.
fn past_columns(value: &Row, end: u16) -> u16
    requires { end < length value.now }
    ensures within { result ≤ end }
    ensures rest { entering_from result (drop result value.now) ≡ entering_from 0 value.now }
{
    let mut col = 0;
    while end - col >= 4 && none_is_negative(value, col) {
        col += 4;
    }
    col
}

// Whether none of the four entries from a column on is negative. No branch depends on one of them.
fn none_is_negative(value: &Row, col: u16) -> bool
    requires few { col + 4 < 2 ^ 16 }
    requires within { col + 4 ≤ length value.now }
    ensures { IsTrue result → (k : ℕ) → col ≤ k → k < col + 4 → less (at value.now k) (whole (pos 0)) ≡ false }
{
    !(value.is_negative(col)
        | value.is_negative(col + 1)
        | value.is_negative(col + 2)
        | value.is_negative(col + 3))
}

/// The row that leaves for the column, if some row has a positive entry in it; `touched` has the rows to be looked at. The walk
/// begins at the last row.
pub(crate) fn leaving_row(
    program: &Program,
    rows: &[Row],
    col: u16,
    touched: &RowSet,
) -> Option<u16>
    requires before { col < right_side program.now }
    requires count { length rows.now ≡ row_count program.now }
    requires widths { All (λ row. length row ≡ suc (right_side program.now)) rows.now }
    requires noughts { IsNoughtBut touched.now (length rows.now) (λ row. at (get_or rows.now row []) col) }
    ensures { result ≡ option_map (λ found. found.0) (leaving_from (key_columns program.now) col 0 rows.now) }
{
    let mut best = None;
    let mut walk = touched.downwards(row_count(program));
    while let Some(row) = walk.next() {
        best = better_row(program, rows, row, best, col);
    }
    best
}

// Of a row and the best row behind it, the one that leaves rather.
fn better_row(program: &Program, rows: &[Row], row: u16, best: Option<u16>, col: u16) -> Option<u16>
    requires before { col < right_side program.now }
    requires widths { All (λ row. length row ≡ suc (right_side program.now)) rows.now }
    requires within { row < length rows.now }
    requires candidate { IsCandidate rows.now col best }
    ensures candidate { IsCandidate rows.now col result }
    ensures better { let found = listed program.now rows.now col best in
        let list = ratios (key_columns program.now) col (get_or rows.now row []) in
        listed program.now rows.now col result
        ≡ (if less (whole (pos 0)) (at (get_or rows.now row []) col) then better row list found else found) }
{
    if rows[usize::from(row)].is_positive(col) && wins(program, rows, row, best, col) {
        Some(row)
    } else {
        best
    }
}

// Whether the row's list, divided by its entry, is less than that of the best row so far.
fn wins(program: &Program, rows: &[Row], row: u16, best: Option<u16>, col: u16) -> bool
    requires before { col < right_side program.now }
    requires widths { All (λ row. length row ≡ suc (right_side program.now)) rows.now }
    requires within { row < length rows.now }
    requires positive { whole (pos 0) <ᶠ at (get_or rows.now row []) col }
    requires candidate { IsCandidate rows.now col best }
    ensures { result ≡ wins_over program.now rows.now col row best }
{
    match best {
        None => true,
        Some(other) => {
            let own = &rows[usize::from(row)];
            own.less_ratio(&rows[usize::from(other)], col, program.product_count())
        }
    }
}
