//! What a last tableau shows: what is allotted to each product, the bid price of each leg, and the value.
#![tactic(auto)]

ghost use Rattle.std.specs.Prelude.{◌≡◌, ◌<◌, ◌≤◌, ◌/◌, suc, pos, false, nat_abs, get_or, length, map, All, IfOk, MatchResult, None};
ghost use Rattle.std.specs.List.{range_with_len};
ghost use Rattle.nrm_fraction.specs.Fraction.{less, whole};
ghost use Rattle.nrm_fraction.specs.Large.{common, numerators, size_limit, first_too_large};
ghost use Rattle.nrm_fraction.specs.Rows.{at};
ghost use Rattle.nrm_lp.specs.Closing.{basic_value};
ghost use Rattle.nrm_lp.specs.Tableau.{product_count, right_side, slack};
ghost use Rattle.nrm_fraction.specs.Fault.{IsFault};

use crate::columns::right_side;
use nrm_fraction::{Fraction, over_common};
use nrm_lp::Program;
use nrm_row::{Row, RowFault};
use std::alloc::{AllocError, Global};

/// What is allotted to each product: the least common denominator, and the numerators over it.
pub(crate) fn allotted(
    alloc: Global,
    program: &Program,
    rows: &[Row],
    basis: &[u16],
) -> Result<(i64, Vec<i64>), RowFault>
    requires count { length basis.now ≡ length rows.now }
    requires widths { All (λ row. length row ≡ suc (right_side program.now)) rows.now }
    requires signs { All (λ row. less (at row (right_side program.now)) (whole (pos 0)) ≡ false) rows.now }
    ensures { let products = range_with_len 0 (product_count program.now) in
        let values = map (λ j. basic_value (right_side program.now) j basis.now rows.now) products in
        MatchResult result
        (λ made. (made.0 ≡ pos (common values)) × (made.1.items ≡ numerators (common values) values)
        × (first_too_large size_limit values ≡ None))
        (λ f. IsFault f (first_too_large size_limit values)) }
{
    let values = product_values(alloc, program, rows, basis)?;
    over_common(alloc, &values)
}

fn product_values(
    alloc: Global,
    program: &Program,
    rows: &[Row],
    basis: &[u16],
) -> Result<Vec<Fraction>, AllocError>
    requires count { length basis.now ≡ length rows.now }
    requires widths { All (λ row. length row ≡ suc (right_side program.now)) rows.now }
    requires signs { All (λ row. less (at row (right_side program.now)) (whole (pos 0)) ≡ false) rows.now }
    ensures { let products = range_with_len 0 (product_count program.now) in
        IfOk result (λ values. values.items ≡ map (λ j. basic_value (right_side program.now) j basis.now rows.now) products) }
{
    let end = right_side(program);
    let mut values = Vec::new(alloc);
    for product in 0..program.product_count() {
        values.push(value_of(rows, basis, product, end))?;
    }
    Ok(values)
}

// The right side of the row in which the product is basic, and 0 where there is none.
fn value_of(rows: &[Row], basis: &[u16], product: u16, end: u16) -> Fraction
    requires count { length basis.now ≡ length rows.now }
    requires widths { All (λ row. length row ≡ suc end) rows.now }
    requires signs { All (λ row. less (at row end) (whole (pos 0)) ≡ false) rows.now }
    ensures { result ≡ basic_value end product basis.now rows.now }
{
    for row in 0..rows.len() {
        if basis[row] == product {
            return entry(&rows[row], end);
        }
    }
    Fraction::new(0, 1)
}

// The entry at a column where it isn't negative.
fn entry(row: &Row, col: u16) -> Fraction
    requires within { col < length row.now }
    requires sign { less (at row.now col) (whole (pos 0)) ≡ false }
    ensures { result ≡ at row.now col }
{
    let num = row.num(col).unsigned_abs();
    Fraction::new(u128::from(num), row.den().unsigned_abs())
}

/// The bid price of each leg: the value row at the leg's slack.
pub(crate) fn leg_prices(alloc: Global, program: &Program, value: &Row) -> Result<Row, AllocError>
    requires { length value.now ≡ suc (right_side program.now) }
    ensures { IfOk result (λ prices. prices ≡ map (λ i. at value.now (slack program.now i)) (range_with_len 0 (length program.now.caps))) }
{
    let legs = u16::from(program.leg_count());
    value.part(alloc, program.product_count(), legs)
}

/// The numbers of a row over its least common denominator, in order.
pub(crate) fn numbers(alloc: Global, row: &Row) -> Result<Vec<i64>, AllocError>
    ensures { IfOk result (λ made. made.items ≡ numerators (common row.now) row.now) }
{
    let mut made = Vec::new(alloc);
    for col in 0..row.width() {
        made.push(row.num(col))?;
    }
    Ok(made)
}

/// The value row's right side over the denominator of the prices, which divides the value row's.
pub(crate) fn value_over(value: &Row, prices: &Row, end: u16) -> i64
    requires within { end < length value.now }
    requires denominators { common prices.now ≤ common value.now }
    ensures { let number = get_or (numerators (common value.now) value.now) end (pos 0) in
        result ≡ pos (nat_abs number / (common value.now / common prices.now)) }
{
    let times = value.den().unsigned_abs() / prices.den().unsigned_abs();
    (value.num(end).unsigned_abs() / times) as i64
}
