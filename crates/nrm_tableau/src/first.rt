//! The first tableau of a program: a row for each leg, a row for each product's bound, and the value row, each made of the
//! few entries that aren't 0.
#![tactic(auto)]

ghost use Rattle.std.specs.Prelude.{◌≡◌, ◌<◌, ◌+◌, suc, pos, neg_ℤ, length, map, IfOk};
ghost use Rattle.std.specs.List.{range_with_len};
ghost use Rattle.nrm_lp.specs.Limits.{IsLimited};
ghost use Rattle.nrm_lp.specs.Tableau.{first_entry, first_tableau, first_value, product_count, right_side, row_bound, row_count};
ghost use Rattle.nrm_tableau.specs.Inner.Entries.{IsFilled};
ghost use Rattle.nrm_tableau.specs.RowSets.{Covers, IsNoughtBut};

use crate::columns::{right_side, row_count, slack};
use crate::row_set::RowSet;
use nrm_lp::Program;
use nrm_row::Row;
use std::alloc::{AllocError, Global};

/// The constraint rows: those of the legs, then those of the bounds.
pub(crate) fn first_rows(alloc: Global, program: &Program) -> Result<Vec<Row>, AllocError>
    ensures { IfOk result (λ rows. rows.items ≡ (first_tableau program.now).rows) }
{
    let mut rows = Vec::new(alloc);
    for row in 0..row_count(program) {
        let made = first_row(alloc, program, row)?;
        rows.push(made)?;
    }
    Ok(rows)
}

/// The value row: each fare with its sign turned.
pub(crate) fn first_value(alloc: Global, program: &Program) -> Result<Row, AllocError>
    ensures { IfOk result (λ row. row ≡ (first_tableau program.now).value) }
{
    let entries = turned_fares(alloc, program)?;
    Row::of(alloc, right_side(program) + 1, &entries)
}

/// The basic columns: each row's own slack.
pub(crate) fn first_basis(alloc: Global, program: &Program) -> Result<Vec<u16>, AllocError>
    ensures basis { IfOk result (λ basis. basis.items ≡ (first_tableau program.now).basis) }
    ensures limits { IsLimited program.now }
{
    (program.product_count()..right_side(program)).collect(alloc)
}

/// The rows that have an entry other than 0 in each column before the right side, and maybe others.
pub(crate) fn first_sets(alloc: Global, program: &Program) -> Result<Vec<RowSet>, AllocError>
    ensures { IfOk result (λ sets. Covers (right_side program.now) sets.items (first_tableau program.now).rows) }
{
    let mut sets = Vec::new(alloc);
    for product in 0..program.product_count() {
        sets.push(rows_of(program, product))?;
    }
    for row in 0..row_count(program) {
        sets.push(RowSet::of(row))?;
    }
    Ok(sets)
}

// The rows of a product's legs and of its bound.
fn rows_of(program: &Program, product: u16) -> RowSet
    requires { product < product_count program.now }
    ensures { IsNoughtBut result (row_count program.now) (λ row. first_entry program.now row product) }
{
    let mut rows = RowSet::of(u16::from(program.leg_count()) + product);
    for leg in program.legs_of(product) {
        rows.insert(u16::from(*leg));
    }
    rows
}

fn first_row(alloc: Global, program: &Program, row: u16) -> Result<Row, AllocError>
    requires { row < row_count program.now }
    ensures { IfOk result (λ made. made ≡ map (first_entry program.now row) (range_with_len 0 (suc (right_side program.now)))) }
{
    let legs = u16::from(program.leg_count());
    if row < legs {
        leg_row(alloc, program, row as u8)
    } else {
        bound_row(alloc, program, row - legs)
    }
}

fn leg_row(alloc: Global, program: &Program, leg: u8) -> Result<Row, AllocError>
    requires { leg < length program.now.caps }
    ensures { IfOk result (λ made. made ≡ map (first_entry program.now leg) (range_with_len 0 (suc (right_side program.now)))) }
{
    let entries = products_on(alloc, program, leg)?;
    let cap = program.caps()[usize::from(leg)];
    closed_row(alloc, program, u16::from(leg), entries, cap)
}

fn bound_row(alloc: Global, program: &Program, product: u16) -> Result<Row, AllocError>
    requires { product < product_count program.now }
    ensures { let columns = range_with_len 0 (suc (right_side program.now)) in
        IfOk result (λ made. made ≡ map (first_entry program.now (length program.now.caps + product)) columns) }
{
    let entries = vec![in alloc; (product, 1)]?;
    let bound = program.bounds()[usize::from(product)];
    let row = u16::from(program.leg_count()) + product;
    closed_row(alloc, program, row, entries, bound)
}

// The row with these entries at the products, a 1 at its slack, and its bound on the right side.
fn closed_row(
    alloc: Global,
    program: &Program,
    row: u16,
    mut entries: Vec<(u16, i64)>,
    bound: u32,
) -> Result<Row, AllocError>
    requires row { row < row_count program.now }
    requires bound { bound ≡ row_bound program.now row }
    requires products { IsFilled (product_count program.now) (first_entry program.now row) entries.items }
    ensures { IfOk result (λ made. made ≡ map (first_entry program.now row) (range_with_len 0 (suc (right_side program.now)))) }
{
    let end = right_side(program);
    entries.push((slack(program, row), 1))?;
    entries.push((end, i64::from(bound)))?;
    Row::of(alloc, end + 1, &entries)
}

// A 1 at each product on the leg.
fn products_on(alloc: Global, program: &Program, leg: u8) -> Result<Vec<(u16, i64)>, AllocError>
    requires { leg < length program.now.caps }
    ensures { IfOk result (λ entries. IsFilled (product_count program.now) (first_entry program.now leg) entries.items) }
{
    let mut entries = Vec::new(alloc);
    for product in 0..program.product_count() {
        if program.uses_leg(product, leg) {
            entries.push((product, 1))?;
        }
    }
    Ok(entries)
}

fn turned_fares(alloc: Global, program: &Program) -> Result<Vec<(u16, i64)>, AllocError>
    ensures { IfOk result (λ entries. IsFilled (product_count program.now) (first_value program.now) entries.items) }
{
    let fares = program.fares();
    let mut entries = Vec::new(alloc);
    for product in 0..program.product_count() {
        entries.push((product, turned(fares[usize::from(product)])))?;
    }
    Ok(entries)
}

fn turned(fare: u32) -> i64
    ensures { result ≡ neg_ℤ (pos fare) }
{
    -i64::from(fare)
}
