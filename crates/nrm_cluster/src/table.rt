//! The table of best divisions: a column for each number of values that are left, with a cell for each number of pieces. A
//! column is made of those before it, by each first piece that there may be, the shortest first.
ghost use Rattle.std.specs.Prelude.{◌≡◌, ◌==◌, ◌+◌, ◌<◌, ◌≤◌, ◌^◌, All, IfOk, ℕ, false, get_or, length};
ghost use Rattle.nrm_cluster.specs.Points.{ArePoints, points};
ghost use Rattle.nrm_cluster.specs.Inner.Cells.{AreColumns, IsColumn, IsSmall, cheaper_of, columns_in, led_of};

use crate::pieces::Piece;
use std::alloc::{AllocError, Global};

/// The best division of what is left: whether there is one, its cost and its first length.
#[derive(Clone, Copy, Debug)]
pub(crate) struct Cell {
    pub(crate) there: bool,
    pub(crate) cost: u64,
    pub(crate) first: u16,
}

/// The cell of no division.
pub(crate) const NONE: Cell = Cell {
    there: false,
    cost: 0,
    first: 0,
};

// A cell takes what another tells with a first piece of this cost and length put before it, if that is cheaper than its own.
fn improve(cell: &mut Cell, cost: u64, first: u16, rest: &Cell)
    requires cost { cost < 2 ^ 58 }
    requires small { IsSmall rest.now }
    ensures { cell.new ≡ cheaper_of cell.old (led_of cost first rest.now) }
{
    if rest.there {
        let whole = cost + rest.cost;
        if !cell.there || whole < cell.cost {
            cell.there = true;
            cell.cost = whole;
            cell.first = first;
        }
    }
}

// Puts one more first piece, of this cost and length, before each division of the rest, and replaces the cells that it makes
// cheaper.
fn add_first(column: &mut [Cell], cost: u64, first: u16, rest: &[Cell])
    requires cost { cost < 2 ^ 58 }
    requires same { length rest.now ≡ length column.old }
    requires small { All IsSmall rest.now }
    ensures long { length column.new ≡ length column.old }
    ensures none { (d : Cell) → get_or column.new 0 d ≡ get_or column.old 0 d }
    ensures cells { (k : ℕ) (d : Cell) → k + 1 < length column.old
        → get_or column.new (k + 1) d ≡ cheaper_of (get_or column.old (k + 1) d) (led_of cost first (get_or rest.now k d)) }
{
    for k in 1..column.len() {
        improve(&mut column[k], cost, first, &rest[k - 1]);
    }
}

// A column with no division, but for that of nothing into no piece if no value is left.
fn blank(alloc: Global, groups: u8, left: usize) -> Result<Vec<Cell>, AllocError>
    ensures long { IfOk result (λ column. length column.items ≡ groups + 1) }
    ensures first { IfOk result (λ column. (d : Cell) → get_or column.items 0 d ≡ record { there = left == 0; cost = 0; first = 0 }) }
    ensures cells { IfOk result (λ column. (k : ℕ) (d : Cell) → k < groups → (get_or column.items (k + 1) d).there ≡ false) }
{
    let mut column = vec![in alloc; NONE; usize::from(groups) + 1]?;
    column[0].there = left == 0;
    Ok(column)
}

// The column of as many values left as there are columns before it.
fn next_column(
    alloc: Global,
    values: &[u32],
    weights: &[u32],
    groups: u8,
    columns: &[Vec<Cell>],
) -> Result<Vec<Cell>, AllocError>
    requires points { ArePoints (points values.now weights.now) }
    requires left { length columns.now ≤ length values.now }
    requires columns { AreColumns (points values.now weights.now) groups (columns_in columns.now) }
    ensures { IfOk result (λ column. IsColumn (points values.now weights.now) groups (length columns.now) column.items) }
{
    let left = columns.len();
    let mut column = blank(alloc, groups, left)?;
    let mut piece = Piece::at(values.len() - left);
    for before in 0..left {
        let first = before + 1;
        piece = piece.longer(values, weights);
        add_first(
            &mut column,
            piece.cost,
            first as u16,
            &columns[left - first],
        );
    }
    Ok(column)
}

/// The columns if no value is left, one and so on, up to all.
pub(crate) fn columns(
    alloc: Global,
    values: &[u32],
    weights: &[u32],
    groups: u8,
) -> Result<Vec<Vec<Cell>>, AllocError>
    requires points { ArePoints (points values.now weights.now) }
    ensures count { IfOk result (λ columns. length columns.items ≡ length values.now + 1) }
    ensures columns { IfOk result (λ columns. AreColumns (points values.now weights.now) groups (columns_in columns.items)) }
{
    let mut columns = Vec::new(alloc);
    for _ in 0..values.len() + 1 {
        let next = next_column(alloc, values, weights, groups, &columns)?;
        columns.push(next)?;
    }
    Ok(columns)
}
