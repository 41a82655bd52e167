//! The chosen division: the fewest pieces of those that cost least, and their lengths, walked through the table.
ghost use Rattle.std.specs.Prelude.{◌≡◌, ◌+◌, ◌-◌, ◌<◌, ◌≤◌, IfOk, ℕ, Option, Some, length};
ghost use Rattle.nrm_cluster.specs.Points.{ArePoints, points};
ghost use Rattle.nrm_cluster.specs.Divisions.{IsChosen, division_cost};
ghost use Rattle.nrm_cluster.specs.Inner.Table.{Costed, best_division, cheaper as cheaper_division, into_pieces};
ghost use Rattle.nrm_cluster.specs.Inner.Cells.{AreColumns, IsColumn, IsPick, columns_in};

use crate::table::{Cell, NONE, columns};
use std::alloc::{AllocError, Global};

/// A number of pieces, and the best division into so many.
#[derive(Clone, Copy, Debug)]
pub(crate) struct Pick {
    pub(crate) pieces: usize,
    pub(crate) cell: Cell,
}

/// A division: its cost and its lengths.
#[derive(Drop)]
pub(crate) struct Division {
    pub(crate) cost: u64,
    pub(crate) lengths: Vec<usize>,
}

// The cheaper of two picks, the first one if they cost the same.
fn cheaper_pick(one: Pick, other: Pick) -> Pick
    ensures pick { (into : ℕ → Option Costed) (o q : Option Costed)
        → IsPick into o one → IsPick into q other → IsPick into (cheaper_division o q) result }
    ensures low { (n : ℕ) → one.pieces ≤ n → other.pieces ≤ n → result.pieces ≤ n }
{
    if other.cell.there && (!one.cell.there || other.cell.cost < one.cell.cost) {
        other
    } else {
        one
    }
}

// The fewest pieces of the cheapest, in the column of all values.
fn best_pick(values: &[u32], weights: &[u32], groups: u8, column: &[Cell]) -> Pick
    requires { IsColumn (points values.now weights.now) groups (length values.now) column.now }
    ensures pick { IsPick (into_pieces (points values.now weights.now)) (best_division (points values.now weights.now) groups) result }
    ensures low { result.pieces ≤ groups }
{
    let mut best = Pick {
        pieces: 0,
        cell: NONE,
    };
    for before in 0..usize::from(groups) {
        let pieces = before + 1;
        let cell = column[pieces];
        best = cheaper_pick(best, Pick { pieces, cell });
    }
    best
}

// The lengths of the best division into so many pieces.
fn lengths_of(
    alloc: Global,
    values: &[u32],
    weights: &[u32],
    groups: u8,
    columns: &[Vec<Cell>],
    pieces: usize,
) -> Result<Vec<usize>, AllocError>
    requires points { ArePoints (points values.now weights.now) }
    requires count { length columns.now ≡ length values.now + 1 }
    requires columns { AreColumns (points values.now weights.now) groups (columns_in columns.now) }
    requires within { pieces ≤ groups }
    requires there { (d : Costed) × (into_pieces (points values.now weights.now) pieces ≡ Some d) }
    ensures { IfOk result
        (λ lengths. (d : Costed) × (into_pieces (points values.now weights.now) pieces ≡ Some d) × (lengths.items ≡ d.lengths)) }
{
    let mut lengths = Vec::new(alloc);
    let mut a = 0;
    for done in 0..pieces {
        let column = &columns[values.len() - a];
        let first = usize::from(column[pieces - done].first);
        lengths.push(first)?;
        a += first;
    }
    Ok(lengths)
}

/// The chosen division into at most so many pieces.
///
/// # Errors
/// Memory runs out.
pub(crate) fn chosen_division(
    alloc: Global,
    values: &[u32],
    weights: &[u32],
    groups: u8,
) -> Result<Division, AllocError>
    requires points { ArePoints (points values.now weights.now) }
    requires some { 0 < length values.now }
    requires groups { 0 < groups }
    ensures chosen { IfOk result (λ d. IsChosen (points values.now weights.now) groups d.lengths.items) }
    ensures cost { IfOk result (λ d. d.cost ≡ division_cost (points values.now weights.now) 0 d.lengths.items) }
{
    let columns = columns(alloc, values, weights, groups)?;
    let pick = best_pick(values, weights, groups, &columns[values.len()]);
    let lengths = lengths_of(alloc, values, weights, groups, &columns, pick.pieces)?;
    Ok(Division {
        cost: pick.cell.cost,
        lengths,
    })
}
