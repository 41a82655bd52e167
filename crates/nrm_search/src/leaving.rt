//! The row that leaves: of those whose basic column is outside its bounds, the one that is farthest outside in its own direction.
use crate::basis::Basis;
use crate::exact::{minus, times};
use crate::fault::SearchFault;
use crate::row::{Row, square};
use crate::shape::Shape;

/// A row whose basic column is outside its bounds: how far above the bound or, negative, below 0, over the row's denominator.
#[derive(Clone, Copy)]
pub(crate) struct Leaving {
    pub(crate) row: usize,
    pub(crate) off: i64,
    weight: u128,
}

/// The row to be repaired, by the steepest edge: the greatest square of what it is off by over its weight, and of equal ones the first.
/// The denominators of the rows cancel out.
pub(crate) fn leaving_row(shape: &Shape, basis: &Basis) -> Result<Option<Leaving>, SearchFault> {
    let mut best = None;
    for (place, row) in basis.rows.iter().enumerate() {
        let off = off_by(shape, row)?;
        if off != 0 {
            best = steeper(best, place, off, row.weight);
        }
    }
    Ok(best)
}

fn off_by(shape: &Shape, row: &Row) -> Result<i64, SearchFault> {
    if row.value < 0 {
        return Ok(row.value);
    }
    match shape.most(row.column) {
        Some(most) => Ok(minus(row.value, times(row.den, most)?)?.max(0)),
        None => Ok(0),
    }
}

fn steeper(best: Option<Leaving>, row: usize, off: i64, weight: u128) -> Option<Leaving> {
    let next = Leaving { row, off, weight };
    match best {
        Some(best) if !is_steeper(&next, &best) => Some(best),
        _ => Some(next),
    }
}

// Nearly, where the numbers are large.
fn is_steeper(next: &Leaving, best: &Leaving) -> bool {
    let (own, other) = shortened(square(next.off), square(best.off));
    let (own_weight, weight) = shortened(next.weight, best.weight);
    own.saturating_mul(weight) > other.saturating_mul(own_weight)
}

// Both numbers without so many of their last bits that they fit 64.
fn shortened(a: u128, b: u128) -> (u128, u128) {
    let spare = a.leading_zeros().min(b.leading_zeros());
    let last = 64u32.saturating_sub(spare);
    (a >> last, b >> last)
}
