//! The pivot: the leaving row is divided by its entry at the entering column, and taken off all others and the prices.
use crate::basis::Basis;
use crate::column::{Column, Standing};
use crate::exact::{minus, plus, times};
use crate::fault::SearchFault;
use crate::leaving::Leaving;
use crate::room::Room;
use crate::row::Row;
use crate::shape::Shape;
use std::alloc::Global;
use std::mem;

/// The entering column takes the place of the one that is basic in the leaving row.
pub(crate) fn pivot(
    alloc: Global,
    shape: &Shape,
    basis: &mut Basis,
    room: &mut Room,
    leaving: &Leaving,
    entering: Column,
) -> Result<(), SearchFault> {
    let cost = basis.prices.reduced_cost(shape, entering)?;
    let stood = stands_at(shape, basis, entering);
    let is_above = 0 < leaving.off;
    mark(shape, entering, &mut room.marked, true);
    let mut unit = take_row(alloc, basis, leaving.row);
    let left = unit.column;
    divide(shape, &mut unit, is_above, &room.marked)?;
    combine_others(basis, room, &unit)?;
    mark(shape, entering, &mut room.marked, false);
    basis.prices.add(cost, &unit)?;
    unit.value = plus(unit.value, times(unit.den, stood)?)?;
    unit.column = entering;
    put_row(basis, leaving.row, unit);
    basis.leave(left, is_above);
    basis.enter(entering);
    Ok(())
}

// What a column is outside the basis.
fn stands_at(shape: &Shape, basis: &Basis, column: Column) -> i64 {
    match column {
        Column::Product(product) => {
            if basis.standing(product) == Standing::Whole {
                shape.bound(product)
            } else {
                0
            }
        }
        Column::Slack(_) => 0,
    }
}

// Says at each leg of the column whether it is marked.
fn mark(shape: &Shape, column: Column, marked: &mut Vec<bool>, is_marked: bool) {
    match column {
        Column::Product(product) => {
            for leg in shape.legs_of(product) {
                mark_leg(marked, *leg, is_marked);
            }
        }
        Column::Slack(leg) => mark_leg(marked, leg, is_marked),
    }
}

fn mark_leg(marked: &mut Vec<bool>, leg: u8, is_marked: bool) {
    if let Some(own) = marked.get_mut(usize::from(leg)) {
        *own = is_marked;
    }
}

fn take_row(alloc: Global, basis: &mut Basis, place: usize) -> Row {
    match basis.rows.get_mut(place) {
        Some(row) => mem::replace(row, Row::nothing(alloc)),
        None => Row::nothing(alloc),
    }
}

fn put_row(basis: &mut Basis, place: usize, unit: Row) {
    if let Some(row) = basis.rows.get_mut(place) {
        *row = unit;
    }
}

// The leaving column goes to the bound that it is beyond, and the row is divided by its entry at the marked legs.
fn divide(
    shape: &Shape,
    unit: &mut Row,
    is_above: bool,
    marked: &[bool],
) -> Result<(), SearchFault> {
    if is_above {
        let most = shape.most(unit.column).unwrap_or(0);
        unit.value = minus(unit.value, times(unit.den, most)?)?;
    }
    let entry = unit.sum_at(marked)?;
    if entry == 0 {
        return Err(SearchFault::GaveUp);
    }
    unit.den = entry;
    if entry < 0 {
        unit.den = minus(0, entry)?;
        unit.turn()?;
    }
    unit.reduce()
}

fn combine_others(basis: &mut Basis, room: &mut Room, unit: &Row) -> Result<(), SearchFault> {
    for row in basis.rows.iter_mut() {
        let entry = row.sum_at(&room.marked)?;
        if entry != 0 {
            row.combine(entry, unit, &mut room.made)?;
        }
    }
    Ok(())
}
