//! The column that enters: products are flipped to their other bound by rising ratio, as long as the leaving row stays off, and the
//! column that repairs the row enters.
use crate::basis::Basis;
use crate::column::{Column, Standing};
use crate::exact::{minus, number_at};
use crate::fault::SearchFault;
use crate::heap::{Candidate, make_heap, take_least};
use crate::leaving::Leaving;
use crate::prices::add_at;
use crate::room::{Entries, Room};
use crate::row::Row;
use crate::shape::Shape;

/// The entering column. The products before it are flipped, and the rows have the values that follow.
pub(crate) fn entering_column(
    shape: &Shape,
    basis: &mut Basis,
    room: &mut Room,
    leaving: &Leaving,
) -> Result<Column, SearchFault> {
    find_candidates(shape, basis, room, leaving)?;
    make_heap(room.candidates.as_mut_slice());
    room.taken.as_mut_slice().fill(0);
    let column = flip_until_repaired(shape, basis, room, leaving)?;
    basis.shift(&room.taken)?;
    Ok(column)
}

fn flip_until_repaired(
    shape: &Shape,
    basis: &mut Basis,
    room: &mut Room,
    leaving: &Leaving,
) -> Result<Column, SearchFault> {
    let mut off = leaving.off.unsigned_abs();
    for _ in 0..room.candidates.len() {
        let Some(next) = take_least(&mut room.candidates) else {
            return Err(SearchFault::GaveUp);
        };
        let Column::Product(product) = next.column else {
            return Ok(next.column);
        };
        let gain = gain_of(shape, next.entry, product)?;
        if off <= gain {
            return Ok(next.column);
        }
        off = off.saturating_sub(gain);
        flip(shape, basis, product, room.taken.as_mut_slice())?;
    }
    Err(SearchFault::GaveUp)
}

// How far the row moves if a product is flipped.
fn gain_of(shape: &Shape, entry: u64, product: u16) -> Result<u64, SearchFault> {
    let bound = shape.bound(product).unsigned_abs();
    entry.checked_mul(bound).ok_or(SearchFault::GaveUp)
}

// The product goes to its other bound.
fn flip(
    shape: &Shape,
    basis: &mut Basis,
    product: u16,
    taken: &mut [i64],
) -> Result<(), SearchFault> {
    let bound = shape.bound(product);
    if basis.standing(product) == Standing::Whole {
        basis.stand(product, Standing::Nothing);
        take_seats(shape, product, minus(0, bound)?, taken)
    } else {
        basis.stand(product, Standing::Whole);
        take_seats(shape, product, bound, taken)
    }
}

fn take_seats(
    shape: &Shape,
    product: u16,
    seats: i64,
    taken: &mut [i64],
) -> Result<(), SearchFault> {
    for leg in shape.legs_of(product) {
        add_at(taken, usize::from(*leg), seats)?;
    }
    Ok(())
}

// The columns outside the basis that can move the row back towards its bounds.
fn find_candidates(
    shape: &Shape,
    basis: &Basis,
    room: &mut Room,
    leaving: &Leaving,
) -> Result<(), SearchFault> {
    room.candidates.clear();
    let Some(row) = basis.rows.get(leaving.row) else {
        return Err(SearchFault::GaveUp);
    };
    let is_above = 0 < leaving.off;
    find_slacks(basis, row, is_above, &mut room.candidates)?;
    spread(shape, row, &mut room.entries)?;
    for _ in 0..room.entries.len() {
        if let Some((product, entry)) = room.entries.take() {
            if can_enter(basis, product, entry, is_above) {
                let cost = basis.prices.surplus(shape, product)?.unsigned_abs();
                room.candidates.push(Candidate {
                    cost,
                    entry: entry.unsigned_abs(),
                    column: Column::Product(product),
                })?;
            }
        }
    }
    Ok(())
}

// Adds the numbers of the row at the products that use its legs.
fn spread(shape: &Shape, row: &Row, entries: &mut Entries) -> Result<(), SearchFault> {
    for entry in &row.entries {
        for product in shape.products_on(entry.leg) {
            entries.add(*product, entry.num)?;
        }
    }
    Ok(())
}

fn find_slacks(
    basis: &Basis,
    row: &Row,
    is_above: bool,
    candidates: &mut Vec<Candidate>,
) -> Result<(), SearchFault> {
    for entry in &row.entries {
        if let Ok(leg) = u8::try_from(entry.leg) {
            let column = Column::Slack(leg);
            if (0 < entry.num) == is_above && !basis.is_basic(column) {
                let price = number_at(&basis.prices.by_leg, entry.leg)?;
                candidates.push(Candidate {
                    cost: price.unsigned_abs(),
                    entry: entry.num.unsigned_abs(),
                    column,
                })?;
            }
        }
    }
    Ok(())
}

// Whether moving the product from its bound moves the row the right way.
fn can_enter(basis: &Basis, product: u16, entry: i64, is_above: bool) -> bool {
    match basis.standing(product) {
        Standing::Basic => false,
        Standing::Nothing => entry != 0 && (0 < entry) == is_above,
        Standing::Whole => entry != 0 && (0 < entry) != is_above,
    }
}
