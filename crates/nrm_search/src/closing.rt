//! What a basis says once nothing is left to repair: the allocation, the prices and the value.
use crate::basis::Basis;
use crate::column::{Column, Standing};
use crate::exact::{over_shared, plus, times};
use crate::fault::SearchFault;
use crate::prices::Prices;
use crate::row::Row;
use crate::shape::Shape;
use nrm_lp::{Certificate, Numbers};
use nrm_number::short_gcd;
use std::alloc::Global;

/// The certificate of a basis, over the least common denominators.
pub(crate) fn certificate(
    alloc: Global,
    shape: &Shape,
    basis: &Basis,
) -> Result<Certificate, SearchFault> {
    let q = common(&basis.rows)?;
    let x = allotted(alloc, shape, basis, q)?;
    let p = basis.prices.by_leg.as_slice().to_vec(alloc)?;
    Ok(Certificate {
        q,
        x: Numbers::new(x),
        den: basis.prices.den,
        p: Numbers::new(p),
        value: cost(shape, &basis.prices)?,
    })
}

// The least common denominator of the basic products' values.
fn common(rows: &[Row]) -> Result<i64, SearchFault> {
    let mut q = 1;
    for row in rows {
        if let Column::Product(_) = row.column {
            q = least_common(q, lowest_den(row)?)?;
        }
    }
    Ok(q)
}

fn lowest_den(row: &Row) -> Result<i64, SearchFault> {
    let shared = short_gcd(row.den.unsigned_abs(), row.value.unsigned_abs());
    over_shared(row.den, shared)
}

fn least_common(a: i64, b: i64) -> Result<i64, SearchFault> {
    let shared = short_gcd(a.unsigned_abs(), b.unsigned_abs());
    times(over_shared(a, shared)?, b)
}

// What each product is allotted, over `q`.
fn allotted(alloc: Global, shape: &Shape, basis: &Basis, q: i64) -> Result<Vec<i64>, SearchFault> {
    let mut x = Vec::new(alloc);
    for product in 0..shape.product_count() {
        x.push(outside(shape, basis, product, q)?)?;
    }
    for row in &basis.rows {
        if let Column::Product(product) = row.column {
            if let Some(own) = x.get_mut(usize::from(product)) {
                *own = value_over(row, q)?;
            }
        }
    }
    Ok(x)
}

// What a product outside the basis is allotted.
fn outside(shape: &Shape, basis: &Basis, product: u16, q: i64) -> Result<i64, SearchFault> {
    if basis.standing(product) == Standing::Whole {
        times(q, shape.bound(product))
    } else {
        Ok(0)
    }
}

// The value of a row over `q`, which the row's denominator divides once the value is in lowest terms.
fn value_over(row: &Row, q: i64) -> Result<i64, SearchFault> {
    let shared = short_gcd(row.den.unsigned_abs(), row.value.unsigned_abs());
    let den = over_shared(row.den, shared)?;
    times(
        over_shared(row.value, shared)?,
        over_shared(q, den.unsigned_abs())?,
    )
}

// The cost of the prices, over their denominator: the seats at their prices, and the bounds at what the fares exceed them by.
fn cost(shape: &Shape, prices: &Prices) -> Result<i64, SearchFault> {
    let mut sum = 0;
    for leg in 0..shape.leg_count() {
        let price = prices.by_leg.get(usize::from(leg)).copied().unwrap_or(0);
        sum = plus(sum, times(shape.cap(leg), price)?)?;
    }
    for product in 0..shape.product_count() {
        let surplus = prices.surplus(shape, product)?.max(0);
        sum = plus(sum, times(shape.bound(product), surplus)?)?;
    }
    Ok(sum)
}
