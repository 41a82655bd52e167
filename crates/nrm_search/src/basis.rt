//! The basis: a row for each leg, where each product stands, which slacks are basic, and the prices.
use crate::column::{Column, Standing};
use crate::exact::{is_at, minus};
use crate::fault::SearchFault;
use crate::prices::{Prices, add_at};
use crate::row::Row;
use crate::shape::Shape;
use std::alloc::Global;

#[derive(Drop)]
pub(crate) struct Basis {
    pub(crate) rows: Vec<Row>,
    pub(crate) standings: Vec<Standing>,
    pub(crate) is_slack_basic: Vec<bool>,
    pub(crate) prices: Prices,
}

impl Basis {
    /// The basis of all slacks, with no price and all demand accepted: maybe more than there are seats.
    pub(crate) fn first(alloc: Global, shape: &Shape) -> Result<Basis, SearchFault> {
        let legs = usize::from(shape.leg_count());
        let left = seats_left(alloc, shape)?;
        let mut rows = Vec::new(alloc);
        for leg in 0..shape.leg_count() {
            let value = left.get(usize::from(leg)).copied().unwrap_or(0);
            rows.push(Row::of_slack(alloc, leg, value)?)?;
        }
        Ok(Basis {
            rows,
            standings: vec![in alloc; Standing::Whole; usize::from(shape.product_count())]?,
            is_slack_basic: vec![in alloc; true; legs]?,
            prices: Prices::none(alloc, shape.leg_count())?,
        })
    }

    /// Where a product stands.
    pub(crate) fn standing(&self, product: u16) -> Standing {
        match self.standings.get(usize::from(product)) {
            Some(standing) => *standing,
            None => Standing::Basic,
        }
    }

    pub(crate) fn is_basic(&self, column: Column) -> bool {
        match column {
            Column::Product(product) => self.standing(product) == Standing::Basic,
            Column::Slack(leg) => is_at(&self.is_slack_basic, usize::from(leg)),
        }
    }

    pub(crate) fn stand(&mut self, product: u16, standing: Standing) {
        if let Some(own) = self.standings.get_mut(usize::from(product)) {
            *own = standing;
        }
    }

    /// The column enters the basis.
    pub(crate) fn enter(&mut self, column: Column) {
        match column {
            Column::Product(product) => self.stand(product, Standing::Basic),
            Column::Slack(leg) => self.set_slack(leg, true),
        }
    }

    /// The column leaves the basis: a product with its whole bound where it was above that, and with no seat elsewhere.
    pub(crate) fn leave(&mut self, column: Column, was_above: bool) {
        match column {
            Column::Product(product) => self.stand(product, outside(was_above)),
            Column::Slack(leg) => self.set_slack(leg, false),
        }
    }

    fn set_slack(&mut self, leg: u8, is_basic: bool) {
        if let Some(own) = self.is_slack_basic.get_mut(usize::from(leg)) {
            *own = is_basic;
        }
    }

    /// What the basic columns are once so many more seats of each leg are taken by products outside the basis.
    pub(crate) fn shift(&mut self, taken: &[i64]) -> Result<(), SearchFault> {
        for row in self.rows.iter_mut() {
            row.value = minus(row.value, row.sum_with(taken)?)?;
        }
        Ok(())
    }
}

fn outside(with_all: bool) -> Standing {
    if with_all {
        Standing::Whole
    } else {
        Standing::Nothing
    }
}

// The seats left on each leg if all demand is accepted, below 0 on a leg with more demand than seats.
fn seats_left(alloc: Global, shape: &Shape) -> Result<Vec<i64>, SearchFault> {
    let mut left = Vec::new(alloc);
    for leg in 0..shape.leg_count() {
        left.push(shape.cap(leg))?;
    }
    for product in 0..shape.product_count() {
        let bound = minus(0, shape.bound(product))?;
        for leg in shape.legs_of(product) {
            add_at(left.as_mut_slice(), usize::from(*leg), bound)?;
        }
    }
    Ok(left)
}
