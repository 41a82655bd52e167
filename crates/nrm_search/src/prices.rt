//! The prices of the legs, whole numbers over one denominator, and the reduced costs at them.
use crate::column::Column;
use crate::exact::{minus, number_at, over_shared, plus, times};
use crate::fault::SearchFault;
use crate::row::Row;
use crate::shape::Shape;
use nrm_number::short_gcd;
use std::alloc::Global;

/// A price for each leg, in currency units times `den`, which is above 0.
#[derive(Drop)]
pub(crate) struct Prices {
    pub(crate) den: i64,
    pub(crate) by_leg: Vec<i64>,
}

impl Prices {
    /// No price on any leg.
    pub(crate) fn none(alloc: Global, legs: u8) -> Result<Prices, SearchFault> {
        let by_leg = vec![in alloc; 0; usize::from(legs)]?;
        Ok(Prices { den: 1, by_leg })
    }

    /// What a column gains beyond the prices of its legs, times `den`: below 0 where it gains less.
    pub(crate) fn reduced_cost(&self, shape: &Shape, column: Column) -> Result<i64, SearchFault> {
        match column {
            Column::Product(product) => self.surplus(shape, product),
            Column::Slack(leg) => minus(0, number_at(&self.by_leg, usize::from(leg))?),
        }
    }

    /// The same of a product: its fare less the prices of its legs.
    pub(crate) fn surplus(&self, shape: &Shape, product: u16) -> Result<i64, SearchFault> {
        let mut surplus = times(self.den, shape.fare(product))?;
        for leg in shape.legs_of(product) {
            surplus = minus(surplus, number_at(&self.by_leg, usize::from(*leg))?)?;
        }
        Ok(surplus)
    }

    /// Adds the unit row as often as the reduced cost of its column says, so that it becomes 0.
    pub(crate) fn add(&mut self, cost: i64, unit: &Row) -> Result<(), SearchFault> {
        if cost == 0 {
            return Ok(());
        }
        self.widen(unit.den)?;
        for entry in &unit.entries {
            add_at(&mut self.by_leg, entry.leg, times(entry.num, cost)?)?;
        }
        self.reduce()
    }

    // The same prices over a denominator so many times as large.
    fn widen(&mut self, factor: i64) -> Result<(), SearchFault> {
        if factor == 1 {
            return Ok(());
        }
        self.den = times(self.den, factor)?;
        for price in self.by_leg.iter_mut() {
            *price = times(*price, factor)?;
        }
        Ok(())
    }

    // Lowest terms.
    fn reduce(&mut self) -> Result<(), SearchFault> {
        let shared = self.shared();
        if shared == 1 {
            return Ok(());
        }
        self.den = over_shared(self.den, shared)?;
        for price in self.by_leg.iter_mut() {
            *price = over_shared(*price, shared)?;
        }
        Ok(())
    }

    fn shared(&self) -> u64 {
        let mut shared = self.den.unsigned_abs();
        for price in &self.by_leg {
            if shared == 1 {
                return 1;
            }
            shared = short_gcd(shared, price.unsigned_abs());
        }
        shared
    }
}

/// Adds to the number at a place in a list.
pub(crate) fn add_at(numbers: &mut [i64], place: usize, more: i64) -> Result<(), SearchFault> {
    if let Some(number) = numbers.get_mut(place) {
        *number = plus(*number, more)?;
    }
    Ok(())
}
