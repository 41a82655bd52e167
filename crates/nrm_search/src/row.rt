//! A row of the inverse of the basis: whole numbers over one denominator, and the value of its basic column.
use crate::column::Column;
use crate::exact::{is_at, minus, number_at, over_shared, plus, times, wide};
use crate::fault::SearchFault;
use nrm_number::short_gcd;
use std::alloc::Global;
use std::mem;

/// A number of a row that isn't 0, and its leg.
#[derive(Clone, Copy)]
pub(crate) struct Entry {
    pub(crate) leg: usize,
    pub(crate) num: i64,
}

/// A row: its numbers by rising leg and the value of its basic column, all over one denominator above 0.
#[derive(Drop)]
pub(crate) struct Row {
    pub(crate) column: Column,
    pub(crate) den: i64,
    pub(crate) entries: Vec<Entry>,
    pub(crate) value: i64,
    /// The sum of the squares of the numbers, or the greatest that fits: the weight of the row for the steepest edge.
    pub(crate) weight: u128,
}

impl Row {
    /// The row in which a leg's own slack is basic, with this value.
    pub(crate) fn of_slack(alloc: Global, leg: u8, value: i64) -> Result<Row, SearchFault> {
        let mut row = Row::nothing(alloc);
        row.column = Column::Slack(leg);
        row.value = value;
        row.weight = 1;
        row.entries.push(Entry {
            leg: usize::from(leg),
            num: 1,
        })?;
        Ok(row)
    }

    /// A row with no numbers, which stands for one that was taken out. It takes no memory.
    pub(crate) fn nothing(alloc: Global) -> Row {
        Row {
            column: Column::Slack(0),
            den: 1,
            entries: Vec::new(alloc),
            value: 0,
            weight: 0,
        }
    }

    /// Brings the row to lowest terms, and weighs it.
    pub(crate) fn reduce(&mut self) -> Result<(), SearchFault> {
        let shared = self.shared();
        if shared != 1 {
            self.divide(shared)?;
        }
        self.weight = weight_of(&self.entries);
        Ok(())
    }

    // What the denominator, the value and all numbers have in common.
    fn shared(&self) -> u64 {
        if self.den == 1 {
            return 1;
        }
        let mut shared = short_gcd(self.den.unsigned_abs(), self.value.unsigned_abs());
        for entry in &self.entries {
            if shared == 1 {
                return 1;
            }
            shared = short_gcd(shared, entry.num.unsigned_abs());
        }
        shared
    }

    fn divide(&mut self, shared: u64) -> Result<(), SearchFault> {
        self.den = over_shared(self.den, shared)?;
        self.value = over_shared(self.value, shared)?;
        for entry in self.entries.iter_mut() {
            entry.num = over_shared(entry.num, shared)?;
        }
        Ok(())
    }

    /// The sum of the numbers at the marked legs, over the denominator: the row's entry at the column with these legs.
    pub(crate) fn sum_at(&self, marked: &[bool]) -> Result<i64, SearchFault> {
        let mut sum = 0;
        for entry in &self.entries {
            if is_at(marked, entry.leg) {
                sum = plus(sum, entry.num)?;
            }
        }
        Ok(sum)
    }

    /// The sum of the numbers, each times what a list has at its leg, over the denominator.
    pub(crate) fn sum_with(&self, list: &[i64]) -> Result<i64, SearchFault> {
        let mut sum = 0;
        for entry in &self.entries {
            let factor = number_at(list, entry.leg)?;
            if factor != 0 {
                sum = plus(sum, times(entry.num, factor)?)?;
            }
        }
        Ok(sum)
    }

    /// Turns all signs but the denominator's.
    pub(crate) fn turn(&mut self) -> Result<(), SearchFault> {
        self.value = minus(0, self.value)?;
        for entry in self.entries.iter_mut() {
            entry.num = minus(0, entry.num)?;
        }
        Ok(())
    }

    /// Takes the unit row off this one as often as `entry`, this row's number at the unit row's column, says. `made` is room.
    pub(crate) fn combine(
        &mut self,
        entry: i64,
        unit: &Row,
        made: &mut Vec<Entry>,
    ) -> Result<(), SearchFault> {
        let shared = short_gcd(entry.unsigned_abs(), unit.den.unsigned_abs());
        let own = over_shared(unit.den, shared)?;
        let taken = over_shared(entry, shared)?;
        merge((&self.entries, own), (&unit.entries, taken), made)?;
        self.value = minus(times(self.value, own)?, times(unit.value, taken)?)?;
        self.den = times(self.den, own)?;
        mem::swap(&mut self.entries, made);
        self.reduce()
    }
}

// Writes the numbers of the first list times its factor, less those of the second times its own, by rising leg.
fn merge(
    (mine, own): (&[Entry], i64),
    (theirs, taken): (&[Entry], i64),
    made: &mut Vec<Entry>,
) -> Result<(), SearchFault> {
    let mut mine = mine;
    let mut theirs = theirs;
    made.clear();
    for _ in 0..mine.len().saturating_add(theirs.len()) {
        let leg = first_leg(mine).min(first_leg(theirs));
        let (first, later) = split_at_leg(mine, leg);
        let (second, others) = split_at_leg(theirs, leg);
        mine = later;
        theirs = others;
        let num = minus(times(first, own)?, times(second, taken)?)?;
        if num != 0 {
            made.push(Entry { leg, num })?;
        }
    }
    Ok(())
}

// The leg of the first number, or a place behind all legs.
fn first_leg(entries: &[Entry]) -> usize {
    match entries.first() {
        Some(entry) => entry.leg,
        None => usize::MAX,
    }
}

// The number at a leg and what is behind it, where it comes first; 0 and the whole list elsewhere.
fn split_at_leg(entries: &[Entry], leg: usize) -> (i64, &[Entry]) {
    match entries.split_first() {
        Some((first, later)) if first.leg == leg => (first.num, later),
        _ => (0, entries),
    }
}

fn weight_of(entries: &[Entry]) -> u128 {
    let mut weight = 0u128;
    for entry in entries {
        weight = weight.saturating_add(square(entry.num));
    }
    weight
}

/// The square of a number.
pub(crate) fn square(number: i64) -> u128 {
    wide(number.unsigned_abs(), number.unsigned_abs())
}
