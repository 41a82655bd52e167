//! The parts of a program, and the products on each leg.
use crate::column::Column;
use crate::fault::SearchFault;
use nrm_lp::Program;
use std::alloc::Global;

/// A program with the products that use each leg, by rising number.
#[derive(Drop)]
pub(crate) struct Shape<'a> {
    program: &'a Program,
    products_on: Vec<Vec<u16>>,
}

impl<'a> Shape<'a> {
    pub(crate) fn of(alloc: Global, program: &'a Program) -> Result<Shape<'a>, SearchFault> {
        let mut products_on = Vec::new(alloc);
        for _ in 0..program.leg_count() {
            products_on.push(Vec::new(alloc))?;
        }
        for product in 0..program.product_count() {
            for leg in program.legs_of(product) {
                add_to(&mut products_on, usize::from(*leg), product)?;
            }
        }
        Ok(Shape {
            program,
            products_on,
        })
    }

    pub(crate) fn product_count(&self) -> u16 {
        self.program.product_count()
    }

    pub(crate) fn leg_count(&self) -> u8 {
        self.program.leg_count()
    }

    pub(crate) fn cap(&self, leg: u8) -> i64 {
        number_in(self.program.caps(), usize::from(leg))
    }

    pub(crate) fn bound(&self, product: u16) -> i64 {
        number_in(self.program.bounds(), usize::from(product))
    }

    pub(crate) fn fare(&self, product: u16) -> i64 {
        number_in(self.program.fares(), usize::from(product))
    }

    /// The legs of a product, in its own order.
    pub(crate) fn legs_of(&self, product: u16) -> &[u8] {
        if product < self.program.product_count() {
            self.program.legs_of(product)
        } else {
            &[]
        }
    }

    /// The products that use a leg.
    pub(crate) fn products_on(&self, leg: usize) -> &[u16] {
        match self.products_on.get(leg) {
            Some(products) => products.as_slice(),
            None => &[],
        }
    }

    /// The most that a column may be, and `None` for a slack, which has no bound.
    pub(crate) fn most(&self, column: Column) -> Option<i64> {
        match column {
            Column::Product(product) => Some(self.bound(product)),
            Column::Slack(_) => None,
        }
    }
}

fn number_in(numbers: &[u32], place: usize) -> i64 {
    match numbers.get(place) {
        Some(number) => i64::from(*number),
        None => 0,
    }
}

fn add_to(lists: &mut Vec<Vec<u16>>, place: usize, number: u16) -> Result<(), SearchFault> {
    if let Some(list) = lists.get_mut(place) {
        list.push(number)?;
    }
    Ok(())
}
