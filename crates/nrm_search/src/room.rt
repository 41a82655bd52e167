//! Room for one step, which is taken once for a search.
use crate::exact::plus;
use crate::fault::SearchFault;
use crate::heap::Candidate;
use crate::row::Entry;
use crate::shape::Shape;
use std::alloc::Global;

#[derive(Drop)]
pub(crate) struct Room {
    pub(crate) entries: Entries,
    /// The columns that may enter.
    pub(crate) candidates: Vec<Candidate>,
    /// By leg, how many more seats flipped products take.
    pub(crate) taken: Vec<i64>,
    /// By leg, whether the entering column uses it.
    pub(crate) marked: Vec<bool>,
    /// The numbers of a row that is being made.
    pub(crate) made: Vec<Entry>,
}

impl Room {
    pub(crate) fn new(alloc: Global, shape: &Shape) -> Result<Room, SearchFault> {
        let legs = usize::from(shape.leg_count());
        Ok(Room {
            entries: Entries::new(alloc, shape.product_count())?,
            candidates: Vec::new(alloc),
            taken: vec![in alloc; 0; legs]?,
            marked: vec![in alloc; false; legs]?,
            made: Vec::new(alloc),
        })
    }
}

/// The entries of a row at the products: a number for each product that was touched.
#[derive(Drop)]
pub(crate) struct Entries {
    by_product: Vec<Option<i64>>,
    touched: Vec<u16>,
}

impl Entries {
    fn new(alloc: Global, products: u16) -> Result<Entries, SearchFault> {
        Ok(Entries {
            by_product: vec![in alloc; None; usize::from(products)]?,
            touched: Vec::new(alloc),
        })
    }

    /// Adds to the entry at a product.
    pub(crate) fn add(&mut self, product: u16, num: i64) -> Result<(), SearchFault> {
        let Some(entry) = self.by_product.get_mut(usize::from(product)) else {
            return Ok(());
        };
        match *entry {
            Some(sum) => *entry = Some(plus(sum, num)?),
            None => {
                *entry = Some(num);
                self.touched.push(product)?;
            }
        }
        Ok(())
    }

    /// Takes out a product that was touched, with its entry.
    pub(crate) fn take(&mut self) -> Option<(u16, i64)> {
        let product = self.touched.pop()?;
        let entry = self.by_product.get_mut(usize::from(product))?.take()?;
        Some((product, entry))
    }

    pub(crate) fn len(&self) -> usize {
        self.touched.len()
    }
}
