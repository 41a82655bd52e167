//! The fractions that the lines of a file have given so far: for the value, for each product and for each leg.
ghost use Rattle.std.specs.Prelude.{◌≡◌, ◌<◌, IfOk, IfSome, is_some, length};
ghost use Rattle.nrm_dual.specs.Reading.{blank, first_missing, given, with_given};
ghost use Rattle.nrm_dual.specs.Inner.Sheets.{IsPlaceOf, IsSheetOf, meant};

use crate::place::Place;
use crate::written::Written;
use nrm_model::Network;
use std::alloc::{AllocError, Global};
use std::marker::Model;

// What was given so far.
#[derive(Drop)]
pub(crate) struct Sheet {
    value: Option<Written>,
    products: Vec<Option<Written>>,
    legs: Vec<Option<Written>>,
}

impl Model for Sheet {
    ghost use Rattle.nrm_dual.specs.Reading.{Sheet as Exact};

    ghost Value = { Exact };

    ghost view = { λ s. record { value = s.value; products = s.products.items; legs = s.legs.items } };
}

impl Sheet {
    // Nothing given yet.
    pub(crate) fn blank(alloc: Global, net: &Network) -> Result<Sheet, AllocError>
        ensures { IfOk result (λ sheet. sheet ≡ blank net.now) }
    {
        Ok(Sheet {
            value: None,
            products: vec![in alloc; None; net.product_count()]?,
            legs: vec![in alloc; None; net.leg_count()]?,
        })
    }

    // What was given for the value.
    pub(crate) fn value(&self) -> &Option<Written>
        ensures { result.now ≡ self.now.value }
    {
        &self.value
    }

    // What was given for each product.
    pub(crate) fn products(&self) -> &[Option<Written>]
        ensures { result.now ≡ self.now.products }
    {
        self.products.as_slice()
    }

    // What was given for each leg.
    pub(crate) fn legs(&self) -> &[Option<Written>]
        ensures { result.now ≡ self.now.legs }
    {
        self.legs.as_slice()
    }

    // Whether a place was given.
    pub(crate) fn has(&self, net: &Network, place: Place) -> bool
        requires place { IsPlaceOf net.now place }
        requires sheet { IsSheetOf net.now self.now }
        ensures { result ≡ is_some (given self.now (meant place)) }
    {
        match place {
            Place::Value => self.value.is_some(),
            Place::Product(j) => self.products[usize::from(j)].is_some(),
            Place::Leg(i) => self.legs[usize::from(i)].is_some(),
        }
    }

    // Gives a fraction for a place.
    pub(crate) fn put(&mut self, net: &Network, place: Place, fraction: Written)
        requires place { IsPlaceOf net.now place }
        requires sheet { IsSheetOf net.now self.old }
        ensures given { self.new ≡ with_given self.old (meant place) fraction }
        ensures sheet { IsSheetOf net.now self.new }
    {
        match place {
            Place::Value => self.value = Some(fraction),
            Place::Product(j) => self.products[usize::from(j)] = Some(fraction),
            Place::Leg(i) => self.legs[usize::from(i)] = Some(fraction),
        }
    }
}

// The first that wasn't given.
pub(crate) fn first_missing(rows: &[Option<Written>]) -> Option<usize>
    ensures first { result ≡ first_missing 0 rows.now }
    ensures within { IfSome result (λ i. i < length rows.now) }
{
    for place in 0..rows.len() {
        if rows[place].is_none() {
            return Some(place);
        }
    }
    None
}
