//! The seats sold, counted: those of each product, and those on each leg. All counts are there from the start, so that a
//! sale and a cancellation take no memory. They change the count of the product, and those of its own legs.
ghost use Rattle.std.specs.Prelude.{◌≡◌, ◌≢◌, ◌+◌, ◌-◌, ◌<◌, [], All, AllPairs, IfOk, length, slice_index};
ghost use Rattle.nrm_model.specs.Inventory.{inventory_of};
ghost use Rattle.nrm_book.specs.Seats.{CanFall, CanRise, changed, changed_all, seats_sold};

use nrm_model::Network;
use std::alloc::{AllocError, Global};
use std::marker::Model;

/// The seats sold of a network.
#[derive(Drop)]
pub(crate) struct SeatsSold {
    by_product: Vec<u16>,
    by_leg: Vec<u16>,
}

impl Model for SeatsSold {
    ghost use Rattle.nrm_book.specs.Seats.{SeatsValue};

    ghost Value = { SeatsValue };

    ghost view = { λ s. record { by_product = s.by_product.items; by_leg = s.by_leg.items } };
}

impl SeatsSold {
    /// None are sold.
    ///
    /// # Errors
    /// Memory runs out.
    pub(crate) fn new(alloc: Global, net: &Network) -> Result<SeatsSold, AllocError>
        ensures { IfOk result (λ sold. sold ≡ seats_sold (inventory_of net.now) []) }
    {
        let by_product = vec![in alloc; 0; net.product_count()]?;
        let by_leg = vec![in alloc; 0; net.leg_count()]?;
        Ok(SeatsSold { by_product, by_leg })
    }

    /// The seats sold on a leg.
    pub(crate) fn on(&self, leg: u8) -> u16
        requires { leg < length self.now.by_leg }
        ensures { result ≡ slice_index self.now.by_leg leg }
    {
        self.by_leg[leg as usize]
    }

    /// The seats sold of a product.
    pub(crate) fn of(&self, product: u16) -> u16
        requires { product < length self.now.by_product }
        ensures { result ≡ slice_index self.now.by_product product }
    {
        self.by_product[product as usize]
    }

    /// The seats sold of each product.
    pub(crate) fn by_product(&self) -> &[u16]
        ensures { result.now ≡ self.now.by_product }
    {
        &self.by_product
    }

    /// Sells a party of a product, which takes seats of these legs. It takes no memory.
    pub(crate) fn sell(&mut self, legs: &[u8], product: u16, party: u16)
        requires distinct { AllPairs (λ a b. a ≢ b) legs.now }
        requires product { CanRise self.old.by_product product party }
        requires legs { All (λ leg. CanRise self.old.by_leg leg party) legs.now }
        ensures { self.new ≡ changed (λ sold. sold + party) self.old legs.now product }
    {
        self.by_product[product as usize] += party;
        rise(&mut self.by_leg, legs, party);
    }

    /// Gives a party of a product back, with its seats of these legs.
    pub(crate) fn give_back(&mut self, legs: &[u8], product: u16, party: u16)
        requires distinct { AllPairs (λ a b. a ≢ b) legs.now }
        requires product { CanFall self.old.by_product product party }
        requires legs { All (λ leg. CanFall self.old.by_leg leg party) legs.now }
        ensures { self.new ≡ changed (λ sold. sold - party) self.old legs.now product }
    {
        self.by_product[product as usize] -= party;
        fall(&mut self.by_leg, legs, party);
    }
}

// A party more on each of these legs.
fn rise(counts: &mut [u16], legs: &[u8], party: u16)
    requires distinct { AllPairs (λ a b. a ≢ b) legs.now }
    requires fits { All (λ leg. CanRise counts.old leg party) legs.now }
    ensures { counts.new ≡ changed_all (λ sold. sold + party) counts.old legs.now }
{
    for leg in legs {
        counts[*leg as usize] += party;
    }
}

// A party less on each of these legs.
fn fall(counts: &mut [u16], legs: &[u8], party: u16)
    requires distinct { AllPairs (λ a b. a ≢ b) legs.now }
    requires sold { All (λ leg. CanFall counts.old leg party) legs.now }
    ensures { counts.new ≡ changed_all (λ sold. sold - party) counts.old legs.now }
{
    for leg in legs {
        counts[*leg as usize] -= party;
    }
}
