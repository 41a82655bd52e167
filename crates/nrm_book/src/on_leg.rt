//! The products that use a leg, each with the seats sold of it: a walk over what a book counts, that takes no memory.
ghost use Rattle.std.specs.Prelude.{◌≡◌, ◌∷◌, ◌+◌, ◌<◌, ◌≤◌, [], MatchOption, IfSome, length, map};
ghost use Rattle.nrm_model.specs.declared.limits.TheConstants.{MOST_PRODUCTS};
ghost use Rattle.nrm_book.specs.OnLeg.{sold_from, products_from};

use std::marker::Model;

/// The products that use a leg, in the order of the network, each with the seats sold of it. Contracts see the list of those
/// to come.
#[derive(Drop)]
pub struct SoldOnLeg<'a> {
    legs: &'a [Vec<u8>],
    counts: &'a [u16],
    leg: u8,
    product: usize,
}

impl<'a> Model for SoldOnLeg<'a> {
    ghost use Rattle.std.specs.Prelude.{ℕ, ◌≡◌, ◌≤◌, List, length, map};
    ghost use Rattle.nrm_model.specs.declared.limits.TheConstants.{MOST_PRODUCTS};
    ghost use Rattle.nrm_book.specs.OnLeg.{sold_from};

    ghost Value = { List (ℕ × ℕ) };

    ghost view = { λ s. sold_from (map (λ v. v.items) s.legs.now) s.counts.now s.leg s.product };

    ghost invariant = { λ s. (length s.legs.now ≤ MOST_PRODUCTS) × (length s.counts.now ≡ length s.legs.now) };
}

impl<'a> SoldOnLeg<'a> {
    /// All products that use the leg, of those with these legs and these counts.
    pub(crate) fn new(legs: &'a [Vec<u8>], counts: &'a [u16], leg: u8) -> SoldOnLeg<'a>
        requires few { length legs.now ≤ MOST_PRODUCTS }
        requires counts { length counts.now ≡ length legs.now }
        ensures { result ≡ sold_from (map (λ v. v.items) legs.now) counts.now leg 0 }
    {
        SoldOnLeg {
            legs,
            counts,
            leg,
            product: 0,
        }
    }
}

impl<'a> Iterator for SoldOnLeg<'a> {
    ghost use Rattle.std.specs.Iterator.{YieldsFirst, item_count};

    type Item = (u16, u16);

    ghost next_gives = { YieldsFirst (λ sold. sold) };

    ghost remaining = { item_count (λ sold. sold) };

    fn next(&mut self) -> Option<(u16, u16)> {
        let product = first_on(self.legs, self.leg, self.product)?;
        self.product = product + 1;
        Some((product as u16, self.counts[product]))
    }
}

// The first product from this one on that uses the leg.
fn first_on(legs: &[Vec<u8>], leg: u8, first: usize) -> Option<usize>
    ensures product { MatchOption result (products_from (map (λ v. v.items) legs.now) leg first ≡ [])
        (λ product. products_from (map (λ v. v.items) legs.now) leg first ≡ product ∷ products_from (map (λ v. v.items) legs.now) leg (product + 1)) }
    ensures within { IfSome result (λ product. product < length legs.now) }
{
    for product in first..legs.len() {
        if legs[product].contains(&leg) {
            return Some(product);
        }
    }
    None
}
