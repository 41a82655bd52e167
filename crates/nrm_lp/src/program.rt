//! The deterministic linear program: a cap for each leg, and for each product a bound, a fare and its legs, as plain
//! lists within the limits.
ghost use Rattle.std.specs.Prelude.{◌≡◌, ◌<◌, [], get_or, length, map, slice_get, Some};

use std::marker::Model;

/// A linear program within its limits: caps and bounds in seats of all histories, fares in whole currency units, and for each
/// product its legs, none twice.
#[derive(Drop)]
pub struct Program {
    caps: Vec<u32>,
    bounds: Vec<u32>,
    fares: Vec<u32>,
    legs: Vec<Vec<u8>>,
}

impl Model for Program {
    ghost use Rattle.std.specs.Prelude.{map};
    ghost use Rattle.nrm_lp.specs.Program.{ProgramValue};
    ghost use Rattle.nrm_lp.specs.Limits.{IsLimited};

    ghost Value = { ProgramValue };

    ghost view = { λ p. record {
      caps = p.caps.items;
      bounds = p.bounds.items;
      fares = p.fares.items;
      legs = map (λ v. v.items) p.legs.items;
    } };

    ghost invariant = { λ p. IsLimited
        (record { caps = p.caps.items; bounds = p.bounds.items; fares = p.fares.items; legs = map (λ v. v.items) p.legs.items }) };
}

impl Program {
    ghost use Rattle.nrm_lp.specs.Limits.{IsLimited};
    ghost use Rattle.nrm_lp.specs.Program.{names};

    /// The program of these parts. It takes no memory.
    pub fn new(caps: Vec<u32>, bounds: Vec<u32>, fares: Vec<u32>, legs: Vec<Vec<u8>>) -> Program
        requires { IsLimited
            (record { caps = caps.items; bounds = bounds.items; fares = fares.items; legs = map (λ v. v.items) legs.items }) }
        ensures { result ≡ record { caps = caps.items; bounds = bounds.items; fares = fares.items; legs = map (λ v. v.items) legs.items } }
    {
        Program {
            caps,
            bounds,
            fares,
            legs,
        }
    }

    /// The caps, leg by leg.
    pub fn caps(&self) -> &[u32]
        ensures caps { result.now ≡ self.now.caps }
        ensures limits { IsLimited self.now }
    {
        self.caps.as_slice()
    }

    /// The bounds, product by product.
    pub fn bounds(&self) -> &[u32]
        ensures bounds { result.now ≡ self.now.bounds }
        ensures limits { IsLimited self.now }
    {
        self.bounds.as_slice()
    }

    /// The fares, product by product, in whole currency units.
    pub fn fares(&self) -> &[u32]
        ensures fares { result.now ≡ self.now.fares }
        ensures limits { IsLimited self.now }
    {
        self.fares.as_slice()
    }

    /// How many legs there are, at least one.
    pub fn leg_count(&self) -> u8
        ensures count { result ≡ length self.now.caps }
        ensures limits { IsLimited self.now }
    {
        self.caps.len() as u8
    }

    /// How many products there are, at least one.
    pub fn product_count(&self) -> u16
        ensures count { result ≡ length self.now.bounds }
        ensures limits { IsLimited self.now }
    {
        self.bounds.len() as u16
    }

    /// The numbers of a product's legs, in its own order.
    pub fn legs_of(&self, j: u16) -> &[u8]
        requires { j < length self.now.bounds }
        ensures legs { Some result.now ≡ slice_get self.now.legs j }
        ensures limits { IsLimited self.now }
    {
        self.legs[j as usize].as_slice()
    }

    /// Whether a product uses a leg.
    pub fn uses_leg(&self, product: u16, leg: u8) -> bool
        requires { product < length self.now.bounds }
        ensures uses { result ≡ names leg (get_or self.now.legs product []) }
        ensures limits { IsLimited self.now }
    {
        self.legs_of(product).contains(&leg)
    }
}
