//! A fraction that isn't negative, in lowest terms.
#![tactic(auto)]

ghost use Rattle.std.specs.Prelude.{◌≡◌, ◌<◌, ◌^◌, pos};
ghost use Rattle.nrm_fraction.specs.Fraction.{◌over◌};

use nrm_number::gcd;
use std::marker::Model;

/// A fraction that isn't negative: a numerator below 2^68 over a denominator from 1 to below 2^64, in lowest terms.
#[derive(Drop)]
pub struct Fraction {
    num: u128,
    den: u64,
}

impl Model for Fraction {
    ghost use Rattle.std.specs.Prelude.{◌≡◌, ◌<◌, ◌^◌, pos};
    ghost use Rattle.nrm_number.specs.Gcd.{gcd as gcd_of};
    ghost use Rattle.nrm_fraction.specs.Fraction.{◌over◌, Fraction as Exact};

    ghost Value = { Exact };

    ghost view = { λ f. pos f.num over f.den };

    ghost invariant = { λ f. (0 < f.den) × (f.num < 2 ^ 68) × (gcd_of f.num f.den ≡ 1) };
}

impl Fraction {
    /// The fraction of this numerator over this denominator, in lowest terms.
    pub fn new(num: u128, den: u64) -> Fraction
        requires some { 0 < den }
        requires size { num < 2 ^ 68 }
        ensures { result ≡ pos num over den }
    {
        let common = gcd(num, u128::from(den));
        Fraction {
            num: num / common,
            den: (u128::from(den) / common) as u64,
        }
    }

    // The numerator.
    pub(crate) fn num(&self) -> u128
        ensures value { pos result ≡ self.now.num }
        ensures size { result < 2 ^ 68 }
    {
        self.num
    }

    // The denominator.
    pub(crate) fn den(&self) -> u64
        ensures value { result ≡ self.now.den }
        ensures some { 0 < result }
    {
        self.den
    }
}
