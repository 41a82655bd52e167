//! Certificates: an allocation and bid prices as whole numbers over two denominators, and the value.
ghost use Rattle.std.specs.Prelude.{◌≡◌, ◌<◌, ◌≤◌, ◌^◌, All, length, slice_index};
ghost use Rattle.nrm_fraction.specs.Large.{size_limit};
ghost use Rattle.nrm_lp.specs.Certified.{sizes};
ghost use Rattle.nrm_lp.specs.Program.{price_sum};
ghost use Rattle.nrm_lp.specs.Shape.{IsNumber};
ghost use Rattle.nrm_lp.specs.declared.limits.TheConstants.{MOST_LEGS_OF_A_PRODUCT};

use std::marker::Model;

/// A list of whole numbers. Contracts see a list.
#[derive(Drop)]
pub struct Numbers {
    numbers: Vec<i64>,
}

impl Model for Numbers {
    ghost use Rattle.std.specs.Prelude.{ℤ, List};

    ghost Value = { List ℤ };

    ghost view = { λ n. n.numbers.items };
}

impl Numbers {
    /// These numbers.
    pub fn new(numbers: Vec<i64>) -> Numbers
        ensures { result ≡ numbers.items }
    {
        Numbers { numbers }
    }

    /// The numbers, in order.
    pub fn as_slice(&self) -> &[i64]
        ensures { result.now ≡ self.now }
    {
        self.numbers.as_slice()
    }
}

/// What shows that a program was solved: an allocation of seats, bid prices and the value. They are told in whole
/// numbers over two denominators, over all demand histories together. Nothing of it is checked here.
#[derive(Drop)]
pub struct Certificate {
    /// The common denominator of the allocation: how many parts a seat is counted in.
    pub q: i64,
    /// The allocation, product by product: the seats that the product is allotted in all histories, times `q`.
    pub x: Numbers,
    /// The common denominator of the bid prices and the value: how many parts a currency unit is counted in.
    pub den: i64,
    /// The bid prices, leg by leg: what a seat on the leg is worth in currency units, times `den`.
    pub p: Numbers,
    /// The value, which is the cost of the bid prices in all histories: currency units, times `den`.
    pub value: i64,
}

impl Certificate {
    /// The bid price of a leg, times `den`.
    pub fn bid_price(&self, leg: u8) -> u64
        requires prices { All (IsNumber size_limit) self.now.p }
        requires leg { leg < length self.now.p }
        ensures value { result ≡ slice_index (sizes self.now.p) leg }
        ensures limit { result < size_limit }
    {
        self.p.as_slice()[usize::from(leg)].unsigned_abs()
    }

    /// The sum of the bid prices of a product's legs, times `den`.
    pub fn price_sum(&self, legs: &[u8]) -> u64
        requires prices { All (IsNumber size_limit) self.now.p }
        requires legs { All (λ leg. leg < length self.now.p) legs.now }
        requires few { length legs.now ≤ MOST_LEGS_OF_A_PRODUCT }
        ensures sum { result ≡ price_sum (sizes self.now.p) legs.now }
        ensures limit { result ≤ 2 ^ 50 }
    {
        let mut sum = 0;
        for leg in legs {
            sum += self.bid_price(*leg);
        }
        sum
    }
}
