//! The greatest common divisor, by Euclid's remainders: at 64 bits as soon as both numbers fit.
ghost use Rattle.std.specs.Prelude.{◌≡◌};
ghost use Rattle.std.specs.Int.{IsGcd};
ghost use Rattle.nrm_number.specs.Gcd.{gcd as gcd_of};

const SHORT: u128 = u64::MAX as u128;

/// The greatest common divisor; of 0 and 0 it is 0.
pub fn gcd(a: u128, b: u128) -> u128
    ensures value { result ≡ gcd_of a b }
    ensures greatest { IsGcd a b result }
{
    let mut x = a;
    let mut y = b;
    while x > SHORT || y > SHORT {
        if y == 0 {
            return x;
        }
        let rest = x % y;
        x = y;
        y = rest;
    }
    u128::from(short_gcd(x as u64, y as u64))
}

/// The same of two numbers of 64 bits.
pub fn short_gcd(a: u64, b: u64) -> u64
    ensures value { result ≡ gcd_of a b }
    ensures greatest { IsGcd a b result }
{
    let mut x = a;
    let mut y = b;
    while y != 0 {
        let rest = x % y;
        x = y;
        y = rest;
    }
    x
}
