//! Fractions as they are written in a file: two whole numbers up to 2^63 - 1 around one `/`, in any terms.
ghost use Rattle.std.specs.Prelude.{◌≡◌, ◌≤◌, ◌*◌, ◌∷◌, [], pos};
ghost use Rattle.nrm_fraction.specs.Fraction.{◌over◌};
ghost use Rattle.nrm_model.specs.declared.limits.TheConstants.{MOST_HISTORIES};
ghost use Rattle.nrm_dual.specs.Reading.{times, written_by, written_in};
ghost use Rattle.nrm_dual.specs.Inner.Sheets.{fitting};

use nrm_fraction::Fraction;
use nrm_stream::split_once;
use nrm_text::{NumberFault, read_whole};
use std::marker::Model;

// The greatest number that may be written.
const GREATEST_NUMBER: u64 = i64::MAX as u64;

// A fraction as it is written. Its denominator is at least 1.
#[derive(Clone, Copy)]
pub(crate) struct Written {
    num: u64,
    den: u64,
}

impl Model for Written {
    ghost use Rattle.std.specs.Prelude.{◌<◌, ◌≤◌, ◌^◌};
    ghost use Rattle.nrm_dual.specs.Reading.{Written as Exact};

    ghost Value = { Exact };

    ghost view = { λ w. record { num = w.num; den = w.den } };

    ghost invariant = { λ w. (1 ≤ w.den) × (w.num < 2 ^ 63) };

    ghost inverse = { λ value. record { num = value.num; den = value.den } };
}

impl Written {
    // So many times the fraction, in lowest terms.
    pub(crate) fn times(&self, n: u8) -> Fraction
        requires { n ≤ MOST_HISTORIES }
        ensures { result ≡ pos (n * self.now.num) over self.now.den }
    {
        Fraction::new(u128::from(n) * u128::from(self.num), self.den)
    }
}

// The fraction that these two words write.
fn written_by(num: &[u8], den: &[u8]) -> Result<Written, NumberFault>
    ensures { result ≡ fitting (written_by (num.now ∷ den.now ∷ [])) }
{
    match (
        read_whole(num, GREATEST_NUMBER),
        read_whole(den, GREATEST_NUMBER),
    ) {
        (Err(NumberFault::Off), _) | (_, Err(NumberFault::Off)) => Err(NumberFault::Off),
        (_, Ok(den)) if den == 0 => Err(NumberFault::Off),
        (Ok(num), Ok(den)) => Ok(Written { num, den }),
        _ => Err(NumberFault::Over),
    }
}

/// The fraction that a word writes.
///
/// # Errors
/// `Off` where it writes none; else `Over` where one of its numbers is above 2^63 - 1.
pub(crate) fn written_in(word: &[u8]) -> Result<Written, NumberFault>
    ensures { result ≡ fitting (written_in word.now) }
{
    let Some((num, den)) = split_once(word, b'/') else {
        return Err(NumberFault::Off);
    };
    match split_once(den, b'/') {
        None => written_by(num, den),
        Some(_) => Err(NumberFault::Off),
    }
}
