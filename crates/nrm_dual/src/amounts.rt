//! The numbers of a certificate out of the fractions of a file: those of all histories together, over two denominators.
ghost use Rattle.std.specs.Prelude.{◌≡◌, ◌<◌, ◌≤◌, ◌++◌, ◌∷◌, IfOk, drop, get_or, length, map, None, pos};
ghost use Rattle.nrm_model.specs.declared.limits.TheConstants.{MOST_HISTORIES};
ghost use Rattle.nrm_dual.specs.Refusals.{AnswersCertificate};
ghost use Rattle.nrm_dual.specs.Reading.{certificate_or_refusal, prices_in, times};

use crate::fault::CertFault;
use crate::sheet::Sheet;
use crate::written::Written;
use nrm_fraction::{Fraction, over_common};
use nrm_lp::{Certificate, Numbers};
use std::alloc::{AllocError, Global};

// So many times what was given, and 0 where nothing was.
fn times(n: u8, given: &Option<Written>) -> Fraction
    requires { n ≤ MOST_HISTORIES }
    ensures { result ≡ times n given.now }
{
    match given {
        Some(fraction) => fraction.times(n),
        None => Fraction::new(0, 1),
    }
}

// Appends so many times each of these.
fn put_times(made: &mut Vec<Fraction>, n: u8, given: &[Option<Written>]) -> Result<(), AllocError>
    requires { n ≤ MOST_HISTORIES }
    ensures { IfOk result (λ _. made.new.items ≡ made.old.items ++ map (times n) given.now) }
{
    for fraction in given {
        made.push(times(n, fraction))?;
    }
    Ok(())
}

// The allocation of all histories.
fn shares(alloc: Global, histories: u8, sheet: &Sheet) -> Result<Vec<Fraction>, AllocError>
    requires { histories ≤ MOST_HISTORIES }
    ensures { IfOk result (λ list. list.items ≡ map (times histories) sheet.now.products) }
{
    let mut made = Vec::new(alloc);
    put_times(&mut made, histories, sheet.products())?;
    Ok(made)
}

// The value of all histories, and behind it the bid prices.
fn value_and_prices(
    alloc: Global,
    histories: u8,
    sheet: &Sheet,
) -> Result<Vec<Fraction>, AllocError>
    requires { histories ≤ MOST_HISTORIES }
    ensures { IfOk result (λ list. list.items ≡ times histories sheet.now.value ∷ prices_in sheet.now) }
{
    let mut made = Vec::new(alloc);
    made.push(times(histories, sheet.value()))?;
    put_times(&mut made, 1, sheet.legs())?;
    Ok(made)
}

// The certificate of these numbers, of which the value stands before the bid prices.
fn certificate_with(q: i64, x: Vec<i64>, den: i64, value_and_prices: Vec<i64>) -> Certificate
    requires { 0 < length value_and_prices.items }
    ensures { result
        ≡ record { q = q; x = x.items; den = den; p = drop 1 value_and_prices.items; value = get_or value_and_prices.items 0 (pos 0) } }
{
    let mut prices = value_and_prices;
    let value = prices.remove(0);
    Certificate {
        q,
        x: Numbers::new(x),
        den,
        p: Numbers::new(prices),
        value,
    }
}

/// The certificate of a sheet on which nothing is missing.
///
/// # Errors
/// `TooFine` where a number of it reaches 2^48. `NoMemory`.
pub(crate) fn certificate_over(
    alloc: Global,
    histories: u8,
    sheet: &Sheet,
) -> Result<Certificate, CertFault>
    requires { histories ≤ MOST_HISTORIES }
    ensures { AnswersCertificate result
        (certificate_or_refusal (map (times histories) sheet.now.products) (times histories sheet.now.value) (prices_in sheet.now)) }
{
    let (q, x) = over_common(alloc, &shares(alloc, histories, sheet)?)?;
    let (den, money) = over_common(alloc, &value_and_prices(alloc, histories, sheet)?)?;
    Ok(certificate_with(q, x, den, money))
}
