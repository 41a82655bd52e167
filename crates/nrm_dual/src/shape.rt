//! The first condition: lengths, denominators and the sizes of the numbers. The others read sizes alone.
ghost use Rattle.std.specs.Prelude.{◌≡◌, ◌&&◌, ◌<◌, ◌==◌, nat_lt, nat_abs, length};
ghost use Rattle.nrm_fraction.specs.Large.{size_limit};
ghost use Rattle.nrm_lp.specs.Limits.{IsLimited};
ghost use Rattle.nrm_dual.specs.Conditions.{are_small, has_shape, is_small};

use nrm_fraction::SIZE_LIMIT;
use nrm_lp::{Certificate, Program};

/// Whether the lists have the program's lengths, both denominators are at least 1, and no number is negative or
/// reaches the limit.
pub(crate) fn has_shape(program: &Program, certificate: &Certificate) -> bool
    ensures shape { result ≡ has_shape size_limit program.now certificate.now }
    ensures limits { IsLimited program.now }
{
    has_lengths(program, certificate)
        && has_denominators(certificate)
        && has_small_numbers(certificate)
}

fn has_lengths(program: &Program, certificate: &Certificate) -> bool
    ensures lengths { result ≡
        ((length certificate.now.x == length program.now.bounds) && (length certificate.now.p == length program.now.caps)) }
    ensures limits { IsLimited program.now }
{
    certificate.x.as_slice().len() == program.bounds().len()
        && certificate.p.as_slice().len() == program.caps().len()
}

fn has_denominators(certificate: &Certificate) -> bool
    ensures { result ≡ (nat_lt 0 (nat_abs certificate.now.q) && nat_lt 0 (nat_abs certificate.now.den)) }
{
    certificate.q != 0 && certificate.den != 0
}

fn has_small_numbers(certificate: &Certificate) -> bool
    ensures { result ≡
        ((is_small size_limit certificate.now.q && are_small size_limit certificate.now.x)
        && (is_small size_limit certificate.now.den
        && (are_small size_limit certificate.now.p && is_small size_limit certificate.now.value))) }
{
    is_small(certificate.q)
        && are_small(certificate.x.as_slice())
        && is_small(certificate.den)
        && are_small(certificate.p.as_slice())
        && is_small(certificate.value)
}

fn are_small(numbers: &[i64]) -> bool
    ensures { result ≡ are_small size_limit numbers.now }
{
    for number in numbers {
        if !is_small(*number) {
            return false;
        }
    }
    true
}

fn is_small(number: i64) -> bool
    ensures { result ≡ is_small size_limit number }
{
    0 <= number && number.unsigned_abs() < SIZE_LIMIT
}
