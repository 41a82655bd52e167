//! Whole numbers of 64 bits whose sizes are tested: where a result doesn't fit, the search gives up.
ghost use Rattle.std.specs.Prelude.{◌≡◌, ◌*◌, ◌≤◌};

use crate::fault::SearchFault;

pub(crate) fn plus(a: i64, b: i64) -> Result<i64, SearchFault> {
    a.checked_add(b).ok_or(SearchFault::GaveUp)
}

pub(crate) fn minus(a: i64, b: i64) -> Result<i64, SearchFault> {
    a.checked_sub(b).ok_or(SearchFault::GaveUp)
}

pub(crate) fn times(a: i64, b: i64) -> Result<i64, SearchFault> {
    a.checked_mul(b).ok_or(SearchFault::GaveUp)
}

/// The quotient, where the divisor isn't 0.
pub(crate) fn over(a: i64, b: i64) -> Result<i64, SearchFault> {
    a.checked_div(b).ok_or(SearchFault::GaveUp)
}

/// The quotient by what some numbers have in common.
pub(crate) fn over_shared(a: i64, shared: u64) -> Result<i64, SearchFault> {
    match i64::try_from(shared) {
        Ok(shared) => over(a, shared),
        Err(_) => Err(SearchFault::GaveUp),
    }
}

/// The number at a place in a list.
pub(crate) fn number_at(numbers: &[i64], place: usize) -> Result<i64, SearchFault> {
    numbers.get(place).copied().ok_or(SearchFault::GaveUp)
}

/// Whether a list says so at a place; past its end it doesn't.
pub(crate) fn is_at(flags: &[bool], place: usize) -> bool {
    flags.get(place).copied().unwrap_or(false)
}

/// The product of two sizes, which always fits.
pub(crate) fn wide(a: u64, b: u64) -> u128
    ensures { result ≡ a * b }
{
    u128::from(a) * u128::from(b)
}
