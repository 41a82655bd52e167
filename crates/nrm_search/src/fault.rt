//! Why a search found no certificate.
use std::alloc::{AllocError, AllocFailed};

/// Why there is no certificate.
#[derive(Clone, Copy, Debug, PartialEq, Eq)]
pub enum SearchFault {
    /// A number passed 64 bits, the budget of steps was used up, or the checker didn't find the certificate optimal.
    GaveUp,
    /// Memory ran out.
    NoMemory,
}

impl From<AllocError> for SearchFault {
    ghost use Rattle.std.specs.Prelude.{◌≡◌};
    ghost use Rattle.nrm_search.specs.declared.fault.SearchFault.TheVariants.{NoMemory};

    ghost from_gives = { λ _ e. e ≡ NoMemory };

    fn from(_: AllocError) -> SearchFault {
        SearchFault::NoMemory
    }
}

impl<T: Drop> From<AllocFailed<T>> for SearchFault {
    ghost use Rattle.std.specs.Prelude.{◌≡◌};
    ghost use Rattle.nrm_search.specs.declared.fault.SearchFault.TheVariants.{NoMemory};

    ghost from_gives = { λ _ e. e ≡ NoMemory };

    fn from(_: AllocFailed<T>) -> SearchFault {
        SearchFault::NoMemory
    }
}
