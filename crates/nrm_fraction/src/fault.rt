//! Why whole numbers over one denominator aren't made.
use std::alloc::{AllocError, AllocFailed};

/// Why whole numbers over one denominator can't be made.
#[derive(Debug, Drop)]
pub enum RowFault {
    /// They are Large: the denominator or a number reaches the limit in size. The first one that does, the denominator
    /// first and then the numbers in order.
    Large { number: i128 },
    /// Memory ran out.
    NoMemory,
}

impl From<AllocError> for RowFault {
    ghost use Rattle.std.specs.Prelude.{◌≡◌};
    ghost use Rattle.nrm_fraction.specs.declared.fault.RowFault.TheVariants.{NoMemory};

    ghost from_gives = { λ _ fault. fault ≡ NoMemory };

    fn from(_: AllocError) -> RowFault {
        RowFault::NoMemory
    }
}

impl<T: Drop> From<AllocFailed<T>> for RowFault {
    ghost use Rattle.std.specs.Prelude.{◌≡◌};
    ghost use Rattle.nrm_fraction.specs.declared.fault.RowFault.TheVariants.{NoMemory};

    ghost from_gives = { λ _ fault. fault ≡ NoMemory };

    fn from(_: AllocFailed<T>) -> RowFault {
        RowFault::NoMemory
    }
}
