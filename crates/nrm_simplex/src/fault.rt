//! Why a program has no certificate.
use nrm_row::RowFault;
use std::alloc::AllocError;

/// Why a program isn't solved.
#[derive(Clone, Copy, PartialEq, Eq)]
pub enum SolveFault {
    /// The program is Large: a number of the pivot after these finished ones, or of the closing after all of them,
    /// reaches the limit in size. `number` is the first that does; `pivots` is 4,294,967,295 where there were more.
    Overflow { pivots: u32, number: i128 },
    /// Memory ran out.
    NoMemory,
}

impl SolveFault {
    ghost use Rattle.std.specs.Prelude.{◌≡◌};
    ghost use Rattle.nrm_simplex.specs.Inner.Faults.{fault_after};

    // The fault of a row that was to be made after so many finished pivots.
    pub(crate) fn after(pivots: u32, fault: RowFault) -> SolveFault
        ensures { result ≡ fault_after pivots fault }
    {
        match fault {
            RowFault::Large { number } => SolveFault::Overflow { pivots, number },
            RowFault::NoMemory => SolveFault::NoMemory,
        }
    }
}

impl From<AllocError> for SolveFault {
    ghost use Rattle.std.specs.Prelude.{◌≡◌};
    ghost use Rattle.nrm_simplex.specs.declared.fault.SolveFault.TheVariants.{NoMemory};

    ghost from_gives = { λ _ e. e ≡ NoMemory };

    fn from(_: AllocError) -> SolveFault {
        SolveFault::NoMemory
    }
}
