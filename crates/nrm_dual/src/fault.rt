//! Why a file gives no certificate.
ghost use Rattle.std.specs.Prelude.{◌≡◌};
ghost use Rattle.nrm_dual.specs.Refusals.{cause_of};
ghost use Rattle.nrm_dual.specs.declared.fault.CertFault.TheVariants.{NoMemory};

use nrm_fraction::RowFault;
use std::alloc::AllocError;
use thiserror::Error;

/// Why a file gives no certificate, the first cause in this order.
#[derive(Clone, Copy, Debug, PartialEq, Eq, Error)]
pub enum CertFault {
    /// The file has more than 65,536 bytes.
    #[error("long")]
    Long,
    /// The line of this number, counted from 1, is the first that fails: it is of none of the three forms, names an
    /// unknown product or leg, or repeats the value, a product or a leg.
    #[error("line {0}")]
    Line(u32),
    /// The line of this number is the first that fails: a number in it exceeds 2^63 - 1.
    #[error("line {0} large")]
    Large(u32),
    /// No line gives the value.
    #[error("no value")]
    NoValue,
    /// The first product without a line.
    #[error("no product {0}")]
    NoProduct(u16),
    /// The first leg without a line.
    #[error("no leg {0}")]
    NoLeg(u8),
    /// A number of the certificate reaches 2^48.
    #[error("too fine")]
    TooFine,
    /// Memory ran out.
    #[error("out of memory")]
    NoMemory,
}

impl From<AllocError> for CertFault {
    ghost from_gives = { λ _ fault. fault ≡ NoMemory };

    fn from(_fault: AllocError) -> CertFault {
        CertFault::NoMemory
    }
}

impl From<RowFault> for CertFault {
    ghost from_gives = { λ cause fault. fault ≡ cause_of cause };

    fn from(cause: RowFault) -> CertFault {
        match cause {
            RowFault::Large { number: _ } => CertFault::TooFine,
            RowFault::NoMemory => CertFault::NoMemory,
        }
    }
}
