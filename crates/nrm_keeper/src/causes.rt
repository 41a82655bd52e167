//! What a keeper over `sqlite` answers if a statement was refused, and the count of the calls that failed.
ghost use Rattle.std.specs.Prelude.{◌≡◌};
ghost use Rattle.nrm_edge.specs.Causes.{counted};
ghost use Rattle.nrm_keeper.specs.Rows.{has_failed};
ghost use Rattle.nrm_keeper.specs.Inner.Faults.{fault_of, added_by, dropped_by};

use crate::KeepFault;
use sqlite::{Error, ErrorCode};

/// Why a statement that was refused gives no answer.
pub(crate) fn fault_of(error: Error) -> KeepFault
    ensures { result ≡ fault_of error }
{
    match error {
        Error::SqliteFailure(ErrorCode::OutOfMemory) => KeepFault::NoMemory,
        _ => KeepFault::Failed,
    }
}

/// What a keeper answers to a statement that adds a row.
pub(crate) fn added_by(executed: Result<usize, Error>) -> Result<(), KeepFault>
    ensures { result ≡ added_by executed }
{
    match executed {
        Ok(_) => Ok(()),
        Err(error) => Err(fault_of(error)),
    }
}

/// What a keeper answers to a statement that took so many rows away.
pub(crate) fn dropped_by(executed: Result<usize, Error>) -> Result<(), KeepFault>
    ensures { result ≡ dropped_by executed }
{
    match executed {
        Ok(0) => Err(KeepFault::Failed),
        Ok(_) => Ok(()),
        Err(error) => Err(fault_of(error)),
    }
}

/// The answer, with one fault counted if it is that the keeper failed.
pub(crate) fn raised<T>(faults: &mut u64, answer: Result<T, KeepFault>) -> Result<T, KeepFault>
    ensures answer { result ≡ answer }
    ensures counts { faults.new ≡ counted (has_failed answer) faults.old }
{
    if matches!(answer, Err(KeepFault::Failed)) {
        *faults = faults.saturating_add(1);
    }
    answer
}
