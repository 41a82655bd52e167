//! Why a file gives no network.
use std::alloc::{AllocError, AllocFailed};
use thiserror::Error;

/// Why a file is refused: the first check that a row fails, in this order, or what the file lacks.
#[derive(Clone, Copy, Debug, PartialEq, Eq)]
pub enum Why {
    /// The first field is none of the five words, or `refund` in a file of version 1.
    Kind,
    /// The first row isn't of periods, or a later row is.
    Order,
    /// The number of fields isn't one that the kind allows in the file's version.
    Fields,
    /// A leg after the most legs, or a product after the most products.
    Many,
    /// A field that must be a name is none.
    Name,
    /// A field that must be a whole number is none.
    Number,
    /// A number is below its least or above its greatest value.
    Range,
    /// A name is taken among its kind, a product names one leg twice, or a demand or a percentage was given.
    Twice,
    /// A named leg or product isn't there.
    Missing,
    /// The thresholds of a leg are not strictly falling.
    Thresholds,
    /// The demands of a row add up to more than a history may have.
    Sum,
    /// There is no leg or no product: told at the place after the last row.
    Empty,
    /// The file is longer than 4,194,304 bytes: told at row 0.
    Size,
}

impl Why {
    ghost use Rattle.std.specs.Prelude.{◌≡◌, ◌≤◌, length};
    ghost use Rattle.nrm_network.specs.Causes.{why_text};

    /// The number of the cause and its word, as `1 kind`.
    pub fn text(self) -> &'static [u8]
        ensures text { result.now ≡ why_text self }
        ensures length { length result.now ≤ 13 }
    {
        match self {
            Why::Kind => b"1 kind",
            Why::Order => b"2 order",
            Why::Fields => b"3 fields",
            Why::Many => b"4 many",
            Why::Name => b"5 name",
            Why::Number => b"6 number",
            Why::Range => b"7 range",
            Why::Twice => b"8 twice",
            Why::Missing => b"9 missing",
            Why::Thresholds => b"10 thresholds",
            Why::Sum => b"11 sum",
            Why::Empty => b"12 empty",
            Why::Size => b"13 size",
        }
    }
}

/// A file that gives no network: it is refused at a row, counted from 1, or memory ran out.
#[derive(Debug, Drop, Error)]
pub enum NetFault {
    #[error("refused at row {row}")]
    Refused { row: u32, why: Why },
    #[error("out of memory")]
    NoMemory,
}

/// A row that isn't taken: it is refused, or memory ran out.
#[derive(Debug, Drop)]
pub(crate) enum RowRefusal {
    Refused(Why),
    NoMemory,
}

impl RowRefusal {
    ghost use Rattle.std.specs.Prelude.{◌≡◌};
    ghost use Rattle.nrm_network.specs.Inner.Faults.{fault_at};

    /// The fault of a file whose row of this number isn't taken.
    pub(crate) fn at(self, row: u32) -> NetFault
        ensures { result ≡ fault_at row self }
    {
        match self {
            RowRefusal::Refused(why) => NetFault::Refused { row, why },
            RowRefusal::NoMemory => NetFault::NoMemory,
        }
    }
}

impl From<AllocError> for NetFault {
    ghost use Rattle.std.specs.Prelude.{◌≡◌};
    ghost use Rattle.nrm_network.specs.declared.fault.NetFault.TheVariants.{NoMemory};

    ghost from_gives = { λ _ fault. fault ≡ NoMemory };

    fn from(_: AllocError) -> NetFault {
        NetFault::NoMemory
    }
}

impl From<csv::Error> for NetFault {
    ghost use Rattle.std.specs.Prelude.{◌≡◌};
    ghost use Rattle.nrm_network.specs.declared.fault.NetFault.TheVariants.{NoMemory};

    ghost from_gives = { λ _ fault. fault ≡ NoMemory };

    // A reader of bytes that takes records of any length fails only if memory runs out.
    fn from(_: csv::Error) -> NetFault {
        NetFault::NoMemory
    }
}

impl From<AllocError> for RowRefusal {
    ghost use Rattle.std.specs.Prelude.{◌≡◌};
    ghost use Rattle.nrm_network.specs.declared.fault.RowRefusal.TheVariants.{NoMemory};

    ghost from_gives = { λ _ e. e ≡ NoMemory };

    fn from(_: AllocError) -> RowRefusal {
        RowRefusal::NoMemory
    }
}

impl From<Why> for RowRefusal {
    ghost use Rattle.std.specs.Prelude.{◌≡◌};
    ghost use Rattle.nrm_network.specs.declared.fault.RowRefusal.TheVariants.{Refused};

    ghost from_gives = { λ why fault. fault ≡ Refused why };

    fn from(why: Why) -> RowRefusal {
        RowRefusal::Refused(why)
    }
}

impl<T: Drop> From<AllocFailed<T>> for RowRefusal {
    ghost use Rattle.std.specs.Prelude.{◌≡◌};
    ghost use Rattle.nrm_network.specs.declared.fault.RowRefusal.TheVariants.{NoMemory};

    ghost from_gives = { λ _ fault. fault ≡ NoMemory };

    fn from(_failed: AllocFailed<T>) -> RowRefusal {
        RowRefusal::NoMemory
    }
}
