//! Statuses.
ghost use Rattle.std.specs.Prelude.{◌≡◌};
ghost use Rattle.nrm_kept_cli.specs.Statuses.{number_of};

use nrm_common_cli::Statuses;

/// How the program ended. Those that come with a line of text write it to standard output.
#[derive(Clone, Copy, Debug, PartialEq, Eq)]
pub enum KeptStatus {
    /// The input was read to its end, and the replies were written whole.
    Done,
    /// Usage error: the words ask for nothing that is known. The usage line was written.
    Usage,
    /// The network file is refused; a line says why.
    Refused,
    /// Standard input failed.
    ReadFault,
    /// Standard output failed.
    WriteFault,
    /// Memory ran out, before anything was written.
    NoMemory,
    /// The opening linear program leaves the range of the solver's numbers.
    Overflow,
    /// The stream is too long.
    TooLong,
    /// The files failed; a line says so.
    FileFault,
    /// The store failed before a line was answered; a line says so.
    StoreFault,
    /// A row of the store doesn't load; a line names its number.
    StoreRefused,
}

impl KeptStatus {
    /// The exit status.
    pub fn number(self) -> u8
        ensures { result ≡ number_of self }
    {
        match self {
            KeptStatus::Done => 0,
            KeptStatus::Usage => 2,
            KeptStatus::Refused => 3,
            KeptStatus::ReadFault => 4,
            KeptStatus::WriteFault => 5,
            KeptStatus::NoMemory => 6,
            KeptStatus::Overflow => 7,
            KeptStatus::TooLong => 8,
            KeptStatus::FileFault => 9,
            KeptStatus::StoreFault => 12,
            KeptStatus::StoreRefused => 13,
        }
    }
}

/// Those by which it says what each program over a network may have to say.
pub(crate) const STATUSES: Statuses<KeptStatus> = Statuses {
    refused: KeptStatus::Refused,
    file_fault: KeptStatus::FileFault,
    overflow: KeptStatus::Overflow,
    no_memory: KeptStatus::NoMemory,
    write_fault: KeptStatus::WriteFault,
};
