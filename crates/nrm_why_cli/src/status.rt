//! Statuses.
ghost use Rattle.std.specs.Prelude.{◌≡◌};
ghost use Rattle.nrm_why_cli.specs.Statuses.{number_of};

use nrm_common_cli::Statuses;

/// How the program ended. Those that come with a line of text write it to standard output.
#[derive(Clone, Copy, Debug, PartialEq, Eq)]
pub enum WhyStatus {
    /// The account was written whole.
    Done,
    /// Usage error: the words ask for nothing that is known. The usage line was written.
    Usage,
    /// The network file is refused; a line says why.
    Refused,
    /// Standard input failed.
    ReadFault,
    /// Standard output failed.
    WriteFault,
    /// Memory ran out, and nothing was written.
    NoMemory,
    /// The opening linear program leaves the range of the solver's numbers.
    Overflow,
    /// The stream is too long.
    TooLong,
    /// The files failed; a line says so.
    FileFault,
    /// The stream has no such line; a line says so.
    NoLine,
}

impl WhyStatus {
    /// The exit status.
    pub fn number(self) -> u8
        ensures { result ≡ number_of self }
    {
        match self {
            WhyStatus::Done => 0,
            WhyStatus::Usage => 2,
            WhyStatus::Refused => 3,
            WhyStatus::ReadFault => 4,
            WhyStatus::WriteFault => 5,
            WhyStatus::NoMemory => 6,
            WhyStatus::Overflow => 7,
            WhyStatus::TooLong => 8,
            WhyStatus::FileFault => 9,
            WhyStatus::NoLine => 10,
        }
    }
}

/// Those by which it says what each program over a network may have to say.
pub(crate) const STATUSES: Statuses<WhyStatus> = Statuses {
    refused: WhyStatus::Refused,
    file_fault: WhyStatus::FileFault,
    overflow: WhyStatus::Overflow,
    no_memory: WhyStatus::NoMemory,
    write_fault: WhyStatus::WriteFault,
};
