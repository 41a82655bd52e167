//! Statuses.
ghost use Rattle.std.specs.Prelude.{◌≡◌};
ghost use Rattle.nrm_desks_cli.specs.Statuses.{number_of};

use nrm_common_cli::Statuses;

/// How the program ended. Those that come with a line of text write it to standard output.
#[derive(Clone, Copy, Debug, PartialEq, Eq)]
pub enum DesksStatus {
    /// The last frame came, or the input ended between two frames.
    Done,
    /// Usage error: the words ask for nothing that is known. The usage line was written.
    Usage,
    /// The network file is refused; a line says why.
    Refused,
    /// Standard input failed.
    ReadFault,
    /// Standard output failed.
    WriteFault,
    /// Memory ran out before clients could be opened.
    NoMemory,
    /// The opening linear program leaves the range of the solver's numbers.
    Overflow,
    /// More bytes came than are counted.
    TooLong,
    /// The files failed; a line says so.
    FileFault,
    /// What came is no frame, or no frame may come there.
    NoFrame,
    /// A row that was given again is none, or not the next; a frame says which.
    NoRow,
    /// A row that was given again isn't what the program answers; a frame says which.
    Differs,
}

impl DesksStatus {
    /// The exit status.
    pub fn number(self) -> u8
        ensures { result ≡ number_of self }
    {
        match self {
            DesksStatus::Done => 0,
            DesksStatus::Usage => 2,
            DesksStatus::Refused => 3,
            DesksStatus::ReadFault => 4,
            DesksStatus::WriteFault => 5,
            DesksStatus::NoMemory => 6,
            DesksStatus::Overflow => 7,
            DesksStatus::TooLong => 8,
            DesksStatus::FileFault => 9,
            DesksStatus::NoFrame => 10,
            DesksStatus::NoRow => 11,
            DesksStatus::Differs => 12,
        }
    }
}

/// Those by which it says what each program over a network may have to say.
pub(crate) const STATUSES: Statuses<DesksStatus> = Statuses {
    refused: DesksStatus::Refused,
    file_fault: DesksStatus::FileFault,
    overflow: DesksStatus::Overflow,
    no_memory: DesksStatus::NoMemory,
    write_fault: DesksStatus::WriteFault,
};
