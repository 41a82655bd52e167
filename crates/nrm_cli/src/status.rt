//! Statuses.
ghost use Rattle.std.specs.Prelude.{◌≡◌};
ghost use Rattle.nrm_cli.specs.Statuses.{number_of};

use nrm_common_cli::Statuses;

/// How the program ended. Those that come with a line of text write it to standard output.
#[derive(Clone, Copy, Debug, PartialEq, Eq)]
pub enum Status {
    /// The output was written whole.
    Done,
    /// A certificate fails a condition.
    Wrong,
    /// Usage error: no such command. The usage line was written.
    Usage,
    /// A file is refused; a line says why.
    Refused,
    /// Standard input failed.
    ReadFault,
    /// Standard output failed.
    WriteFault,
    /// Memory ran out, before anything was written.
    NoMemory,
    /// The opening linear program leaves the range of the solver's numbers.
    Overflow,
    /// The stream is too long.
    TooLong,
    /// The files failed; a line says so.
    FileFault,
    /// No product uses a leg of this name; a line says so.
    NoLeg,
    /// No product uses a leg of this name and no other, or too many do; a line says how many.
    NoClass,
}

impl Status {
    /// The exit status.
    pub fn number(self) -> u8
        ensures { result ≡ number_of self }
    {
        self as u8
    }
}

/// Those by which it says what each program over a network may have to say.
pub(crate) const STATUSES: Statuses<Status> = Statuses {
    refused: Status::Refused,
    file_fault: Status::FileFault,
    overflow: Status::Overflow,
    no_memory: Status::NoMemory,
    write_fault: Status::WriteFault,
};
