//! Why a client is closed.
ghost use Rattle.std.specs.Prelude.{◌≡◌};
ghost use Rattle.nrm_frames.specs.Outgoing.{why_word};

/// Why a client is closed.
#[derive(Clone, Copy, Debug, PartialEq, Eq)]
pub enum Why {
    /// It left.
    Gone,
    /// Another connection is its desk now.
    Elsewhere,
    /// A line of it is too long.
    Long,
    /// More bytes of it came than may wait.
    Window,
    /// The number of its line was used for another line.
    Sequence,
    /// The number of its line is older than what is held of its desk.
    Old,
    /// There are as many desks as there may be.
    Desks,
    /// The journal has as many rows as it may have.
    Rows,
    /// Memory ran out for it.
    Memory,
}

impl Why {
    /// Its word.
    pub fn word(self) -> &'static [u8]
        ensures { result.now ≡ why_word self }
    {
        match self {
            Why::Gone => b"gone",
            Why::Elsewhere => b"elsewhere",
            Why::Long => b"long",
            Why::Window => b"window",
            Why::Sequence => b"sequence",
            Why::Old => b"old",
            Why::Desks => b"desks",
            Why::Rows => b"rows",
            Why::Memory => b"memory",
        }
    }
}
