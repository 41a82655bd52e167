//! What the hub awaits.

/// What the hub awaits.
#[derive(Clone, Copy, Debug, PartialEq, Eq)]
pub enum Phase {
    /// Rows of the journal, which are given again, until it is said that these were all.
    Replaying,
    /// Lines: all that was answered is kept, and was sent.
    Settled,
    /// More lines, or that each client had its turn: lines were answered since, or clients are to be closed. Nothing may be sent.
    Answering,
    /// The word that the rows that were given out are kept: no line is taken.
    Asked,
    /// Nothing: what waits for clients is being sent.
    Telling,
    /// Nothing more: the last frame came.
    Ended,
}
