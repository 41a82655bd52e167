//! Frames: how a relay, which holds the sockets and the database, speaks with the program. Text with a length, both ways.
//!
//! What comes in is a header line and as many bytes as it says: `cut_frame` takes the first frame off some bytes. What goes out
//! is put by `put_ready`, `put_keep`, `put_send`, `put_close`, `put_no_row` and `put_differs`.
#![tactic(auto)]

mod cut;
mod header;
mod laws;
mod limits;
mod outgoing;
mod rights;
mod why;

pub use cut::{Cut, cut_frame};
pub use header::{Header, header_of};
pub use laws::frames_dont_depend_on_pieces;
pub use limits::{LAST_PLACE, MOST_HEADER, MOST_PAYLOAD};
pub use outgoing::{put_close, put_differs, put_keep, put_no_row, put_ready, put_send};
pub use rights::{Rights, rights_of};
pub use why::Why;
