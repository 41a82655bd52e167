//! The hub of many desks: lines of many clients, carried out by one controller, one after another. It reads and writes no file itself:
//! what came from a client is given to it, and it gives the rows that are to be kept and the bytes that are to be sent to whom.
//!
//! A reader begins with what may happen, in specs/World, and with the theorem above it, in specs/Desks. The calls of `Hub`, in their
//! order, as in the test `desks_go_on_behind_their_rows`:
//! - `new`, of a controller that has just begun; `again` gives it the rows of the journal, and `ready` says that these were all;
//! - `open`, `came` and `gone`: a client comes, its bytes do, and it is gone;
//! - `take_round` gives each client its turn, and then gives out the rows of all that was answered;
//! - `kept` says that these rows are kept: it sends the replies, and closes who is to be closed;
//! - `ended`, of the last frame.
#![tactic(auto)]

mod again;
mod asked;
mod client;
mod due;
mod front;
mod hub;
mod laws;
mod limits;
mod line;
mod listed;
mod outbox;
mod phase;
mod register;
mod row;
mod text;

pub use again::AgainFault;
pub use hub::{Hub, Opened};
pub use laws::{desks_are_served, rights_hold, rows_give_the_state};
pub use limits::{
    LAST_SEQUENCE, MOST_DESKS, MOST_HELD, MOST_LINE, MOST_LINES, MOST_ROWS, MOST_WAITING,
};
pub use phase::Phase;
pub use row::Row;
