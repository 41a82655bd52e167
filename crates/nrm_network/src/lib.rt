//! The network file: its text read into a network, and a network written as its text.
//!
//! A reader begins with the definition of a file in specs/File and that of its rows in specs/Rows. The calls:
//! - `parse` reads the bytes of a file. It gives the network, or a `NetFault`: the row that is refused, counted from 1 (0 for the length of
//!   the file), and `Why`; or that memory ran out;
//! - `Why::text` is the word for the cause, as it is printed;
//! - `print` writes the text of a network, of which `parse` gives that network again.
//!
//! The laws say that: `printed_is_read`, `migrated_is_same` of an older version's text, `read_is_network` of the limits. The tests
//! `what_is_read_is_printed` and `each_cause_is_told_at_its_row` run both calls by hand.
#![tactic(auto)]

mod draft;
mod entry;
mod fault;
mod front;
mod laws;
mod line;
mod numbers;
mod reading;
mod row;
mod writing;

pub use fault::{NetFault, Why};
pub use laws::{
    first_version_authorises_seats, migrated_is_same, printed_is_read, read_is_network,
};
pub use reading::parse;
pub use writing::print;
