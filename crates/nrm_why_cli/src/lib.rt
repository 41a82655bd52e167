//! The account of one answer of a session: the words of the command line, the network file, the stream, and the status.
//!
//! A reader begins with what each status says, in specs/Ends, and what one call says of all that stands outside it, in specs/Call. The
//! calls:
//! - `asks_for_an_account` says whether the words ask for one; all others get the usage line;
//! - `run_why` reads the stream up to its end and writes the account of the line that the words name, over any files, source and sink.
//!
//! The tests `each_kind_of_line_is_accounted_for` and `what_is_not_there_is_told` run it by hand.
#![tactic(auto)]

mod put;
mod status;
mod top;

pub use status::WhyStatus;
pub use top::{LAST_LINE, asks_for_an_account, run_why};
