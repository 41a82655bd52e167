//! Many desks at one controller: the words of the command line, the network file, the frames, and the status.
//!
//! A reader begins with what each status says, in specs/Ends, and how frames were served, in specs/Served. The calls:
//! - `asks_for_desks` says whether the words ask for desks; all others get the usage line;
//! - `run_desks` answers the frames of a source, over any files and sink, and gives the `DesksStatus`, whose `number` is the exit status.
//!
//! Behind it, in top.rt, a network is opened; serving.rt takes bytes and sends what is due, incoming.rt holds the bytes, and handling.rt
//! carries out one frame. The tests `desks_go_on_behind_their_rows` and `what_may_not_come_is_told` run it by hand.
#![tactic(auto)]

mod handling;
mod incoming;
mod serving;
mod status;
mod top;

pub use status::DesksStatus;
pub use top::{asks_for_desks, run_desks};
