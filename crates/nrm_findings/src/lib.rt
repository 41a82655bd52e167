//! What is found beside a session, as it is written: the verdict on a certificate, the thresholds of a leg, the values of its
//! seats, and the sum of a made run. The texts of a session's own replies are in nrm_report and nrm_session.
#![tactic(auto)]

mod certificates;
mod cuts;
mod summary;
mod values;

pub use certificates::{line_of_fault, line_of_verdict};
pub use cuts::cuts_of;
pub use summary::{Counts, line_of_summary};
pub use values::{VALUES_ROOM, line_of_no_classes, values_on};
