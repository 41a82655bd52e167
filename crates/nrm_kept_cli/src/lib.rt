//! The session of `nrm_kept`, which keeps its bookings, and not the store that it keeps them in, which is `nrm_keeper`'s. What a line
//! changes of the book is kept first, and only then carried out: a fault of the store changes nothing. A later run goes on with them.
//!
//! A reader begins with what each status says, in specs/Ends, and with the step of one line, in specs/Step. The calls:
//! - `asks_for_a_session` says whether the words ask for one; all others get the usage line;
//! - `run_kept` answers the lines of a stream over any files, source, sink and keeper, and gives the `KeptStatus`.
//!
//! The tests `a_later_run_goes_on`, `a_booking_that_is_not_stored_is_not_made` and `each_call_fails_in_turn` run it by hand.
#![tactic(auto)]

mod keeping;
mod laws;
mod loading;
mod put;
mod status;
mod top;

pub use laws::{
    faults_leave_nothing, kept_hindsight_bounds, kept_runs_oversell_no_leg, rows_load_again,
};
pub use loading::LAST_KEPT;
pub use status::KeptStatus;
pub use top::{asks_for_a_session, run_kept};
