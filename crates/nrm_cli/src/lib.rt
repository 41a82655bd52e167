//! The top call of `nrm`: words, files, statuses, and what is written.
//!
//! A reader begins with what each status says, in specs/Ends, and what one call says of all that stands outside it, in specs/Call. The
//! calls:
//! - `asks_for_a_job` says whether the words ask for anything; all others get the usage line;
//! - `run` does what they ask for, over any files, source and sink, and gives the `Status`, whose `number` is the exit status.
//!
//! The jobs are a file each: served.rt and made.rt (a session), planned.rt, checked.rt, and told.rt with findings of `nrm_findings`. The
//! tests `a_stream_is_answered`, `a_certificate_is_checked` and `each_put_fails_once` run them by hand.
#![tactic(auto)]

mod certificate;
mod checked;
mod made;
mod planned;
mod served;
mod status;
mod told;
mod top;
mod words;

pub use status::Status;
pub use top::run;
pub use words::asks_for_a_job;
