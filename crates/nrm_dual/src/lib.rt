//! Certificates and their checker: whether an allocation and bid prices, whoever made them, are optimal.
//!
//! `read_certificate` reads a certificate from a file, and `check` judges it against a linear program: the test
//! `files_are_read_and_checked` of `nrm_solver_tests` calls both. The other functions are laws, of which the first four speak of what
//! `check` answers, and the others of what is written and read.
#![tactic(auto)]

mod amounts;
mod checking;
mod conditions;
mod fault;
mod laws;
mod place;
mod reading;
mod shape;
mod sheet;
mod sums;
mod verdict;
mod written;

pub use checking::check;
pub use fault::CertFault;
pub use laws::{
    certified_pass, closings_are_read, closings_pass, optimal_passes, passes_certify,
    read_is_shaped, written_is_read,
};
pub use reading::read_certificate;
pub use verdict::Verdict;
