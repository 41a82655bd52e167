//! The simplex method: a linear program's path to its end.
#![tactic(auto)]

mod fault;
mod path;

pub use fault::SolveFault;
pub use path::solve;
