//! The dual simplex method: an optimal certificate of a linear program, found by another way than `nrm_simplex`'s path, with one row for
//! each leg and none for a product.
//!
//! `search` is the one call; the tests in `nrm_solver_tests` run it. What it finds isn't proved optimal on the way: it counts only once
//! `nrm_dual::check` finds it optimal, and that gives the contract.
#![tactic(auto)]

mod basis;
mod closing;
mod column;
mod entering;
mod exact;
mod fault;
mod heap;
mod leaving;
mod pivot;
mod prices;
mod room;
mod row;
mod searching;
mod shape;

pub use fault::SearchFault;
pub use searching::search;
