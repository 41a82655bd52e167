//! The deterministic linear programs of a network: the seats left and the demand to come, summed over the demand
//! histories, as the data of a program, and the authorised seats and the past requests as those of hindsight; and what
//! solving one gives.
//!
//! A caller meets its calls in this order, and the tests run each:
//! - `opening_program`, `program_at`: the program before anything is sold, and at some seats left from a period on;
//! - `prices`, which solves the latter, and `mean_value`, what its certificate is worth in a history;
//! - `hindsight_program`, the program of past requests, and `hindsight`, its value;
//! - `program_of`, a program of the network with any caps and bounds, which the others are made by.
#![tactic(auto)]

mod laws;
mod optimised;
mod programs;

pub use laws::{
    each_has_a_hindsight, hindsights_are_determined, hindsights_bound_allocations,
    programs_are_limited,
};
pub use optimised::{hindsight, mean_value, prices};
pub use programs::{hindsight_program, opening_program, program_at, program_of};
